// The constructs that make lists of spans of other lists.
ghost use Rattle.std.specs.Prelude.{◌≡◌, ◌+◌, ◌<◌, ◌&&◌, not, nat_lt, nat_le, ℕ, length, map, IfOk};
ghost use Rattle.std.specs.List.{list_any, list_all};
ghost use Rattle.rt_base.specs.Truths.{differs};
ghost use Rattle.span_algebra.specs.Normal.{IsNormal, covers};
ghost use Rattle.span_algebra.specs.Walk.{answer_of, one_on};

use crate::cursor::Side;
use crate::walk::{Test, add, add_all, walk};
use crate::{Point, Span, Spans};
use rt_base::OutOfMemory;
use std::alloc::Global;
use std::collections::BinaryHeap;

// The lists, lent one by one.
fn lent(alloc: Global, lists: &[Spans]) -> Result<Vec<&Spans>, OutOfMemory>
    ensures { IfOk result (λ lent. map (λ l. l.now) lent.items ≡ lists.now) }
{
    let lent = lists.iter().collect(alloc)?;
    Ok(lent)
}

/// The points that some list has, over lists that are lent: `union_all` of the Run-Time Event
/// Calculus. Spans `(after, until]` that touch or overlap become one, and no list gives no span.
/// One walk over the borders of all lists, each at a cost of the logarithm of their number; beside
/// the answer it takes a place for each list. The one error is want of memory.
pub fn union_of(alloc: Global, lists: &[&Spans]) -> Result<Spans, OutOfMemory>
    ensures { IfOk result (λ out. (t : ℕ) → covers out t ≡ list_any (λ l. covers l.now t)
        lists.now) }
{
    let mut cursors = BinaryHeap::with_capacity(alloc, lists.len())?;
    add_all(&mut cursors, Side::Wanted, lists)?;
    let out = walk(alloc, Test::SomeAndNone, cursors)?;
    Ok(out)
}

/// The points that some list has, as `union_of` gives them.
pub fn union_all(alloc: Global, lists: &[Spans]) -> Result<Spans, OutOfMemory>
    ensures { IfOk result (λ out. (t : ℕ) → covers out t ≡ list_any (λ l. covers l t) lists.now) }
{
    let lists = lent(alloc, lists)?;
    let out = union_of(alloc, lists.as_slice())?;
    Ok(out)
}

/// The points that each of the lists has, of which there is one at least, over lists that are lent:
/// `intersect_all` of the Run-Time Event Calculus. One walk over the borders of all spans `(after,
/// until]`, as for a union. The one error is want of memory.
pub fn intersection_of(alloc: Global, lists: &[&Spans]) -> Result<Spans, OutOfMemory>
    requires some { 0 < length lists.now }
    ensures { IfOk result (λ out. (t : ℕ) → covers out t ≡ list_all (λ l. covers l.now t)
        lists.now) }
{
    let mut cursors = BinaryHeap::with_capacity(alloc, lists.len())?;
    add_all(&mut cursors, Side::Wanted, lists)?;
    let out = walk(alloc, Test::Exactly(lists.len()), cursors)?;
    Ok(out)
}

/// The points that each of the lists has, as `intersection_of` gives them.
pub fn intersect_all(alloc: Global, lists: &[Spans]) -> Result<Spans, OutOfMemory>
    requires some { 0 < length lists.now }
    ensures { IfOk result (λ out. (t : ℕ) → covers out t ≡ list_all (λ l. covers l t) lists.now) }
{
    let lists = lent(alloc, lists)?;
    let out = intersection_of(alloc, lists.as_slice())?;
    Ok(out)
}

/// The points that the first list has and none of the others, which are lent:
/// `relative_complement_all` of the Run-Time Event Calculus. One walk over the borders of all spans
/// `(after, until]`, as for a union. The one error is want of memory.
pub fn complement_of<'a>(
    alloc: Global,
    first: &'a Spans,
    others: &[&'a Spans],
) -> Result<Spans, OutOfMemory>
    ensures { IfOk result (λ out. (t : ℕ)
        → covers out t ≡ (covers first.now t && not (list_any (λ l. covers l.now t) others.now))) }
{
    let mut cursors = BinaryHeap::with_capacity(alloc, others.len().saturating_add(1))?;
    add(&mut cursors, Side::Wanted, first.as_slice())?;
    add_all(&mut cursors, Side::Barred, others)?;
    let out = walk(alloc, Test::SomeAndNone, cursors)?;
    Ok(out)
}

/// The points that the first list has and none of the others, as `complement_of` gives them.
pub fn relative_complement_all(
    alloc: Global,
    first: &Spans,
    others: &[Spans],
) -> Result<Spans, OutOfMemory>
    ensures { IfOk result (λ out. (t : ℕ)
        → covers out t ≡ (covers first.now t && not (list_any (λ l. covers l t) others.now))) }
{
    let others = lent(alloc, others)?;
    let out = complement_of(alloc, first, others.as_slice())?;
    Ok(out)
}

// The points that so many of two lists have.
fn shared_by(alloc: Global, count: usize, one: &[Span], two: &[Span]) -> Result<Spans, OutOfMemory>
    requires some { 0 < count }
    requires one { IsNormal one.now }
    requires two { IsNormal two.now }
    ensures { IfOk result (λ out. (t : ℕ)
        → covers out t ≡ answer_of (Test.Exactly count) (one_on Side.Wanted (covers one.now t)
        Side.Wanted + one_on Side.Wanted (covers two.now t) Side.Wanted) 0) }
{
    let mut cursors = BinaryHeap::with_capacity(alloc, 2)?;
    add(&mut cursors, Side::Wanted, one)?;
    add(&mut cursors, Side::Wanted, two)?;
    let out = walk(alloc, Test::Exactly(count), cursors)?;
    Ok(out)
}

/// The points of the list above `w`, up to and with `last`: its spans `(after, until]`, cut to the
/// span `(w, last]`, which may be empty. One walk over the list. The one error is want of memory.
/// The construct is our own.
pub fn clip(alloc: Global, list: &Spans, w: Point, last: Point) -> Result<Spans, OutOfMemory>
    ensures { IfOk result (λ out. (t : ℕ) → covers out t ≡ (covers list.now t && nat_lt w t
        && nat_le t last)) }
{
    if w >= last {
        return Ok(Spans::new(alloc));
    }
    let window = [Span {
        after: w,
        until: last,
    }];
    let out = shared_by(alloc, 2, list.as_slice(), &window)?;
    Ok(out)
}

/// The points that just one of the two lists has. One walk over the spans `(after, until]` of both.
/// The one error is want of memory. The construct is our own.
pub fn differ(alloc: Global, one: &Spans, two: &Spans) -> Result<Spans, OutOfMemory>
    ensures { IfOk result (λ out. (t : ℕ) → covers out t ≡ differs (covers one.now t)
        (covers two.now t)) }
{
    let out = shared_by(alloc, 1, one.as_slice(), two.as_slice())?;
    Ok(out)
}
