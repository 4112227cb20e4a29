// One walk over the borders of many lists of spans, for every construct that makes spans.
ghost use Rattle.std.specs.Prelude.{◌≡◌, ◌+◌, ◌≤◌, ◌<◌, ◌^◌, ◌++◌, not, false, true, ℕ, Bool, map};
ghost use Rattle.std.specs.Prelude.{All, IfOk, OnOk, Option, Some, None, if◌then◌else◌};
ghost use Rattle.std.specs.BinaryHeap.{IsHeap, heap_items, heap_len};
ghost use Rattle.span_algebra.specs.Normal.{IsNormal, covers};
ghost use Rattle.span_algebra.specs.Walk.{answer_of, count_at, count_on, one_on, held_on};
ghost use Rattle.span_algebra.specs.Walk.{counted_on, is_at, first_at, by_border, AreCursors};
ghost use Rattle.span_algebra.specs.Walk.{IsPassed, begun_after, closed_at};

use crate::cursor::{Cursor, Side};
use crate::{Point, Span, Spans};
use rt_base::OutOfMemory;
use std::alloc::Global;
use std::collections::BinaryHeap;

// What is asked of a point: that some list that is wanted has it and none that is barred, or that
// exactly so many that are wanted have it.
#[derive(Clone, Copy)]
pub(crate) enum Test {
    SomeAndNone,
    Exactly(usize),
}

impl Test {
    // Whether so many lists pass it.
    #[inline]
    fn answer(self, held: Held) -> bool
        ensures { result ≡ answer_of self held.wanted held.barred }
    {
        match self {
            Test::SomeAndNone => 0 < held.wanted && held.barred == 0,
            Test::Exactly(count) => held.wanted == count,
        }
    }
}

// How many lists that are wanted hold, and how many that are barred.
#[derive(Clone, Copy)]
pub(crate) struct Held {
    wanted: usize,
    barred: usize,
}

impl Held {
    // One more of the lists holds, or one fewer.
    #[inline]
    fn past(self, cursor: &Cursor<'_>) -> Held
        requires less { (side : Side) → one_on side cursor.now.inside cursor.now.side ≤ held_on side
            self }
        requires more { (side : Side) → held_on side self + 1 < 2 ^ 64 }
        ensures { (side : Side) → held_on side result + one_on side cursor.now.inside
            cursor.now.side
            ≡ held_on side self + one_on side (not cursor.now.inside) cursor.now.side }
    {
        match (cursor.side, cursor.inside) {
            (Side::Wanted, false) => Held {
                wanted: self.wanted + 1,
                ..self
            },
            (Side::Wanted, true) => Held {
                wanted: self.wanted - 1,
                ..self
            },
            (Side::Barred, false) => Held {
                barred: self.barred + 1,
                ..self
            },
            (Side::Barred, true) => Held {
                barred: self.barred - 1,
                ..self
            },
        }
    }
}

// Whether the next border of all is at this point.
#[inline]
fn stands_at(cursors: &BinaryHeap<Cursor<'_>>, at: Point) -> bool
    ensures front { result ≡ is_at (first_at (heap_items cursors.now)) at }
    ensures least { (p : ℕ) → first_at (heap_items cursors.now) ≡ Some p
        → IsHeap by_border (heap_items cursors.now)
        → All (λ c. p ≤ c.at) (heap_items cursors.now) }
{
    match cursors.peek() {
        None => false,
        Some(cursor) => cursor.at == at,
    }
}

// Past the point the answer holds, or not: a span begins, goes on or ends. It gives where the span
// begins that is open.
#[inline]
fn pass(
    out: &mut Vec<Span>,
    begun: Option<Point>,
    holds: bool,
    at: Point,
) -> Result<Option<Point>, OutOfMemory>
    ensures begun { IfOk result (λ now. now ≡ begun_after begun holds at) }
    ensures out { IfOk result (λ now. out.new.items ≡ out.old.items ++ closed_at begun holds at) }
{
    match (begun, holds) {
        (None, true) => Ok(Some(at)),
        (None, false) => Ok(None),
        (Some(after), true) => Ok(Some(after)),
        (Some(after), false) => {
            out.push(Span { after, until: at })?;
            Ok(None)
        }
    }
}

// A list joins those that are walked over.
pub(crate) fn add<'a>(
    cursors: &mut BinaryHeap<Cursor<'a>>,
    side: Side,
    spans: &'a [Span],
) -> Result<(), OutOfMemory>
    requires normal { IsNormal spans.now }
    requires cursors { AreCursors (heap_items cursors.old) }
    ensures cursors { OnOk result (AreCursors (heap_items cursors.new)) }
    ensures each { OnOk result ((to : Side) (t : ℕ) → count_on to (heap_items cursors.new) t
        ≡ count_on to (heap_items cursors.old) t + one_on to (covers spans.now t) side) }
{
    if let Some(cursor) = Cursor::before(side, spans) {
        cursors.push(cursor)?;
    }
    Ok(())
}

// Many lists join them.
pub(crate) fn add_all<'a>(
    cursors: &mut BinaryHeap<Cursor<'a>>,
    side: Side,
    lists: &[&'a Spans],
) -> Result<(), OutOfMemory>
    requires { AreCursors (heap_items cursors.old) }
    ensures cursors { OnOk result (AreCursors (heap_items cursors.new)) }
    ensures each { OnOk result ((to : Side) (t : ℕ) → count_on to (heap_items cursors.new) t
        ≡ count_on to (heap_items cursors.old) t + counted_on to side
        (count_at (map (λ l. l.now) lists.now) t)) }
{
    for list in lists {
        add(cursors, side, list.as_slice())?;
    }
    Ok(())
}

// A list goes past its border, and back among the others if it has another.
fn put_back<'a>(cursors: &mut BinaryHeap<Cursor<'a>>, cursor: Cursor<'a>) -> Result<(), OutOfMemory>
    ensures passed { OnOk result (IsPassed cursor.entry (heap_items cursors.old)
        (heap_items cursors.new)) }
    ensures ordered { OnOk result (IsHeap by_border (heap_items cursors.old)
        → IsHeap by_border (heap_items cursors.new)) }
{
    if let Some(next) = cursor.past() {
        cursors.push(next)?;
    }
    Ok(())
}

// The points that pass the test. Each list comes out of the heap at its next border, and goes back
// for the one after it. A point that no list has must not pass: such points have no end.
pub(crate) fn walk(
    alloc: Global,
    test: Test,
    mut cursors: BinaryHeap<Cursor<'_>>,
) -> Result<Spans, OutOfMemory>
    requires cursors { AreCursors (heap_items cursors) }
    requires none { answer_of test 0 0 ≡ false }
    ensures { IfOk result (λ out. (t : ℕ)
        → covers out t ≡ answer_of test (count_on Side.Wanted (heap_items cursors.entry) t)
        (count_on Side.Barred (heap_items cursors.entry) t)) }
{
    let mut out = Vec::new(alloc);
    let mut begun = None;
    let mut held = Held {
        wanted: 0,
        barred: 0,
    };
    'walk: while let Some(cursor) = cursors.pop() {
        held = held.past(&cursor);
        put_back(&mut cursors, cursor)?;
        if !stands_at(&cursors, cursor.at) {
            begun = pass(&mut out, begun, test.answer(held), cursor.at)?;
        }
    }
    Ok(Spans::of(alloc, out))
}
