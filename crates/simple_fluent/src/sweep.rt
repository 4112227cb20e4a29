// The rows of all values, in one sweep over the points at which something happens.
ghost use Rattle.std.specs.Prelude.{◌≡◌, ℕ, ◌≤◌, ◌<◌, ◌^◌, ◌+◌, ◌-◌, [], length, map, replicate};
ghost use Rattle.std.specs.Prelude.{IfOk};
ghost use Rattle.std.specs.List.{AllByRecursion};
ghost use Rattle.span_algebra.specs.Normal.{IsRising, pairs};
ghost use Rattle.simple_fluent.specs.Rows.{rows_of, IsInside, IsValueBelow};
ghost use Rattle.simple_fluent.specs.Firsts.{least_with, RisesFrom, value_in};
ghost use Rattle.simple_fluent.specs.Sweep.{started, after_point, next_of, is_same, terms_from};
ghost use Rattle.simple_fluent.specs.Sweep.{terms_after, since_after, rows_after, CanPass};

use crate::firsts::{First, gather, rest_firsts};
use ground_types::{Point, Value};
use rt_base::OutOfMemory;
use span_algebra::{Points, Span, Spans};
use std::alloc::Global;

// The next point at which a value is initiated, or the current one terminated.
#[inline]
fn next_point(firsts: &[First], terms: &[Point]) -> Option<Point>
    ensures { result ≡ next_of firsts.now terms.now }
{
    match (firsts, terms) {
        ([], []) => None,
        ([], [term, ..]) => Some(*term),
        ([first, ..], []) => Some(first.at),
        ([first, ..], [term, ..]) => Some(first.at.min(*term)),
    }
}

// The value that is initiated at the point.
#[inline]
fn started_at(firsts: &[First], at: Point) -> Option<usize>
    ensures { result ≡ started firsts.now at }
{
    match firsts {
        [first, ..] if first.at == at => Some(first.value),
        _ => None,
    }
}

// The list without the point at its front.
#[inline]
fn rest_points(points: &[Point], at: Point) -> &[Point]
    ensures { result.now ≡ after_point points.now at }
{
    match points {
        [first, rest @ ..] if *first == at => rest,
        _ => points,
    }
}

// Whether both are the same value, or no value.
#[inline]
fn is_same(one: Option<usize>, two: Option<usize>) -> bool
    ensures { result ≡ is_same one two }
{
    match (one, two) {
        (None, None) => true,
        (None, Some(_)) => false,
        (Some(_), None) => false,
        (Some(one), Some(two)) => one == two,
    }
}

// The points above this one at which the value is terminated.
fn terms_of(terms: &[Points], value: Option<usize>, above: Point, q: Point) -> &[Point]
    requires { IsValueBelow (length terms.now) value }
    ensures list { result.now ≡ terms_from terms.now value above q }
    ensures rising { IsRising result.now }
{
    match value {
        None => &[],
        Some(value) => terms[value].within(above, q),
    }
}

// The same past a point after which the value is the next one.
#[inline]
fn terms_past<'a>(
    terms: &'a [Points],
    left: &'a [Point],
    current: Option<usize>,
    next: Option<usize>,
    at: Point,
    q: Point,
) -> &'a [Point]
    requires next { IsValueBelow (length terms.now) next }
    requires left { IsRising left.now }
    ensures list { result.now ≡ terms_after terms.now left.now current next at q }
    ensures rising { IsRising result.now }
{
    if is_same(current, next) {
        rest_points(left, at)
    } else {
        terms_of(terms, next, at, q)
    }
}

// Goes over a point after which the value is the next one: where that is another, the span of the
// one before ends.
fn pass(
    rows: &mut Vec<Spans>,
    current: Option<usize>,
    since: Point,
    next: Option<usize>,
    at: Point,
) -> Result<Point, OutOfMemory>
    requires { CanPass rows.old.items current since next at }
    ensures since { IfOk result (λ now. now ≡ since_after current since next at) }
    ensures rows { IfOk result (λ now. rows.new.items ≡ rows_after rows.old.items current since
        next at) }
{
    match (current, next) {
        (None, _) => Ok(at),
        (Some(value), Some(next)) if next == value => Ok(since),
        (Some(value), _) => {
            rows[value].push(Span {
                after: since,
                until: at,
            })?;
            Ok(at)
        }
    }
}

// So many rows without a span.
fn empty_rows(alloc: Global, count: usize) -> Result<Vec<Spans>, OutOfMemory>
    ensures { IfOk result (λ rows. rows.items ≡ replicate count []) }
{
    let mut rows = Vec::with_capacity(alloc, count)?;
    for _number in 0..count {
        rows.push(Spans::new(alloc))?;
    }
    Ok(rows)
}

// The number of a value among its fluent's.
fn number_of(value: Option<Value>) -> Option<usize>
    ensures { result ≡ value }
{
    match value {
        None => None,
        Some(value) => Some(value as usize),
    }
}

/// The row of each value over the window `(w, q]`, in the order of the values: its spans over the
/// value points `w + 1` to `q + 1`, in whole points of time.
///
/// `opening` is the value at the first value point, and `inits` and `terms` have for each value the
/// event points of the window at which it is initiated and terminated. A value goes on from point
/// to point until it is terminated or another is initiated, by the law of inertia of the Run-Time
/// Event Calculus. What happens at an event point counts from the next point on. The rules for ties
/// are our own: at one point an initiation beats a termination, and of several values that are
/// initiated there the one declared first counts. A value that is initiated breaks another that
/// holds.
///
/// The one error is want of memory. Merging n initiations of k values takes about n log k steps.
/// After that each initiation takes a step and at most two searches by halves among the
/// terminations of its value; terminations of values that do not hold take none. Beside the rows,
/// the memory grows by n.
pub fn spans_of(
    alloc: Global,
    opening: Option<Value>,
    inits: &[Points],
    terms: &[Points],
    w: Point,
    q: Point,
) -> Result<Vec<Spans>, OutOfMemory>
    requires opening { IsValueBelow (length inits.now) opening }
    requires count { length inits.now ≡ length terms.now }
    requires inits_inside { AllByRecursion (IsInside w q) inits.now }
    requires terms_inside { AllByRecursion (IsInside w q) terms.now }
    requires window { w < q }
    requires end { q < 2 ^ 64 - 1 }
    ensures { IfOk result (λ rows. map pairs rows.items ≡ rows_of opening inits.now terms.now w q) }
{
    let firsts = gather(alloc, inits, 0)?;
    let first = number_of(opening);
    let mut rows = empty_rows(alloc, inits.len())?;
    let mut current = first;
    let mut since = w;
    let mut seen = w;
    let mut firsts_left = firsts.as_slice();
    let mut terms_left = terms_of(terms, first, seen, q);
    'sweep: while let Some(at) = next_point(firsts_left, terms_left) {
        let next = started_at(firsts_left, at);
        since = pass(&mut rows, current, since, next, at)?;
        terms_left = terms_past(terms, terms_left, current, next, at, q);
        firsts_left = rest_firsts(firsts_left, at);
        current = next;
        seen = at;
    }
    // The span that is open at the end of the window goes on to the last value point.
    pass(&mut rows, current, since, None, q + 1)?;
    Ok(rows)
}
