// Starts, ends and points of rules.
ghost use Rattle.std.specs.Prelude.{◌≡◌, ◌&&◌, nat_lt, nat_le, ℕ, map, filter, IfOk};
ghost use Rattle.std.specs.List.{list_any};
ghost use Rattle.span_algebra.specs.Normal.{IsNormal, IsRising};
ghost use Rattle.ground_types.specs.Members.{contains};
ghost use Rattle.ground_types.specs.Rows.{points};
ghost use Rattle.derived_event.specs.Happening.{is_start, is_end};
ghost use Rattle.derived_event.specs.Borders.{border_of};

use ground_types::Point;
use rt_base::OutOfMemory;
use span_algebra::{Points, Span, Spans};
use std::alloc::Global;

// A border of a span: the point before its first, or its last point.
#[derive(Clone, Copy)]
enum Border {
    After,
    Until,
}

impl Border {
    // The border of this kind.
    #[inline]
    fn of(self, span: &Span) -> Point
        ensures { result ≡ border_of self span.now }
    {
        match self {
            Border::After => span.after,
            Border::Until => span.until,
        }
    }
}

// The borders of a row that are event points of the window `(w, q]`.
fn borders_in(
    alloc: Global,
    row: &Spans,
    border: Border,
    w: Point,
    q: Point,
) -> Result<Points, OutOfMemory>
    ensures normal { IsNormal row.now }
    ensures found { IfOk result (λ found. found ≡ filter (λ p. nat_lt w p && nat_le p q)
        (map (border_of border) row.now)) }
{
    let mut found = Vec::new(alloc);
    for span in row.as_slice() {
        let at = border.of(span);
        if w < at && at <= q {
            found.push(at)?;
        }
    }
    Ok(Points::of(alloc, found))
}

/// The event points of the window `(w, q]` at which a row starts to hold: it holds at the next
/// point and not at this one, so that a row that is carried in has no start at `w`. One pass over
/// the spans. The points are those of the Run-Time Event Calculus' `start`, their exact place is
/// our own.
pub fn starts(alloc: Global, row: &Spans, w: Point, q: Point) -> Result<Points, OutOfMemory>
    ensures { IfOk result (λ found. found ≡ points (is_start row.now) w q) }
{
    let found = borders_in(alloc, row, Border::After, w, q)?;
    Ok(found)
}

/// The event points of the window `(w, q]` at which a row ends to hold: it holds at this point and
/// not at the next one, so that a row that goes on past the window has no end. One pass over the
/// spans.
pub fn ends(alloc: Global, row: &Spans, w: Point, q: Point) -> Result<Points, OutOfMemory>
    ensures { IfOk result (λ found. found ≡ points (is_end row.now) w q) }
{
    let found = borders_in(alloc, row, Border::Until, w, q)?;
    Ok(found)
}

/// The points that some list has, each once: those of a derived event, from the points at which the
/// body of each of its rules is true. The time is that of sorting all of them.
pub fn derived_points(alloc: Global, rules: &[Points]) -> Result<Points, OutOfMemory>
    ensures rises { IfOk result (λ found. IsRising found) }
    ensures points { IfOk result (λ found. (t : ℕ) → contains found t
        ≡ list_any (λ points. contains points t) rules.now) }
{
    let mut found = Vec::new(alloc);
    for points in rules {
        found.extend_from_slice(points.as_slice())?;
    }
    found.sort_unstable();
    found.dedup();
    Ok(Points::of(alloc, found))
}
