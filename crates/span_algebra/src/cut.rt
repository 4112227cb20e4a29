// Points cut by spans.
ghost use Rattle.std.specs.Prelude.{◌≡◌, filter, IfOk};
ghost use Rattle.span_algebra.specs.Normal.{covers};
ghost use Rattle.span_algebra.specs.Walk.{front_of, after_front};

use crate::{Points, Spans};
use rt_base::OutOfMemory;
use std::alloc::Global;

// The first of some items.
#[inline]
fn first<T: Copy>(items: &[T]) -> Option<T>
    ensures { result ≡ front_of items.now }
{
    match items {
        [] => None,
        [item, ..] => Some(*item),
    }
}

// The items after the first.
#[inline]
fn rest<T>(items: &[T]) -> &[T]
    ensures { result.now ≡ after_front items.now }
{
    match items {
        [] => items,
        [_, rest @ ..] => rest,
    }
}

/// The points at which some span `(after, until]` of `within` holds, in rising order. One walk over
/// the points and the spans. The one error is want of memory. The construct is our own.
pub fn cut_points(alloc: Global, points: &Points, within: &Spans) -> Result<Points, OutOfMemory>
    ensures { IfOk result (λ out. out ≡ filter (covers within.now) points.now) }
{
    let mut out = Vec::new(alloc);
    let mut points_left = points.as_slice();
    let mut spans_left = within.as_slice();
    'cut: while let (Some(point), Some(span)) = (first(points_left), first(spans_left)) {
        if span.until < point {
            spans_left = rest(spans_left);
        } else {
            if span.after < point {
                out.push(point)?;
            }
            points_left = rest(points_left);
        }
    }
    Ok(Points::of(alloc, out))
}
