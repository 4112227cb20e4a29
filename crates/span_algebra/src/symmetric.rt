// Points that two lists do not share.
ghost use Rattle.std.specs.Prelude.{◌≡◌, ◌++◌, ◌∷◌, [], ℕ, if◌then◌else◌, IfOk, OnOk};
ghost use Rattle.rt_base.specs.Truths.{differs};
ghost use Rattle.span_algebra.specs.Normal.{has};
ghost use Rattle.span_algebra.specs.Walk.{front_of};
ghost use Rattle.span_algebra.specs.Merge.{lower, begins, past};

use crate::Points;
use rt_base::{OutOfMemory, Point};
use std::alloc::Global;

// The first of some points.
#[inline]
fn first(points: &[Point]) -> Option<Point>
    ensures { result ≡ front_of points.now }
{
    match points {
        [] => None,
        [point, ..] => Some(*point),
    }
}

// The lower of two points that may be missing.
#[inline]
fn lower(one: Option<Point>, two: Option<Point>) -> Option<Point>
    ensures { result ≡ lower one two }
{
    match (one, two) {
        (None, two) => two,
        (Some(one), None) => Some(one),
        (Some(one), Some(two)) => { if one <= two { Some(one) } else { Some(two) } }
    }
}

// Whether this point is the first.
#[inline]
fn begins(points: &[Point], at: Point) -> bool
    ensures { result ≡ begins points.now at }
{
    match points {
        [] => false,
        [point, ..] => *point == at,
    }
}

// Whether this point is the first of one list alone.
#[inline]
fn begins_one(one: &[Point], two: &[Point], at: Point) -> bool
    ensures { result ≡ differs (begins one.now at) (begins two.now at) }
{
    if begins(one, at) {
        !begins(two, at)
    } else {
        begins(two, at)
    }
}

// The points after this one, where it is the first.
#[inline]
fn past(points: &[Point], at: Point) -> &[Point]
    ensures { result.now ≡ past points.now at }
{
    match points {
        [point, rest @ ..] if *point == at => rest,
        _ => points,
    }
}

// Puts a point behind the others, where it is wanted.
#[inline]
fn push_if(out: &mut Vec<Point>, at: Point, wanted: bool) -> Result<(), OutOfMemory>
    ensures { OnOk result (out.new.items
        ≡ out.old.items ++ (if wanted then at ∷ [] else [])) }
{
    if wanted {
        out.push(at)?;
    }
    Ok(())
}

/// The points that are in one of two lists and not in the other. One walk over both; the room for
/// all their points is taken at once. The one error is want of memory.
pub fn symmetric_difference(
    alloc: Global,
    one: &Points,
    two: &Points,
) -> Result<Points, OutOfMemory>
    ensures { IfOk result (λ out. (t : ℕ) → has out t ≡ differs (has one.now t) (has two.now t)) }
{
    let mut one_left = one.as_slice();
    let mut two_left = two.as_slice();
    let mut out = Vec::with_capacity(alloc, one_left.len().saturating_add(two_left.len()))?;
    'merge: while let Some(at) = lower(first(one_left), first(two_left)) {
        push_if(&mut out, at, begins_one(one_left, two_left, at))?;
        one_left = past(one_left, at);
        two_left = past(two_left, at);
    }
    Ok(Points::of(alloc, out))
}
