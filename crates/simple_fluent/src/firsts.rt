// The points at which some value is initiated, each with the value that counts there.
ghost use Rattle.std.specs.Prelude.{◌≡◌, ℕ, ◌<◌, ◌+◌, ◌^◌, length, map, IfOk};
ghost use Rattle.simple_fluent.specs.Firsts.{least_with, RisesFrom, value_in, or_else, first_of};
ghost use Rattle.simple_fluent.specs.Firsts.{earlier, past_first};

use ground_types::Point;
use rt_base::OutOfMemory;
use span_algebra::Points;
use std::alloc::{AllocError, Global};

// A point, and the first value that is initiated there.
#[derive(Clone, Copy)]
pub(crate) struct First {
    pub(crate) at: Point,
    pub(crate) value: usize,
}

// The front of a list.
#[inline]
fn first_of(firsts: &[First]) -> Option<First>
    ensures { result ≡ first_of firsts.now }
{
    match firsts {
        [] => None,
        [first, ..] => Some(*first),
    }
}

// The list without the point at its front.
#[inline]
pub(crate) fn rest_firsts(firsts: &[First], at: Point) -> &[First]
    ensures { result.now ≡ past_first firsts.now at }
{
    match firsts {
        [first, rest @ ..] if first.at == at => rest,
        _ => firsts,
    }
}

// The earlier of two, and at one point the one that counts first.
#[inline]
fn earlier_of(one: Option<First>, two: Option<First>) -> Option<First>
    ensures { result ≡ earlier one two }
{
    match (one, two) {
        (None, two) => two,
        (Some(one), None) => Some(one),
        (Some(one), Some(two)) => {
            if one.at <= two.at {
                Some(one)
            } else {
                Some(two)
            }
        }
    }
}

// Both lists in one, where at a point of both the first list counts.
fn merge(alloc: Global, one: &[First], two: &[First]) -> Result<Vec<First>, OutOfMemory>
    requires one { RisesFrom 0 one.now }
    requires two { RisesFrom 0 two.now }
    ensures rises { IfOk result (λ out. RisesFrom 0 out.items) }
    ensures each { IfOk result (λ out. (t : ℕ) → value_in out.items t
        ≡ or_else (value_in one.now t) (value_in two.now t)) }
{
    let mut out = Vec::with_capacity(alloc, one.len())?;
    let mut one_left = one;
    let mut two_left = two;
    'merge: while let Some(first) = earlier_of(first_of(one_left), first_of(two_left)) {
        out.push(first)?;
        one_left = rest_firsts(one_left, first.at);
        two_left = rest_firsts(two_left, first.at);
    }
    Ok(out)
}

// The points of one value.
fn of_one(alloc: Global, points: &[Point], value: usize) -> Result<Vec<First>, AllocError>
    ensures { IfOk result (λ out. out.items ≡ map (λ p. record { at = p; value = value })
        points.now) }
{
    points
        .iter()
        .map(|at| First { at: *at, value })
        .collect(alloc)
}

// The points of all values, counted from this one on. They are merged by halves.
pub(crate) fn gather(
    alloc: Global,
    inits: &[Points],
    from: usize,
) -> Result<Vec<First>, OutOfMemory>
    requires { from + length inits.now < 2 ^ 64 }
    ensures rises { IfOk result (λ out. RisesFrom 0 out.items) }
    ensures each { IfOk result (λ out. (t : ℕ) → value_in out.items t ≡ least_with from inits.now
        t) }
{
    match inits {
        [] => Ok(Vec::new(alloc)),
        [one] => {
            let out = of_one(alloc, one.as_slice(), from)?;
            Ok(out)
        }
        _ => {
            let half = inits.len() / 2;
            let one = gather(alloc, &inits[..half], from)?;
            let two = gather(alloc, &inits[half..], from + half)?;
            let out = merge(alloc, &one, &two)?;
            Ok(out)
        }
    }
}
