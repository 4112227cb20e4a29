// Lists of spans on a walk over their borders, in the order of the borders that come next.
ghost use Rattle.std.specs.Prelude.{◌≡◌, false, refl, nat_eq, Some, None, [], IfSome, IfNone};
ghost use Rattle.std.specs.Ordering.{nat_cmp, on, flip_args, as_partial_cmp};
ghost use Rattle.std.specs.Cmp.{partial_order_from_own_ties};
ghost use Rattle.std.specs.Cmp.Rules.{comparing};
ghost use Rattle.std.proofs.Common.{rules};
ghost use Rattle.span_algebra.specs.Walk.{borders_of, front_of, after_front, IsPast};

use crate::{Point, Span};
use std::cmp::Ordering;

// A list is wanted at a point or barred from it.
#[derive(Clone, Copy)]
pub(crate) enum Side {
    Wanted,
    Barred,
}

// A list with borders left: the next border, whether the list holds up to it, and the spans from
// the one of this border on.
#[derive(Clone, Copy)]
pub(crate) struct Cursor<'a> {
    pub(crate) at: Point,
    pub(crate) inside: bool,
    pub(crate) left: &'a [Span],
    pub(crate) side: Side,
}

impl PartialEq for Cursor<'_> {
    ghost eq = { on (λ c. c.at) nat_eq };

    ghost laws = { Prim.search (comparing, rules) };

    fn eq(&self, other: &Self) -> bool {
        self.at == other.at
    }
}

impl Eq for Cursor<'_> {
    ghost laws = { Prim.search (comparing, rules) };
}

impl PartialOrd for Cursor<'_> {
    ghost partial_cmp = { as_partial_cmp (on (λ c. c.at) (flip_args nat_cmp)) };

    ghost laws = { partial_order_from_own_ties (Prim.search (comparing, rules))
        (Prim.search (comparing, rules)) };

    fn partial_cmp(&self, other: &Self) -> Option<Ordering> {
        Some(self.cmp(other))
    }
}

// The least border comes out of a heap first.
impl Ord for Cursor<'_> {
    ghost cmp = { on (λ c. c.at) (flip_args nat_cmp) };

    ghost total = { Prim.search (comparing, rules) };

    ghost matches_partial_cmp = { λ x y. refl };

    ghost matches_eq = { Prim.search (comparing, rules) };

    fn cmp(&self, other: &Self) -> Ordering {
        other.at.cmp(&self.at)
    }
}

impl<'a> Cursor<'a> {
    // Before the first border of a list, if it has one.
    #[inline]
    pub(crate) fn before(side: Side, spans: &'a [Span]) -> Option<Cursor<'a>>
        ensures some { IfSome result (λ c. (front_of (borders_of c) ≡ Some c.at)
            × (c.inside ≡ false) × (c.left.now ≡ spans.now) × (c.side ≡ side)) }
        ensures none { IfNone result (spans.now ≡ []) }
    {
        let [first, ..] = spans else {
            return None;
        };
        Some(Cursor {
            at: first.after,
            inside: false,
            left: spans,
            side,
        })
    }

    // Past its border, if it has another.
    #[inline]
    pub(crate) fn past(self) -> Option<Cursor<'a>>
        ensures some { IfSome result (λ c. IsPast self.entry c) }
        ensures none { IfNone result (after_front (borders_of self.entry) ≡ []) }
    {
        match (self.inside, self.left) {
            (_, []) => None,
            (false, [span, ..]) => Some(Cursor {
                at: span.until,
                inside: true,
                ..self
            }),
            (true, [_, rest @ ..]) => Cursor::before(self.side, rest),
        }
    }
}
