// The points of a window at which a body is true.
ghost use Rattle.std.specs.Prelude.{◌≡◌, ◌≤◌, ◌<◌, ◌+◌, ◌-◌, ◌^◌, [], length, filter, None, All};
ghost use Rattle.std.specs.Prelude.{IfOk, OnOk, OnErr};
ghost use Rattle.ground_types.specs.Truth.{happens, body_holds};
ghost use Rattle.ground_types.specs.Rows.{points};
ghost use Rattle.span_algebra.specs.Normal.{IsRising};
ghost use Rattle.point_rule.specs.Known.{known, HasRows};

use crate::eval::eval_at;
use crate::touch::triggered;
use event_store::EventStore;
use ground_types::{Point, Rule};
use layer_cache::Cache;
use rt_base::{OutOfMemory, Steps};
use span_algebra::Points;
use std::alloc::Global;
use std::sync::ledger::Ledger;

// Those of some points at which a body is true. Each of the points is a step.
fn true_among<L: Ledger>(
    alloc: Global,
    at: &[Point],
    rule: &Rule,
    cache: &Cache,
    store: &EventStore,
    steps: &mut Steps<L>,
) -> Result<Points, OutOfMemory>
    requires rising { IsRising at.now }
    requires rows { HasRows cache.now.rows rule.now }
    requires end { All (λ point. point < 2 ^ 64 - 1) at.now }
    ensures found { IfOk result (λ found. found
        ≡ filter (body_holds (known cache.now.rows store.now) rule.now) at.now) }
    ensures steps { OnOk result (steps.new ≡ record {
      count = steps.old.count + length at.now;
      out = steps.old.out;
    }) }
    ensures most { OnErr result (steps.new.count ≤ steps.old.count + length at.now) }
    ensures parts { steps.new.out ≡ steps.old.out }
{
    let mut found = Vec::new(alloc);
    for point in at {
        if eval_at(rule, cache, store, *point, steps) {
            found.push(*point)?;
        }
    }
    Ok(Points::of(alloc, found))
}

/// The points of the window `(w, q]` at which a rule's body is true, in order. So far `before` has
/// to be None and `old` empty. The units that the rule names have to have rows in the cache, and
/// `q` is below the greatest number. Ok adds a step for each point of the window at which the
/// rule's trigger occurs, a refusal at most as many.
pub fn revise_rule<L: Ledger>(
    alloc: Global,
    rule: &Rule,
    _old: &Points,
    cache: &Cache,
    store: &EventStore,
    _before: Option<Point>,
    w: Point,
    q: Point,
    steps: &mut Steps<L>,
) -> Result<Points, OutOfMemory>
    requires before { _before ≡ None }
    requires old { _old.now ≡ [] }
    requires rows { HasRows cache.now.rows rule.now }
    requires end { q < 2 ^ 64 - 1 }
    ensures found { IfOk result (λ found. found
        ≡ points (body_holds (known cache.now.rows store.now) rule.now) w q) }
    ensures steps { OnOk result (steps.new ≡ record {
      count = steps.old.count + length (points (happens (known cache.now.rows store.now)
          rule.now.trigger) w q);
      out = steps.old.out;
    }) }
    ensures most { OnErr result (steps.new.count ≤ steps.old.count + length
        (points (happens (known cache.now.rows store.now) rule.now.trigger) w q)) }
    ensures parts { steps.new.out ≡ steps.old.out }
{
    let at = triggered(alloc, rule, cache, store, w, q)?;
    true_among(alloc, at.as_slice(), rule, cache, store, steps)
}
