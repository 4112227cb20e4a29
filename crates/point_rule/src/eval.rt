// The truth of a body at a point.
ghost use Rattle.std.specs.Prelude.{◌≡◌, ◌<◌, ◌+◌, ◌-◌, ◌^◌, nat_lt, ℕ, true, false, length};
ghost use Rattle.std.specs.Prelude.{slice_get, IfSome, IfNone};
ghost use Rattle.std.specs.List.{list_all};
ghost use Rattle.ground_types.specs.Truth.{happens, condition_holds, body_holds};
ghost use Rattle.ground_types.specs.Meaning.{units_of_trigger, units_of_what};
ghost use Rattle.span_algebra.specs.Normal.{covers};
ghost use Rattle.point_rule.specs.Known.{known, HasRows};
ghost use Rattle.point_rule.specs.Sides.{rows_on, known_on};
ghost use Rattle.layer_cache.specs.Told.{event_has, fluent_has};

use crate::side::Side;
use event_store::EventStore;
use ground_types::{Cond, Point, Rule, Trigger, UnitId, Value, What};
use layer_cache::{Cache, value_row};
use rt_base::Steps;
use span_algebra::{Spans, UnitRows};
use std::sync::ledger::Ledger;

// Whether a derived event occurs at a point. One search by halves.
fn occurs(side: Side, cache: &Cache, unit: UnitId, at: Point) -> bool
    requires { unit < length (rows_on side cache.now) }
    ensures { result ≡ event_has (slice_get (rows_on side cache.now) unit) at }
{
    match side.rows(cache, unit) {
        UnitRows::Event(points) => points.has(at),
        UnitRows::Fluent(_) => false,
    }
}

// The row of a fluent's value; None where there is none.
pub(crate) fn row_of(side: Side, cache: &Cache, unit: UnitId, value: Value) -> Option<&Spans>
    requires { unit < length (rows_on side cache.now) }
    ensures some { IfSome result (λ row. (t : ℕ)
        → fluent_has (slice_get (rows_on side cache.now) unit) value t ≡ covers row.now t) }
    ensures none { IfNone result ((t : ℕ) → fluent_has (slice_get (rows_on side cache.now) unit)
        value t ≡ false) }
{
    value_row(side.rows(cache, unit), value)
}

// Whether a fluent has a value at a point. One search by halves.
fn holds(side: Side, cache: &Cache, unit: UnitId, value: Value, at: Point) -> bool
    requires { unit < length (rows_on side cache.now) }
    ensures { result ≡ fluent_has (slice_get (rows_on side cache.now) unit) value at }
{
    match row_of(side, cache, unit, value) {
        Some(row) => row.holds(at),
        None => false,
    }
}

// Whether a trigger occurs at a point.
pub(crate) fn happens(
    side: Side,
    cache: &Cache,
    store: &EventStore,
    trigger: Trigger,
    at: Point,
) -> bool
    requires units { list_all (λ unit. nat_lt unit (length (rows_on side cache.now)))
        (units_of_trigger trigger) ≡ true }
    requires end { at < 2 ^ 64 - 1 }
    ensures { result ≡ happens (known_on side cache.now store.now) trigger at }
{
    match trigger {
        Trigger::Event(event) => side.has(store, event, at),
        Trigger::Derived(unit) => occurs(side, cache, unit, at),
        Trigger::Start(unit, value) => {
            !holds(side, cache, unit, value, at) && holds(side, cache, unit, value, at + 1)
        }
        Trigger::End(unit, value) => {
            holds(side, cache, unit, value, at) && !holds(side, cache, unit, value, at + 1)
        }
    }
}

// Whether a condition is true at a point.
pub(crate) fn condition_holds(
    side: Side,
    cache: &Cache,
    store: &EventStore,
    cond: &Cond,
    at: Point,
) -> bool
    requires units { list_all (λ unit. nat_lt unit (length (rows_on side cache.now)))
        (units_of_what cond.now.what) ≡ true }
    requires end { at < 2 ^ 64 - 1 }
    ensures { result ≡ condition_holds (known_on side cache.now store.now) cond.now at }
{
    let is_so = match cond.what {
        What::Happens(trigger) => happens(side, cache, store, trigger, at),
        What::Holds(unit, value) => holds(side, cache, unit, value, at),
    };
    is_so == cond.positive
}

// Whether all of some conditions are true at a point.
fn conditions_hold(cache: &Cache, store: &EventStore, conds: &[Cond], at: Point) -> bool
    requires units { list_all (λ cond. list_all (λ unit. nat_lt unit (length cache.now.rows))
        (units_of_what cond.what)) conds.now ≡ true }
    requires end { at < 2 ^ 64 - 1 }
    ensures { result ≡ list_all (λ cond. condition_holds (known cache.now.rows store.now) cond at)
        conds.now }
{
    for cond in conds {
        if !condition_holds(Side::Now, cache, store, cond, at) {
            return false;
        }
    }
    true
}

/// The truth of a rule's body at an event point: its first condition and all the others, over the
/// rows of the cache and the events of the store. The units that the rule names have to have rows
/// in the cache. A search by halves for each condition; it takes no memory, and adds one step.
pub fn eval_at<L: Ledger>(
    rule: &Rule,
    cache: &Cache,
    store: &EventStore,
    at: Point,
    steps: &mut Steps<L>,
) -> bool
    requires rows { HasRows cache.now.rows rule.now }
    requires end { at < 2 ^ 64 - 1 }
    ensures truth { result ≡ body_holds (known cache.now.rows store.now) rule.now at }
    ensures step { steps.new ≡ record { count = steps.old.count + 1; out = steps.old.out } }
{
    steps.tick();
    happens(Side::Now, cache, store, rule.trigger, at)
        && conditions_hold(cache, store, rule.conds.as_slice(), at)
}
