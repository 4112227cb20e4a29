// The points at which a body has to be looked at.
ghost use Rattle.std.specs.Prelude.{◌≡◌, ◌<◌, ◌-◌, ◌^◌, ◌&&◌, nat_lt, true, length, filter, Some};
ghost use Rattle.std.specs.Prelude.{All, IfOk};
ghost use Rattle.std.specs.List.{list_all, list_any};
ghost use Rattle.ground_types.specs.Meaning.{units_of_what};
ghost use Rattle.ground_types.specs.Truth.{happens, condition_holds};
ghost use Rattle.ground_types.specs.Touched.{differs, is_changed};
ghost use Rattle.ground_types.specs.Rows.{points};
ghost use Rattle.span_algebra.specs.Normal.{IsRising, has};
ghost use Rattle.point_rule.specs.Known.{known, known_before, HasRows, is_open};

use crate::eval::{condition_holds, happens, row_of};
use crate::side::Side;
use derived_event::{ends, starts};
use event_store::EventStore;
use ground_types::{Cond, Point, Rule, Trigger};
use layer_cache::Cache;
use rt_base::OutOfMemory;
use span_algebra::{Points, UnitRows};
use std::alloc::Global;

// Those of a list that lie in the window. Two searches by halves and a copy.
fn inside(alloc: Global, list: &Points, w: Point, q: Point) -> Result<Points, OutOfMemory>
    ensures { IfOk result (λ found. found ≡ points (has list.now) w q) }
{
    let found = Vec::from_slice(alloc, list.within(w, q))?;
    Ok(Points::of(alloc, found))
}

/// The points of the window `(w, q]` at which a rule's trigger occurs, in order. The units that the
/// rule names have to have rows in the cache. Two searches by halves and a copy, or one pass over a
/// fluent's spans; no memory where there is no such point. The one error is want of memory.
pub fn triggered(
    alloc: Global,
    rule: &Rule,
    cache: &Cache,
    store: &EventStore,
    w: Point,
    q: Point,
) -> Result<Points, OutOfMemory>
    requires rows { HasRows cache.now.rows rule.now }
    ensures { IfOk result (λ found. found ≡ points (happens (known cache.now.rows store.now)
        rule.now.trigger) w q) }
{
    match rule.trigger {
        Trigger::Event(event) => inside(alloc, store.points(event), w, q),
        Trigger::Derived(unit) => match cache.row(unit) {
            UnitRows::Event(points) => inside(alloc, points, w, q),
            UnitRows::Fluent(_) => Ok(Points::new(alloc)),
        },
        Trigger::Start(unit, value) => match row_of(Side::Now, cache, unit, value) {
            Some(row) => starts(alloc, row, w, q),
            None => Ok(Points::new(alloc)),
        },
        Trigger::End(unit, value) => match row_of(Side::Now, cache, unit, value) {
            Some(row) => ends(alloc, row, w, q),
            None => Ok(Points::new(alloc)),
        },
    }
}

// Whether one of some conditions had another truth at a point in the query before.
fn conditions_differ(cache: &Cache, store: &EventStore, conds: &[Cond], at: Point) -> bool
    requires units { list_all (λ cond. list_all (λ unit. nat_lt unit (length cache.now.rows))
        (units_of_what cond.what)) conds.now ≡ true }
    requires old_units { list_all (λ cond. list_all (λ unit. nat_lt unit (length cache.now.before))
        (units_of_what cond.what)) conds.now ≡ true }
    requires end { at < 2 ^ 64 - 1 }
    ensures { result ≡ list_any (λ cond.
        differs (condition_holds (known_before cache.now store.now) cond at)
        (condition_holds (known cache.now.rows store.now) cond at)) conds.now }
{
    for cond in conds {
        let before = condition_holds(Side::Before, cache, store, cond, at);
        if before != condition_holds(Side::Now, cache, store, cond, at) {
            return true;
        }
    }
    false
}

// Whether the trigger of a rule or one of its conditions had another truth at a point in the query
// before.
fn is_changed(rule: &Rule, cache: &Cache, store: &EventStore, at: Point) -> bool
    requires rows { HasRows cache.now.rows rule.now }
    requires old_rows { HasRows cache.now.before rule.now }
    requires end { at < 2 ^ 64 - 1 }
    ensures { result ≡ is_changed (known_before cache.now store.now)
        (known cache.now.rows store.now) rule.now at }
{
    let before = happens(Side::Before, cache, store, rule.trigger, at);
    before != happens(Side::Now, cache, store, rule.trigger, at)
        || conditions_differ(cache, store, rule.conds.as_slice(), at)
}

// Those of some points that the query before, which ended at `before`, does not settle.
fn open_among(
    alloc: Global,
    at: &[Point],
    rule: &Rule,
    cache: &Cache,
    store: &EventStore,
    before: Point,
) -> Result<Points, OutOfMemory>
    requires rising { IsRising at.now }
    requires rows { HasRows cache.now.rows rule.now }
    requires old_rows { HasRows cache.now.before rule.now }
    requires end { All (λ point. point < 2 ^ 64 - 1) at.now }
    ensures { IfOk result (λ found. found ≡ filter (is_open (Some before) cache.now store.now
        rule.now) at.now) }
{
    let mut found = Vec::new(alloc);
    for point in at {
        if *point > before || is_changed(rule, cache, store, *point) {
            found.push(*point)?;
        }
    }
    Ok(Points::of(alloc, found))
}

/// The points of the window `(w, q]` at which a rule's trigger occurs, and which are open, in
/// order: `before` is None, or the point is past it, or the trigger or a condition has another
/// truth over the old rows of the cache and the events that stood when the store was settled last.
/// The units that the rule names have to have rows in the cache, old ones too, and `q` is below the
/// greatest number. Two searches by halves and a copy, or one pass over a fluent's spans, and for
/// each point up to `before` some searches by halves for each condition. The one error is want of
/// memory. After the Run-Time Event Calculus, which looks at rules where something happened; the
/// touched points are our own.
pub fn touched(
    alloc: Global,
    rule: &Rule,
    cache: &Cache,
    store: &EventStore,
    before: Option<Point>,
    w: Point,
    q: Point,
) -> Result<Points, OutOfMemory>
    requires rows { HasRows cache.now.rows rule.now }
    requires old_rows { HasRows cache.now.before rule.now }
    requires end { q < 2 ^ 64 - 1 }
    ensures { IfOk result (λ found. found ≡
        points (λ t. happens (known cache.now.rows store.now) rule.now.trigger t && is_open before
        cache.now store.now rule.now t) w q) }
{
    let found = triggered(alloc, rule, cache, store, w, q)?;
    match before {
        Some(before) => open_among(alloc, found.as_slice(), rule, cache, store, before),
        None => Ok(found),
    }
}
