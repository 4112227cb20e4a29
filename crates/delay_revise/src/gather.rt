// The points at which the bodies of rules are true.
ghost use Rattle.std.specs.Prelude.{◌≡◌, ◌≤◌, ◌<◌, ◌+◌, ◌-◌, ◌*◌, ◌^◌, ◌==◌, ◌||◌, ℕ, [], nat_lt};
ghost use Rattle.std.specs.Prelude.{true, length, replicate, slice_index_or, IfOk, OnOk, OnErr};
ghost use Rattle.std.specs.List.{list_all, list_any, AllByRecursion};
ghost use Rattle.ground_types.specs.Members.{contains};
ghost use Rattle.ground_types.specs.Inertia.{values_with};
ghost use Rattle.ground_types.specs.Recognition.{values_of};
ghost use Rattle.ground_types.specs.Rows.{points};
ghost use Rattle.ground_types.specs.Truth.{happens, body_holds};
ghost use Rattle.span_algebra.specs.Normal.{IsRising};
ghost use Rattle.simple_fluent.specs.Rows.{IsInside};
ghost use Rattle.point_rule.specs.Known.{known, HasRows};
ghost use Rattle.delay_revise.specs.Working.{triggers_of, touched_of};

use derived_event::derived_points;
use event_store::EventStore;
use ground_types::{Point, Rule};
use layer_cache::Cache;
use point_rule::{revise_rule, touched, triggered};
use rt_base::{OutOfMemory, Steps};
use span_algebra::Points;
use std::alloc::Global;
use std::marker::Model;
use std::sync::ledger::Ledger;

// At how many points of the window the bodies of rules have to be looked at, after a query that
// ended at `before`, where there was one.
pub(crate) fn count_touched(
    alloc: Global,
    rules: &[Rule],
    cache: &Cache,
    store: &EventStore,
    before: Option<Point>,
    w: Point,
    q: Point,
) -> Result<u64, OutOfMemory>
    requires rows { AllByRecursion (HasRows cache.now.rows) rules.now }
    requires old_rows { AllByRecursion (HasRows cache.now.before) rules.now }
    requires few { length rules.now ≤ 262144 }
    requires width { q - w ≤ 1000000000000 }
    requires end { q < 2 ^ 64 - 1 }
    ensures count { IfOk result (λ count. count ≡ touched_of before cache.now store.now rules.now w
        q) }
    ensures most { IfOk result (λ count. count ≤ length rules.now * 1000000000000) }
{
    let mut count = 0;
    for rule in rules {
        let at = touched(alloc, rule, cache, store, before, w, q)?;
        count += at.as_slice().len() as u64;
    }
    Ok(count)
}

// Whether no trigger of some rules occurs in the window. One look-up for each rule.
pub(crate) fn are_quiet(
    alloc: Global,
    rules: &[Rule],
    cache: &Cache,
    store: &EventStore,
    w: Point,
    q: Point,
) -> Result<bool, OutOfMemory>
    requires rows { AllByRecursion (HasRows cache.now.rows) rules.now }
    ensures { IfOk result (λ quiet. quiet ≡ (triggers_of (known cache.now.rows store.now) rules.now
        w q == 0)) }
{
    for rule in rules {
        if !triggered(alloc, rule, cache, store, w, q)?
            .as_slice()
            .is_empty()
        {
            return Ok(false);
        }
    }
    Ok(true)
}

// How much lists of points may take beside twice what they took when they were last joined.
const ROOM: usize = 1024;

// The points of rules of one unit or value, as lists. They are joined now and then, so that a point
// that many rules have is not kept for each of them. Contracts see the lists.
#[derive(Drop)]
struct Parts {
    lists: Vec<Points>,
    // What the lists take: each as many as its points, and one more.
    size: usize,
    // What they take at most before they are joined.
    most: usize,
}

impl Model for Parts {
    ghost use Rattle.std.specs.Prelude.{List, ℕ};

    ghost Value = { List (List ℕ) };

    ghost view = { λ parts. parts.lists.items };
}

impl Parts {
    // No points.
    fn new(alloc: Global) -> Parts
        ensures { result ≡ [] }
    {
        Parts {
            lists: Vec::new(alloc),
            size: 0,
            most: ROOM,
        }
    }

    // The points that some list has, each once.
    fn points(&self, alloc: Global) -> Result<Points, OutOfMemory>
        ensures rises { IfOk result (λ found. IsRising found) }
        ensures points { IfOk result (λ found. (t : ℕ) → contains found t
            ≡ list_any (λ points. contains points t) self.now) }
    {
        derived_points(alloc, &self.lists)
    }

    // Makes one list of all.
    fn join(&mut self, alloc: Global) -> Result<(), OutOfMemory>
        ensures { OnOk result ((t : ℕ) → list_any (λ points. contains points t) self.new
            ≡ list_any (λ points. contains points t) self.old) }
    {
        let points = self.points(alloc)?;
        let size = points.as_slice().len().saturating_add(1);
        self.lists = vec![in alloc; points]?;
        self.size = size;
        self.most = size.saturating_mul(2).saturating_add(ROOM);
        Ok(())
    }

    // Adds the points of one more rule, and joins the lists where they take too much.
    fn push(&mut self, alloc: Global, points: Points) -> Result<(), OutOfMemory>
        ensures { OnOk result ((t : ℕ) → list_any (λ points. contains points t) self.new
            ≡ (list_any (λ points. contains points t) self.old || contains points t)) }
    {
        let more = points.as_slice().len().saturating_add(1);
        self.lists.push(points)?;
        self.size = self.size.saturating_add(more);
        if self.size <= self.most {
            return Ok(());
        }
        self.join(alloc)
    }

    // Adds the points of the window at which the body of one more rule is true.
    fn push_rule<L: Ledger>(
        &mut self,
        alloc: Global,
        rule: &Rule,
        cache: &Cache,
        store: &EventStore,
        w: Point,
        q: Point,
        steps: &mut Steps<L>,
    ) -> Result<(), OutOfMemory>
        requires rows { HasRows cache.now.rows rule.now }
        requires end { q < 2 ^ 64 - 1 }
        ensures points { OnOk result ((t : ℕ) → list_any (λ points. contains points t) self.new
            ≡ (list_any (λ points. contains points t) self.old
            || contains (points (body_holds (known cache.now.rows store.now) rule.now) w q) t)) }
        ensures steps { OnOk result (steps.new ≡ record {
          count = steps.old.count + length (points (happens (known cache.now.rows store.now)
              rule.now.trigger) w q);
          out = steps.old.out;
        }) }
        ensures most { OnErr result (steps.new.count ≤ steps.old.count + length
            (points (happens (known cache.now.rows store.now) rule.now.trigger) w q)) }
        ensures parts { steps.new.out ≡ steps.old.out }
    {
        let none = Points::new(alloc);
        let points = revise_rule(alloc, rule, &none, cache, store, None, w, q, steps)?;
        self.push(alloc, points)
    }
}

// The points of the window at which the body of some rule is true. The time is about that of
// sorting the points of all rules. The memory is within a constant factor of that of these points
// and of those of one rule, beside at most `ROOM`.
pub(crate) fn points_of_rules<L: Ledger>(
    alloc: Global,
    rules: &[Rule],
    cache: &Cache,
    store: &EventStore,
    w: Point,
    q: Point,
    steps: &mut Steps<L>,
) -> Result<Points, OutOfMemory>
    requires rows { AllByRecursion (HasRows cache.now.rows) rules.now }
    requires end { q < 2 ^ 64 - 1 }
    ensures rises { IfOk result (λ found. IsRising found) }
    ensures points { IfOk result (λ found. (t : ℕ) → contains found t
        ≡ list_any (λ rule. contains (points (body_holds (known cache.now.rows store.now) rule) w
        q) t) rules.now) }
    ensures steps { OnOk result (steps.new ≡ record {
      count = steps.old.count + triggers_of (known cache.now.rows store.now) rules.now w q;
      out = steps.old.out;
    }) }
    ensures most { OnErr result (steps.new.count ≤ steps.old.count + triggers_of
        (known cache.now.rows store.now) rules.now w q) }
    ensures parts { steps.new.out ≡ steps.old.out }
{
    let mut parts = Parts::new(alloc);
    for rule in rules {
        parts.push_rule(alloc, rule, cache, store, w, q, steps)?;
    }
    parts.points(alloc)
}

// For so many values no points.
fn no_parts(alloc: Global, count: usize) -> Result<Vec<Parts>, OutOfMemory>
    ensures { IfOk result (λ parts. parts.items ≡ replicate count []) }
{
    let mut parts = Vec::with_capacity(alloc, count)?;
    for _turn in 0..count {
        parts.push(Parts::new(alloc))?;
    }
    Ok(parts)
}

// The points of each value, each once.
fn joined(alloc: Global, parts: &[Parts]) -> Result<Vec<Points>, OutOfMemory>
    ensures count { IfOk result (λ found. length found.items ≡ length parts.now) }
    ensures points { IfOk result (λ found. (v t : ℕ) →
        contains (slice_index_or found.items v []) t ≡ list_any (λ points. contains points t)
        (slice_index_or parts.now v [])) }
{
    let mut found = Vec::with_capacity(alloc, parts.len())?;
    for part in parts {
        found.push(part.points(alloc)?)?;
    }
    Ok(found)
}

// For each of so many values the points of the window at which the body of one of its rules is
// true. The time is about that of sorting the points of all rules. The memory is within a constant
// factor of that of the points of all values and of one rule, beside at most `ROOM` for each
// value.
pub(crate) fn points_by_value<L: Ledger>(
    alloc: Global,
    rules: &[Rule],
    count: usize,
    cache: &Cache,
    store: &EventStore,
    w: Point,
    q: Point,
    steps: &mut Steps<L>,
) -> Result<Vec<Points>, OutOfMemory>
    requires values { list_all (λ rule. nat_lt rule.value count) rules.now ≡ true }
    requires rows { AllByRecursion (HasRows cache.now.rows) rules.now }
    requires end { q < 2 ^ 64 - 1 }
    ensures count { IfOk result (λ found. length found.items ≡ count) }
    ensures inside { IfOk result (λ found. AllByRecursion (IsInside w q) found.items) }
    ensures points { IfOk result (λ found. (v t : ℕ) → w < t → t ≤ q →
        contains (values_with 0 found.items t) v
        ≡ contains (values_of (known cache.now.rows store.now) rules.now t) v) }
    ensures steps { OnOk result (steps.new ≡ record {
      count = steps.old.count + triggers_of (known cache.now.rows store.now) rules.now w q;
      out = steps.old.out;
    }) }
    ensures most { OnErr result (steps.new.count ≤ steps.old.count + triggers_of
        (known cache.now.rows store.now) rules.now w q) }
    ensures parts { steps.new.out ≡ steps.old.out }
{
    let mut parts = no_parts(alloc, count)?;
    for rule in rules {
        parts[rule.value as usize].push_rule(alloc, rule, cache, store, w, q, steps)?;
    }
    joined(alloc, &parts)
}
