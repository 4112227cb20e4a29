// What is made of one unit over a window.
ghost use Rattle.std.specs.Prelude.{◌≡◌, ◌≤◌, ◌<◌, ◌+◌, ◌-◌, ◌*◌, ◌^◌, true, false, length, None};
ghost use Rattle.std.specs.Prelude.{IsTrue, IfOk, OnOk, OnErr};
ghost use Rattle.std.specs.List.{AllByRecursion};
ghost use Rattle.ground_types.specs.Sound.{unit_values, kind_fits, rule_count};
ghost use Rattle.ground_types.specs.Touched.{rules_of};
ghost use Rattle.layer_cache.specs.Cached.{unit_shape};
ghost use Rattle.layer_cache.specs.Shapes.{shape};
ghost use Rattle.point_rule.specs.Known.{known, HasRows};
ghost use Rattle.query_ask.specs.Right.{published};
ghost use Rattle.simple_fluent.specs.Rows.{IsValueBelow};
ghost use Rattle.delay_revise.specs.Revising.{rows_or_empty};
ghost use Rattle.delay_revise.specs.Working.{is_static, rows_over, triggers_of, touched_of};
ghost use Rattle.delay_revise.specs.Working.{IsInWindow};

use crate::gather::{are_quiet, count_touched};
use crate::work::rows_of_unit;
use event_store::EventStore;
use ground_types::{Point, Program, Unit, UnitKind, Value};
use layer_cache::Cache;
use rt_base::{OutOfMemory, Steps};
use span_algebra::UnitRows;
use std::alloc::Global;
use std::marker::Model;
use std::sync::ledger::Ledger;

/// What is made of one unit over a window: its rows, and how many evaluations its rules count.
/// Contracts see both; None stands for the empty rows of the unit, for which no list is made.
#[derive(Debug, Drop)]
pub struct Worked {
    pub(crate) rows: Option<UnitRows>,
    pub(crate) evaluations: u64,
}

impl Model for Worked {
    ghost use Rattle.delay_revise.specs.Revising.{Made};

    ghost Value = { Made };

    ghost view = { λ worked. record { rows = worked.rows; evaluations = worked.evaluations } };
}

// Whether a unit has no row for want of points: it has no value at first, and no trigger of its
// rules occurs. Of expressions this says nothing.
fn is_idle(
    alloc: Global,
    kind: &UnitKind,
    opening: Option<Value>,
    cache: &Cache,
    store: &EventStore,
    w: Point,
    q: Point,
) -> Result<bool, OutOfMemory>
    requires rows { AllByRecursion (HasRows cache.now.rows) (rules_of kind.now) }
    ensures { IfOk result (λ idle. IsTrue idle → (is_static kind.now ≡ false) × (opening ≡ None)
        × (triggers_of (known cache.now.rows store.now) (rules_of kind.now) w q ≡ 0)) }
{
    if opening.is_some() {
        return Ok(false);
    }
    match kind {
        UnitKind::Simple {
            initiate,
            terminate,
            ..
        } => Ok(
            are_quiet(alloc, initiate.as_slice(), cache, store, w, q)?
                && are_quiet(alloc, terminate.as_slice(), cache, store, w, q)?,
        ),
        UnitKind::Derived(rules) => are_quiet(alloc, rules.as_slice(), cache, store, w, q),
        UnitKind::Static(_) => Ok(false),
    }
}

// At how many points the bodies of a unit's rules have to be looked at.
fn touched_of_unit(
    alloc: Global,
    kind: &UnitKind,
    cache: &Cache,
    store: &EventStore,
    before: Option<Point>,
    w: Point,
    q: Point,
) -> Result<u64, OutOfMemory>
    requires rows { AllByRecursion (HasRows cache.now.rows) (rules_of kind.now) }
    requires old_rows { AllByRecursion (HasRows cache.now.before) (rules_of kind.now) }
    requires few { rule_count kind.now ≤ 262144 }
    requires width { q - w ≤ 1000000000000 }
    requires end { q < 2 ^ 64 - 1 }
    ensures { IfOk result (λ count. count ≡ touched_of before cache.now store.now
        (rules_of kind.now) w q) }
{
    match kind {
        UnitKind::Simple {
            initiate,
            terminate,
            ..
        } => {
            let initiated = count_touched(alloc, initiate.as_slice(), cache, store, before, w, q)?;
            let terminated = count_touched(
                alloc,
                terminate.as_slice(),
                cache,
                store,
                before,
                w,
                q,
            )?;
            Ok(initiated + terminated)
        }
        UnitKind::Derived(rules) => {
            count_touched(alloc, rules.as_slice(), cache, store, before, w, q)
        }
        UnitKind::Static(_) => Ok(0),
    }
}

// Works a unit over the window `(w, q]`, after a query that ended at `before`, where there was one,
// and from the value with which it opens.
pub(crate) fn work_unit<L: Ledger>(
    alloc: Global,
    program: &Program,
    unit: &Unit,
    opening: Option<Value>,
    cache: &Cache,
    store: &EventStore,
    before: Option<Point>,
    w: Point,
    q: Point,
    steps: &mut Steps<L>,
) -> Result<Worked, OutOfMemory>
    requires fits { kind_fits program.now (unit_values program.now unit.now) unit.now.kind ≡ true }
    requires size { length cache.now.rows ≡ length program.now.units }
    requires inside { IsInWindow w q cache.now.rows }
    requires rows { AllByRecursion (HasRows cache.now.rows) (rules_of unit.now.kind) }
    requires old_rows { AllByRecursion (HasRows cache.now.before) (rules_of unit.now.kind) }
    requires opens { IsValueBelow (unit_values program.now unit.now) opening }
    requires few { rule_count unit.now.kind ≤ 262144 }
    requires window { w < q }
    requires width { q - w ≤ 1000000000000 }
    requires end { q < 2 ^ 64 - 1 }
    ensures rows { IfOk result (λ worked. published (rows_or_empty program.now worked.rows unit.now)
        ≡ rows_over (known cache.now.rows store.now) opening (unit_values program.now unit.now)
        unit.now.kind w q) }
    ensures evaluations { IfOk result (λ worked. worked.evaluations
        ≡ touched_of before cache.now store.now (rules_of unit.now.kind) w q) }
    ensures steps { OnOk result (steps.new ≡ record {
      count = steps.old.count + triggers_of (known cache.now.rows store.now)
          (rules_of unit.now.kind) w q;
      out = steps.old.out;
    }) }
    ensures most { OnErr result (steps.new.count ≤ steps.old.count + triggers_of
        (known cache.now.rows store.now) (rules_of unit.now.kind) w q) }
    ensures parts { steps.new.out ≡ steps.old.out }
{
    let kind = &unit.kind;
    if is_idle(alloc, kind, opening, cache, store, w, q)? {
        return Ok(Worked {
            rows: None,
            evaluations: 0,
        });
    }
    let evaluations = touched_of_unit(alloc, kind, cache, store, before, w, q)?;
    let rows = rows_of_unit(alloc, program, unit, opening, cache, store, w, q, steps)?;
    Ok(Worked {
        rows: Some(rows),
        evaluations,
    })
}
