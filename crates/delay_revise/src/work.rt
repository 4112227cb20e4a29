// The rows of one unit, from the rows of the units that its rules name.
ghost use Rattle.std.specs.Prelude.{◌≡◌, ◌≤◌, ◌<◌, ◌+◌, ◌-◌, ◌^◌, ◌++◌, nat_lt, ℕ, true, map};
ghost use Rattle.std.specs.Prelude.{length};
ghost use Rattle.std.specs.Prelude.{IfOk, OnOk, OnErr};
ghost use Rattle.std.specs.List.{list_all, AllByRecursion};
ghost use Rattle.ground_types.specs.Meaning.{units_of_expr};
ghost use Rattle.ground_types.specs.Publication.{fluent_rows};
ghost use Rattle.ground_types.specs.Rows.{row};
ghost use Rattle.ground_types.specs.Sound.{unit_values, kind_fits};
ghost use Rattle.ground_types.specs.Touched.{rules_of};
ghost use Rattle.ground_types.specs.Truth.{expr_holds};
ghost use Rattle.ground_types.specs.declared.program.UnitKind.TheVariants.{Simple};
ghost use Rattle.layer_cache.specs.Told.{told};
ghost use Rattle.point_rule.specs.Known.{known, HasRows};
ghost use Rattle.simple_fluent.specs.Rows.{pairs, IsValueBelow};
ghost use Rattle.static_fluent.specs.Constructs.{has_members, has_rows};
ghost use Rattle.query_ask.specs.Right.{published};
ghost use Rattle.delay_revise.specs.Working.{rows_over, triggers_of, IsInWindow, IsSimple};

use crate::gather::{points_by_value, points_of_rules};
use event_store::EventStore;
use ground_types::{Expr, Point, Program, Rule, Unit, UnitKind, Value, value_count};
use layer_cache::Cache;
use rt_base::{List, OutOfMemory, Steps};
use simple_fluent::spans_of;
use span_algebra::{Spans, UnitRows};
use static_fluent::spans_of_expr;
use std::alloc::Global;
use std::sync::ledger::Ledger;

// The row of each expression, in their order.
fn rows_of_exprs(alloc: Global, exprs: &[Expr], cache: &Cache) -> Result<Vec<Spans>, OutOfMemory>
    requires rows { list_all (has_rows (length cache.now.rows)) exprs.now ≡ true }
    requires members { list_all has_members exprs.now ≡ true }
    ensures { IfOk result (λ rows. (w q : ℕ) → w ≤ q → IsInWindow w q cache.now.rows →
        map pairs rows.items ≡ map (λ expr. row (expr_holds (told cache.now.rows) expr) w q)
        exprs.now) }
{
    let mut rows = Vec::with_capacity(alloc, exprs.len())?;
    for expr in exprs {
        let row = spans_of_expr(alloc, expr, cache)?;
        rows.push(row)?;
    }
    Ok(rows)
}

// The row of each value of a simple fluent.
fn rows_of_simple<L: Ledger>(
    alloc: Global,
    count: usize,
    opening: Option<Value>,
    initiate: &[Rule],
    terminate: &[Rule],
    cache: &Cache,
    store: &EventStore,
    w: Point,
    q: Point,
    steps: &mut Steps<L>,
) -> Result<Vec<Spans>, OutOfMemory>
    requires simple { IsSimple (HasRows cache.now.rows) count opening initiate.now terminate.now }
    requires window { w < q }
    requires end { q < 2 ^ 64 - 1 }
    ensures rows { IfOk result (λ rows. fluent_rows (map pairs rows.items)
        ≡ rows_over (known cache.now.rows store.now) opening count
        (Simple opening initiate.now terminate.now) w q) }
    ensures steps { OnOk result (steps.new ≡ record {
      count = steps.old.count + triggers_of (known cache.now.rows store.now)
          (initiate.now ++ terminate.now) w q;
      out = steps.old.out;
    }) }
    ensures most { OnErr result (steps.new.count ≤ steps.old.count + triggers_of
        (known cache.now.rows store.now) (initiate.now ++ terminate.now) w q) }
    ensures parts { steps.new.out ≡ steps.old.out }
{
    let inits = points_by_value(alloc, initiate, count, cache, store, w, q, steps)?;
    let terms = points_by_value(alloc, terminate, count, cache, store, w, q, steps)?;
    let rows = spans_of(alloc, opening, &inits, &terms, w, q)?;
    Ok(rows)
}

// The rows of a unit over a window, from the value with which it opens.
pub(crate) fn rows_of_unit<L: Ledger>(
    alloc: Global,
    program: &Program,
    unit: &Unit,
    opening: Option<Value>,
    cache: &Cache,
    store: &EventStore,
    w: Point,
    q: Point,
    steps: &mut Steps<L>,
) -> Result<UnitRows, OutOfMemory>
    requires fits { kind_fits program.now (unit_values program.now unit.now) unit.now.kind ≡ true }
    requires size { length cache.now.rows ≡ length program.now.units }
    requires inside { IsInWindow w q cache.now.rows }
    requires rows { AllByRecursion (HasRows cache.now.rows) (rules_of unit.now.kind) }
    requires opens { IsValueBelow (unit_values program.now unit.now) opening }
    requires window { w < q }
    requires end { q < 2 ^ 64 - 1 }
    ensures rows { IfOk result (λ rows. published rows
        ≡ rows_over (known cache.now.rows store.now) opening
        (unit_values program.now unit.now) unit.now.kind w q) }
    ensures steps { OnOk result (steps.new ≡ record {
      count = steps.old.count + triggers_of (known cache.now.rows store.now)
          (rules_of unit.now.kind) w q;
      out = steps.old.out;
    }) }
    ensures most { OnErr result (steps.new.count ≤ steps.old.count + triggers_of
        (known cache.now.rows store.now) (rules_of unit.now.kind) w q) }
    ensures parts { steps.new.out ≡ steps.old.out }
{
    match &unit.kind {
        UnitKind::Simple {
            initiate,
            terminate,
            ..
        } => {
            let count = value_count(program, unit);
            let (initiate, terminate) = (initiate.as_slice(), terminate.as_slice());
            let rows = rows_of_simple(
                alloc, count, opening, initiate, terminate, cache, store, w, q, steps,
            )?;
            Ok(UnitRows::Fluent(List::of(rows)))
        }
        UnitKind::Derived(rules) => {
            let points = points_of_rules(alloc, rules.as_slice(), cache, store, w, q, steps)?;
            Ok(UnitRows::Event(points))
        }
        UnitKind::Static(exprs) => {
            let rows = rows_of_exprs(alloc, exprs.as_slice(), cache)?;
            Ok(UnitRows::Fluent(List::of(rows)))
        }
    }
}
