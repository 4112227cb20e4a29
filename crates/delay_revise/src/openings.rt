// The values with which units open a query.
ghost use Rattle.std.specs.Prelude.{◌≡◌, ◌≤◌, ◌+◌, ℕ, suc, List, map, slice_get, Some, IfOk};
ghost use Rattle.ground_types.specs.Publication.{opening_of, publication};
ghost use Rattle.ground_types.specs.Recognition.{listed};
ghost use Rattle.ground_types.specs.Sound.{IsSound};
ghost use Rattle.ground_types.specs.declared.entries.Entry.{Entry};
ghost use Rattle.layer_cache.specs.Cached.{unit_shapes};
ghost use Rattle.layer_cache.specs.Shapes.{shapes};
ghost use Rattle.query_ask.specs.Right.{published};
ghost use Rattle.delay_revise.specs.Going.{IsSmall};

use ground_types::{Program, Unit, UnitId, UnitKind, Value};
use layer_cache::Cache;
use rt_base::OutOfMemory;
use std::alloc::Global;

// The value with which a unit opens query k: for a simple fluent its initial value, or what the
// query before gives it at the first value point of this one.
fn opening_value(
    program: &Program,
    k: u32,
    number: UnitId,
    unit: &Unit,
    cache: &Cache,
) -> Option<Value>
    requires sound { IsSound program.now }
    requires small { IsSmall program.now }
    requires within { k ≤ program.now.plan.queries }
    requires unit { slice_get program.now.units number ≡ Some unit.now }
    requires size { shapes cache.now.before ≡ unit_shapes program.now }
    ensures { (history : List Entry) → ((j : ℕ) → k ≡ suc j → map published cache.now.before
        ≡ (publication program.now history j).rows)
        → result ≡ listed (opening_of program.now history k) number }
{
    match &unit.kind {
        UnitKind::Simple { initially, .. } if k == 0 => *initially,
        UnitKind::Simple { .. } => cache.opening(number, program.plan.left(k) + 1),
        _ => None,
    }
}

// The value with which each unit opens query k.
pub(crate) fn openings(
    alloc: Global,
    program: &Program,
    k: u32,
    cache: &Cache,
) -> Result<Vec<Option<Value>>, OutOfMemory>
    requires sound { IsSound program.now }
    requires small { IsSmall program.now }
    requires within { k ≤ program.now.plan.queries }
    requires size { shapes cache.now.before ≡ unit_shapes program.now }
    ensures { IfOk result (λ opening. (history : List Entry) → ((j : ℕ) → k ≡ suc j
        → map published cache.now.before ≡ (publication program.now history j).rows)
        → opening.items ≡ opening_of program.now history k) }
{
    let units = program.units.as_slice();
    let mut opening = Vec::with_capacity(alloc, units.len())?;
    for (number, unit) in units.iter().enumerate() {
        opening.push(opening_value(program, k, number as UnitId, unit, cache))?;
    }
    Ok(opening)
}
