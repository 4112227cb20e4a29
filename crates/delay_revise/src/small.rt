// What fits into 32 bits.
ghost use Rattle.std.specs.Prelude.{◌≡◌, ◌^◌, nat_lt, IsTrue};
ghost use Rattle.std.specs.List.{list_all};
ghost use Rattle.ground_types.specs.Sound.{unit_values};
ghost use Rattle.delay_revise.specs.Going.{IsSmall};

use ground_types::{Program, Unit, value_count};

// Whether numbers of 32 bits name each value of a unit.
fn has_few_values(program: &Program, unit: &Unit) -> bool
    ensures { result ≡ nat_lt (unit_values program.now unit.now) (2 ^ 32) }
{
    value_count(program, unit) < 1 << 32
}

// Whether they name each value of all units.
fn have_few_values(program: &Program) -> bool
    ensures { result ≡ list_all (λ unit. nat_lt (unit_values program.now unit) (2 ^ 32))
        program.now.units }
{
    program
        .units
        .as_slice()
        .iter()
        .all(|unit| has_few_values(program, unit))
}

// Whether numbers of 32 bits name each value of a unit, and each layer. No memory holds a program
// of which it is not so.
pub(crate) fn is_small(program: &Program) -> bool
    ensures { IsTrue result → IsSmall program.now }
{
    program.layers.as_slice().len() < 1 << 32 && have_few_values(program)
}
