// The counts of all units together.
ghost use Rattle.std.specs.Prelude.{◌≡◌, ◌<◌, ◌^◌, sum_by};
ghost use Rattle.delay_revise.specs.Counting.{count_of};

use ground_types::{Program, UnitId};

// The count of a unit. A unit without one counts nothing.
fn count_at(counts: &[Option<u64>], unit: UnitId) -> u64
    ensures { result ≡ count_of counts.now unit }
{
    match counts.get(unit as usize) {
        Some(Some(count)) => *count,
        _ => 0,
    }
}

// The counts of the units of a layer, added up.
fn total_of_layer(layer: &[UnitId], counts: &[Option<u64>]) -> u64
    requires few { sum_by (count_of counts.now) layer.now < 2 ^ 64 }
    ensures { result ≡ sum_by (count_of counts.now) layer.now }
{
    let mut sum = 0;
    for unit in layer {
        sum += count_at(counts, *unit);
    }
    sum
}

// The counts of the units, layer by layer, added up. A unit without a count adds nothing.
pub(crate) fn total(program: &Program, counts: &[Option<u64>]) -> u64
    requires few { sum_by (λ layer. sum_by (count_of counts.now) layer) program.now.layers
        < 2 ^ 64 }
    ensures { result ≡ sum_by (λ layer. sum_by (count_of counts.now) layer) program.now.layers }
{
    let mut sum = 0;
    for layer in program.layers.as_slice() {
        sum += total_of_layer(layer.as_slice(), counts);
    }
    sum
}
