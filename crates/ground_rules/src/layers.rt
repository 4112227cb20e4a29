// The layers of units.
ghost use Rattle.std.specs.Prelude.{◌≡◌, ◌<◌, ◌^◌, map, length, slice_index_or, IfOk};
ghost use Rattle.ground_rules.specs.Grounded.{plain_unit, greatest_layer, unit_layer, layers_of};

use crate::buckets::Buckets;
use ground_types::{Unit, UnitId};
use rt_base::{List, OutOfMemory};
use std::alloc::Global;

// The greatest layer of a name, 0 where there is none.
fn greatest_layer(of_name: &[u32]) -> u32
    ensures { result ≡ greatest_layer of_name.now }
{
    let mut greatest = 0;
    for layer in of_name {
        greatest = greatest.max(*layer);
    }
    greatest
}

// The layer of a unit: that of its name.
fn unit_layer(of_name: &[u32], unit: &Unit) -> u32
    ensures { result ≡ unit_layer of_name.now (plain_unit unit.now) }
{
    match of_name.get(unit.name as usize) {
        Some(layer) => *layer,
        None => 0,
    }
}

// The units of layer 1, of layer 2 and so on, from the layers of their names.
pub(crate) fn layers_of(
    alloc: Global,
    of_name: &[u32],
    units: &[Unit],
) -> Result<List<List<UnitId>>, OutOfMemory>
    requires { length units.now < 2 ^ 32 }
    ensures { IfOk result (λ layers. layers ≡ layers_of of_name.now (map plain_unit units.now)) }
{
    let mut layers = Buckets::new(alloc, greatest_layer(of_name) as usize)?;
    for (number, unit) in units.iter().enumerate() {
        let layer = unit_layer(of_name, unit);
        if 0 < layer {
            layers.push(layer as usize - 1, number as u32)?;
        }
    }
    layers.into_lists(alloc)
}
