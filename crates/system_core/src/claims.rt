// The claims of the units of an open revision.
ghost use Rattle.std.specs.Prelude.{◌≡◌, ◌<◌, ◌≤◌, ◌++◌, ◌∷◌, [], ◌+◌, true, length, IfOk, OnOk};
ghost use Rattle.std.specs.Prelude.{◌==◌, OnErr, replicate, false, slice_get};
ghost use Rattle.std.specs.List.{list_all, IsDistinct};
ghost use Rattle.std.specs.Arc.{arc_value};
ghost use Rattle.ground_types.specs.Members.{contains};
ghost use Rattle.ground_types.specs.Sound.{IsSound};
ghost use Rattle.system_core.specs.Core.{open_layer, layer_units, lowest_unclaimed, has_layer};
ghost use Rattle.system_core.specs.Core.{units_of, is_worked, is_finished};
ghost use Rattle.system_core.specs.Claiming.{IsInOrder, AreInOrder, with_claim};

use ground_types::{Program, UnitId};
use rt_base::{List, OutOfMemory};
use std::alloc::Global;
use std::marker::Model;
use std::sync::Arc;

// Which units of the open layer are claimed, and which are finished. It has the units of each layer
// in their order, so that the lowest one is found without a search.
#[derive(Drop)]
pub struct Claims {
    program: Arc<Program>,
    // The units of each layer, from the lowest on.
    ordered: List<List<UnitId>>,
    layer: usize,
    claimed: Vec<UnitId>,
    finished: Vec<UnitId>,
    // For each unit whether it is claimed and not finished.
    worked: Vec<bool>,
    // How many units of the open layer are not finished.
    left: usize,
}

impl Model for Claims {
    ghost use Rattle.std.specs.Arc.{arc_value};
    ghost use Rattle.std.specs.Coded.{codes};
    ghost use Rattle.ground_types.specs.contracts.program.Expr as expr;
    ghost use Rattle.system_core.specs.Claiming.{Claiming, IsClaiming};

    ghost Value = { Claiming };

    ghost coded = { Prim.hlevel (codes, expr.the_row.coded) };

    ghost view = { λ c. record {
      program = arc_value c.program;
      revision = record {
        layer = c.layer;
        claimed = c.claimed.items;
        finished = c.finished.items;
      };
    } };

    ghost invariant = { λ c. IsClaiming (record {
      program = arc_value c.program;
      revision = record {
        layer = c.layer;
        claimed = c.claimed.items;
        finished = c.finished.items;
      };
    }) c.ordered c.worked.items c.left };
}

// The units of a layer, from the lowest on.
fn in_order(alloc: Global, units: &[UnitId]) -> Result<List<UnitId>, OutOfMemory>
    requires { IsDistinct ◌==◌ units.now }
    ensures { IfOk result (IsInOrder units.now) }
{
    let mut ordered = Vec::from_slice(alloc, units)?;
    ordered.sort_unstable();
    Ok(List::of(ordered))
}

// The units of each layer, from the lowest on.
fn layers_in_order(alloc: Global, program: &Program) -> Result<List<List<UnitId>>, OutOfMemory>
    requires sound { IsSound program.now }
    ensures { IfOk result (AreInOrder program.now.layers) }
{
    let mut ordered = Vec::new(alloc);
    for layer in program.layers.as_slice() {
        ordered.push(in_order(alloc, layer.as_slice())?)?;
    }
    Ok(List::of(ordered))
}

// How many units a layer has; none where there is no such layer.
fn size_of(layers: &[List<UnitId>], layer: usize) -> usize
    ensures { result ≡ length (units_of (slice_get layers.now layer)) }
{
    match layers.get(layer) {
        Some(units) => units.as_slice().len(),
        None => 0,
    }
}

// The place after that of a layer.
fn place_after(layers: &[List<UnitId>], layer: usize) -> usize
    requires { layer < length layers.now }
    ensures { result ≡ layer + 1 }
{
    let _ = layers.len();
    layer + 1
}

// The unit at a place of a layer, if there is one.
fn unit_at(layers: &[List<UnitId>], layer: usize, place: usize) -> Option<UnitId>
    ensures { result ≡ slice_get (units_of (slice_get layers.now layer)) place }
{
    let units = layers.get(layer)?;
    units.as_slice().get(place).copied()
}

// For each unit that it is not worked.
fn none_worked(alloc: Global, units: usize) -> Result<Vec<bool>, OutOfMemory>
    ensures { IfOk result (λ worked. worked.items ≡ replicate units false) }
{
    Ok(vec![in alloc; false; units]?)
}

impl Claims {
    // Nothing is claimed of the first layer. The program has to be sound.
    pub fn new(alloc: Global, program: Arc<Program>) -> Result<Claims, OutOfMemory>
        requires sound { IsSound (arc_value program) }
        ensures { IfOk result (λ claims. claims ≡ record {
          program = arc_value program;
          revision = open_layer 0;
        }) }
    {
        let ordered = layers_in_order(alloc, &program)?;
        let worked = none_worked(alloc, program.units.as_slice().len())?;
        let left = size_of(program.layers.as_slice(), 0);
        Ok(Claims {
            program,
            ordered,
            layer: 0,
            claimed: Vec::new(alloc),
            finished: Vec::new(alloc),
            worked,
            left,
        })
    }

    // A layer is not turned yet. No memory.
    pub fn has_layer(&self) -> bool
        ensures { result ≡ has_layer self.now.program self.now.revision }
    {
        self.layer < self.program.layers.as_slice().len()
    }

    // Claims the lowest unit of the open layer that is not claimed; None where there is none.
    pub fn claim(&mut self) -> Result<Option<UnitId>, OutOfMemory>
        ensures unit { IfOk result (λ unit. unit
            ≡ lowest_unclaimed self.old.program self.old.revision) }
        ensures claimed { IfOk result (λ unit. self.new ≡ with_claim self.old unit) }
        ensures err { OnErr result (self.new ≡ self.old) }
    {
        let next = unit_at(self.ordered.as_slice(), self.layer, self.claimed.len());
        let Some(unit) = next else {
            return Ok(None);
        };
        self.claimed.push(unit)?;
        self.worked[unit as usize] = true;
        Ok(Some(unit))
    }

    // Whether a unit is claimed and not finished. No memory.
    pub fn is_worked(&self, unit: UnitId) -> bool
        ensures worked { result ≡ is_worked self.now.revision unit }
        ensures within { result ≡ true →
            contains (layer_units self.now.program self.now.revision.layer) unit ≡ true }
    {
        match self.worked.get(unit as usize) {
            Some(worked) => *worked,
            None => false,
        }
    }

    // Takes a unit back.
    pub fn finish(&mut self, unit: UnitId) -> Result<(), OutOfMemory>
        requires worked { is_worked self.old.revision unit ≡ true }
        ensures ok { OnOk result (self.new ≡ record self.old {
          revision = record self.old.revision {
            finished = self.old.revision.finished ++ unit ∷ [];
          };
        }) }
        ensures err { OnErr result (self.new ≡ self.old) }
    {
        self.finished.push(unit)?;
        self.worked[unit as usize] = false;
        self.left -= 1;
        Ok(())
    }

    // Whether each unit of the open layer is finished. No memory.
    pub fn is_finished(&self) -> bool
        ensures { result ≡ is_finished self.now.program self.now.revision }
    {
        self.left == 0
    }

    // Goes to another layer, with nothing claimed; no unit may be worked. No memory.
    fn go_to(&mut self, layer: usize)
        requires within { layer ≤ length self.old.program.layers }
        requires none { list_all (contains self.old.revision.finished) self.old.revision.claimed ≡ true }
        ensures { self.new ≡ record self.old { revision = open_layer layer } }
    {
        self.layer = layer;
        self.claimed.clear();
        self.finished.clear();
        self.left = size_of(self.program.layers.as_slice(), layer);
    }

    // Goes to the next layer, once each unit of the open one is finished. No memory.
    pub fn turn(&mut self)
        requires layer { has_layer self.old.program self.old.revision ≡ true }
        requires finished { is_finished self.old.program self.old.revision ≡ true }
        ensures { self.new ≡ record self.old {
          revision = open_layer (self.old.revision.layer + 1);
        } }
    {
        let next = place_after(self.program.layers.as_slice(), self.layer);
        self.go_to(next);
    }

    // Goes to the first layer again, once all are turned. No memory.
    pub fn restart(&mut self)
        requires turned { has_layer self.old.program self.old.revision ≡ false }
        ensures { self.new ≡ record self.old { revision = open_layer 0 } }
    {
        // (the proof rests on what holds of all claims)
        let _ = &self.left;
        self.go_to(0);
    }
}
