// A whole window, layer by layer, with a crew.
ghost use Rattle.std.specs.Prelude.{◌≡◌, ◌≤◌, ◌<◌, ◌+◌, true, length, IfOk, OnOk, OnErr};
ghost use Rattle.std.specs.List.{list_all};
ghost use Rattle.std.specs.Arc.{arc_value};
ghost use Rattle.layer_workers.specs.Answers.{AreAnswers};
ghost use Rattle.delay_revise.specs.Revising.{closed, none_kept, number_of, IsWorkOf, IsPublished};
ghost use Rattle.delay_revise.specs.Revising.{open_units, is_kept, trigger_points};
ghost use Rattle.delay_revise.specs.Layers.{unit_at, layer_triggers};

use crate::reviser::Reviser;
use crate::unit::Worked;
use ground_types::UnitId;
use layer_workers::{Crew, Piece};
use query_ask::Publication;
use rt_base::{OutOfMemory, Steps};
use std::alloc::Global;
use std::sync::Arc;
use std::sync::ledger::Ledger;
use std::thread::Threads;

// The open layer, unit by unit.
#[derive(Drop)]
struct Layer<'a> {
    reviser: &'a Reviser,
    units: &'a [UnitId],
}

impl Piece for Layer<'_> {
    type Out = Worked;

    ghost use Rattle.delay_revise.specs.Layers.{MayWork, unit_at};
    ghost use Rattle.delay_revise.specs.Revising.{number_of, IsWorkOf, trigger_points_of_unit};

    ghost may_work = { λ layer number. MayWork layer.reviser.now layer.units.now number };

    ghost answers = { λ layer number out. IsWorkOf layer.reviser.now
        (unit_at layer.units.now number) out };

    ghost cost = { λ layer number. trigger_points_of_unit layer.reviser.now.program
        layer.reviser.now.taken (number_of layer.reviser.now) (unit_at layer.units.now number) };

    fn work<L: Ledger>(
        &self,
        _alloc: Global,
        number: u32,
        steps: &mut Steps<L>,
    ) -> Result<Worked, OutOfMemory> {
        self.reviser.work(self.units[number as usize], steps)
    }
}

impl Reviser {
    // Keeps what was made of the units of the open layer, each at its place.
    fn keep_all(&mut self, units: &[UnitId], mut made: Vec<Worked>)
        requires chunk { self.old.has_chunk ≡ true }
        requires units { units.now ≡ open_units self.old }
        requires made { AreAnswers (λ number worked. IsWorkOf self.old (unit_at units.now number)
            worked) (length units.now) made.items }
        ensures kept { list_all (is_kept self.new) units.now ≡ true }
        ensures same { self.new ≡ record self.old { kept = self.new.kept } }
    {
        // (the proof rests on what holds of every reviser)
        let _ = &self.alloc;
        while let Some(worked) = made.pop() {
            self.keep(units[made.len()], worked);
        }
    }

    // Works the open layer with a crew, and ends it.
    fn work_layer<R: Threads + Sync, C: Crew, L: Ledger + Send>(
        &mut self,
        rt: &R,
        crew: &C,
        steps: &mut Steps<L>,
    ) -> Result<(), OutOfMemory>
        requires chunk { self.old.has_chunk ≡ true }
        requires applied { self.old.applied ≡ true }
        requires layer { self.old.layer < length self.old.program.layers }
        ensures done { OnOk result (self.new ≡ record self.old {
          layer = self.old.layer + 1;
          kept = self.new.kept;
        }) }
        ensures ok { OnOk result (steps.new.count ≡ steps.old.count + layer_triggers
            self.old.program self.old.taken (number_of self.old) (open_units self.old)) }
        ensures err { OnErr result (self.new ≡ self.old) }
        ensures least { steps.old.count ≤ steps.new.count }
        ensures most { steps.new.count ≤ steps.old.count + layer_triggers
            self.old.program self.old.taken (number_of self.old) (open_units self.old) }
        ensures parts { steps.new.out ≡ steps.old.out }
    {
        let program = Arc::clone(&self.program)?;
        let units = program.layers.as_slice()[self.layer as usize].as_slice();
        let layer = Layer {
            reviser: &*self,
            units,
        };
        let made = crew.all(rt, self.alloc, units.len() as u32, &layer, steps)?;
        self.keep_all(units, made);
        self.turn();
        Ok(())
    }

    // Works all layers of the open chunk, from the open one on.
    fn work_layers<R: Threads + Sync, C: Crew, L: Ledger + Send>(
        &mut self,
        rt: &R,
        crew: &C,
        steps: &mut Steps<L>,
    ) -> Result<(), OutOfMemory>
        requires chunk { self.old.has_chunk ≡ true }
        requires applied { self.old.applied ≡ true }
        requires layer { self.old.layer ≡ 0 }
        ensures done { OnOk result (self.new ≡ record self.old {
          layer = length self.old.program.layers;
          kept = self.new.kept;
        }) }
        ensures ok { OnOk result (steps.new.count ≡ steps.old.count + trigger_points
            self.old.program self.old.taken (number_of self.old)) }
        ensures err { OnErr result (self.new ≡ record self.old {
          layer = self.new.layer;
          kept = self.new.kept;
        }) }
        ensures least { steps.old.count ≤ steps.new.count }
        ensures most { OnErr result (steps.new.count ≤ steps.old.count + trigger_points
            self.old.program self.old.taken (number_of self.old)) }
        ensures parts { steps.new.out ≡ steps.old.out }
    {
        let layers = self.program.layers.as_slice().len();
        for _layer in 0..layers {
            self.work_layer(rt, crew, steps)?;
        }
        Ok(())
    }

    // All of it, from the first layer on.
    fn revise_from_first<R: Threads + Sync, C: Crew, L: Ledger + Send>(
        &mut self,
        rt: &R,
        crew: &C,
        steps: &mut Steps<L>,
    ) -> Result<Arc<Publication>, OutOfMemory>
        requires chunk { self.old.has_chunk ≡ true }
        requires layer { self.old.layer ≡ 0 }
        ensures publication { IfOk result (λ publication. IsPublished self.old.program
            self.old.taken (number_of self.old) (arc_value publication)) }
        ensures closed { OnOk result (self.new ≡ closed self.old) }
        ensures ok { OnOk result (steps.new.count ≡ steps.old.count + trigger_points
            self.old.program self.old.taken (number_of self.old)) }
        ensures err { OnErr result (self.new ≡ record self.old {
          applied = self.new.applied;
          layer = self.new.layer;
          kept = self.new.kept;
        }) }
        ensures again { self.old.applied ≡ true → OnErr result (self.new.applied ≡ true) }
        ensures least { steps.old.count ≤ steps.new.count }
        ensures most { OnErr result (steps.new.count ≤ steps.old.count + trigger_points
            self.old.program self.old.taken (number_of self.old)) }
        ensures parts { steps.new.out ≡ steps.old.out }
    {
        self.apply()?;
        self.work_layers(rt, crew, steps)?;
        self.publish()
    }

    /// Publishes the open chunk: brings it to the standing events, works all layers with a crew,
    /// and closes it. What was kept of this chunk so far is worked again. The publication is that
    /// of the query of its seal, of the whole history taken, whatever the crew; Ok adds a step for
    /// each point of the window at which the trigger of a rule occurs. After want of memory, the
    /// one error, the history taken and the open chunk are as before, nothing of it is kept, what
    /// was applied stays so, at most as many steps were added, and the call may be made again.
    pub fn revise<R: Threads + Sync, C: Crew, L: Ledger + Send>(
        &mut self,
        rt: &R,
        crew: &C,
        steps: &mut Steps<L>,
    ) -> Result<Arc<Publication>, OutOfMemory>
        requires chunk { self.old.has_chunk ≡ true }
        ensures publication { IfOk result (λ publication. IsPublished self.old.program
            self.old.taken (number_of self.old) (arc_value publication)) }
        ensures closed { OnOk result (self.new ≡ closed self.old) }
        ensures steps { OnOk result (steps.new.count ≡ steps.old.count
            + trigger_points self.old.program self.old.taken (number_of self.old)) }
        ensures err { OnErr result (self.new ≡ record self.old {
          applied = self.new.applied;
          layer = 0;
          kept = none_kept self.old.program;
        }) }
        ensures again { self.old.applied ≡ true → OnErr result (self.new.applied ≡ true) }
        ensures least { steps.old.count ≤ steps.new.count }
        ensures most { OnErr result (steps.new.count ≤ steps.old.count
            + trigger_points self.old.program self.old.taken (number_of self.old)) }
        ensures parts { steps.new.out ≡ steps.old.out }
    {
        self.begin_again();
        let result = self.revise_from_first(rt, crew, steps);
        if result.is_err() {
            self.begin_again();
        }
        result
    }
}
