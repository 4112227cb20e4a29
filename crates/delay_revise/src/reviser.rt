// What revises, and the calls that take no memory.
ghost use Rattle.std.specs.Prelude.{◌≡◌, ◌≤◌, ◌<◌, ◌+◌, ◌-◌, ◌++◌, true, false, length, slice_set};
ghost use Rattle.std.specs.Prelude.{slice_get, Some, None, IfOk, IfSome, replicate};
ghost use Rattle.layer_cache.specs.Cached.{all_empty};
ghost use Rattle.layer_cache.specs.Shapes.{shape, shapes};
ghost use Rattle.delay_revise.specs.Going.{IsSmall};
ghost use Rattle.delay_revise.specs.Layers.{put_made};
ghost use Rattle.std.specs.List.{list_all};
ghost use Rattle.std.specs.Arc.{arc_value};
ghost use Rattle.ground_types.specs.Members.{contains};
ghost use Rattle.ground_types.specs.Sound.{IsSound};
ghost use Rattle.delay_revise.specs.Revising.{new_reviser, MayTake, open_units, open_layer};
ghost use Rattle.delay_revise.specs.Revising.{is_kept, IsWorkOf};

use crate::small::is_small;
use crate::unit::Worked;
use event_store::{Ahead, EventStore};
use ground_types::{Entry, Program, UnitId, Value};
use layer_cache::Cache;
use rt_base::OutOfMemory;
use span_algebra::UnitRows;
use std::alloc::Global;
use std::marker::Model;
use std::sync::Arc;

/// What revises: it takes the history chunk by chunk, each up to a seal, and publishes at each
/// seal. Contracts see what `Revising` names. By its type the program is sound, and what is taken
/// is a legal history of at most `cap` entries, whose events are the program's. Between two seals
/// it keeps the rows of the last publication, and the events that stand in its window.
#[derive(Drop)]
pub struct Reviser {
    pub(crate) alloc: Global,
    pub(crate) program: Arc<Program>,
    pub(crate) cap: u32,
    pub(crate) history: Vec<Entry>,
    pub(crate) has_chunk: bool,
    pub(crate) applied: bool,
    // How many layers of the open chunk are ended.
    pub(crate) layer: u32,
    // The number of the open query, or of the next one.
    pub(crate) number: u32,
    // How many entries are brought to the store, or to the words that wait.
    pub(crate) placed: usize,
    pub(crate) cache: Cache,
    pub(crate) store: EventStore,
    pub(crate) ahead: Ahead,
    // The value with which each unit opens, once the chunk is applied.
    pub(crate) opening: Vec<Option<Value>>,
    // For each unit whose rows are kept, how many evaluations it counts.
    pub(crate) counts: Vec<Option<u64>>,
}

impl Model for Reviser {
    ghost use Rattle.std.specs.Arc.{arc_value};
    ghost use Rattle.std.specs.Coded.{codes};
    ghost use Rattle.std.specs.Prelude.{map, is_some, vec_capacity};
    ghost use Rattle.ground_types.specs.contracts.program.Expr as expr;
    ghost use Rattle.delay_revise.specs.Revising.{Revising};
    ghost use Rattle.delay_revise.specs.Going.{IsRevising};

    ghost Value = { Revising };

    ghost coded = { Prim.hlevel (codes, expr.the_row.coded) };

    ghost view = { λ r. record {
      program = arc_value r.program;
      cap = r.cap;
      taken = r.history.items;
      has_chunk = r.has_chunk;
      applied = r.applied;
      layer = r.layer;
      kept = map is_some r.counts.items;
    } };

    ghost invariant = { λ r. IsRevising (record {
      program = arc_value r.program;
      cap = r.cap;
      taken = r.history.items;
      has_chunk = r.has_chunk;
      applied = r.applied;
      layer = r.layer;
      kept = map is_some r.counts.items;
    }) (record {
      number = r.number;
      placed = r.placed;
      room = vec_capacity r.history;
      cached = r.cache;
      store = r.store;
      ahead = r.ahead;
      opening = r.opening.items;
      counts = r.counts.items;
    }) };
}

// Puts what was made of a unit into the cache; None leaves the empty rows, which it has.
fn put_made(cache: &mut Cache, unit: UnitId, made: Option<UnitRows>)
    requires { IfSome made (λ rows. slice_get (shapes cache.old.rows) unit ≡ Some (shape rows)) }
    ensures { cache.new ≡ put_made cache.old unit made }
{
    match made {
        Some(rows) => cache.put_row(unit, rows),
        None => {}
    }
}

// The empty rows of a program of which numbers of 32 bits name each value and each layer.
fn small_cache(alloc: Global, program: &Program) -> Result<Cache, OutOfMemory>
    ensures small { IfOk result (λ _. IsSmall program.now) }
    ensures empty { IfOk result (λ cache. cache ≡ record {
      rows = all_empty program.now;
      before = all_empty program.now;
    }) }
{
    if !is_small(program) {
        return Err(OutOfMemory);
    }
    Cache::new(alloc, program)
}

// A place for the count of each unit; none is there yet.
fn no_counts(alloc: Global, units: usize) -> Result<Vec<Option<u64>>, OutOfMemory>
    ensures { IfOk result (λ counts. counts.items ≡ replicate units None) }
{
    let mut counts = Vec::with_capacity(alloc, units)?;
    for _unit in 0..units {
        counts.push(None)?;
    }
    Ok(counts)
}

impl Reviser {
    /// Nothing is taken, and there is room for `cap` entries, which is made here. The program has
    /// to be sound. The one error is want of memory.
    pub fn new(alloc: Global, program: Arc<Program>, cap: u32) -> Result<Reviser, OutOfMemory>
        requires sound { IsSound (arc_value program) }
        ensures { IfOk result (λ reviser. reviser ≡ new_reviser (arc_value program) cap) }
    {
        let cache = small_cache(alloc, &program)?;
        let ahead = Ahead::new(alloc, program.plan.queries)?;
        let history = Vec::with_capacity(alloc, cap as usize)?;
        let counts = no_counts(alloc, program.units.as_slice().len())?;
        Ok(Reviser {
            alloc,
            program,
            cap,
            history,
            has_chunk: false,
            applied: false,
            layer: 0,
            number: 0,
            placed: 0,
            cache,
            store: EventStore::new(alloc),
            ahead,
            opening: Vec::new(alloc),
            counts,
        })
    }

    /// How many entries are taken, those of the open chunk too. No memory.
    pub fn taken(&self) -> u32
        ensures { result ≡ length self.now.taken }
    {
        // (the proof rests on what holds of every reviser)
        let _ = self.cap;
        self.history.len() as u32
    }

    /// How many more entries may be taken. No memory.
    pub fn room(&self) -> u32
        ensures { result ≡ self.now.cap - length self.now.taken }
    {
        self.cap - self.taken()
    }

    /// Whether a chunk is open. No memory.
    pub fn has_chunk(&self) -> bool
        ensures { result ≡ self.now.has_chunk }
    {
        self.has_chunk
    }

    /// The number of the open layer, from 1 on; None exactly where no chunk is open or all layers
    /// are ended. No memory.
    pub fn layer(&self) -> Option<u32>
        ensures layer { result ≡ open_layer self.now }
        ensures most { self.now.layer ≤ length self.now.program.layers }
    {
        if self.has_chunk && (self.layer as usize) < self.program.layers.as_slice().len() {
            Some(self.layer + 1)
        } else {
            None
        }
    }

    /// Opens a chunk, which ends with its one seal and goes on the history legally; there has to be
    /// room for it, and no other open. No memory.
    pub fn take_chunk(&mut self, chunk: &[Entry])
        requires chunk { MayTake self.old chunk.now }
        ensures { self.new ≡ record self.old {
          taken = self.old.taken ++ chunk.now;
          has_chunk = true;
        } }
    {
        // (the proof rests on what holds of every reviser)
        let _ = self.cap;
        match self.history.extend_from_slice(chunk) {
            Ok(()) => self.has_chunk = true,
            Err(_) => unreachable!(),
        }
    }

    /// Keeps what was made of a unit of the open layer for the open chunk. No memory.
    pub fn keep(&mut self, unit: UnitId, worked: Worked)
        requires chunk { self.old.has_chunk ≡ true }
        requires unit { contains (open_units self.old) unit ≡ true }
        requires worked { IsWorkOf self.old unit worked }
        ensures { self.new ≡ record self.old { kept = slice_set self.old.kept unit true } }
    {
        let Worked { rows, evaluations } = worked;
        put_made(&mut self.cache, unit, rows);
        self.counts[unit as usize] = Some(evaluations);
    }

    /// Ends the open layer, each of whose units has to be kept. No memory.
    pub fn turn(&mut self)
        requires chunk { self.old.has_chunk ≡ true }
        requires layer { self.old.layer < length self.old.program.layers }
        requires kept { list_all (is_kept self.old) (open_units self.old) ≡ true }
        ensures { self.new ≡ record self.old { layer = self.old.layer + 1 } }
    {
        self.layer += 1;
    }
}
