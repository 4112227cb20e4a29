// Publications of windows all of whose layers are ended.
ghost use Rattle.std.specs.Prelude.{◌≡◌, true, length, map, replicate, None, IfOk, OnOk, OnErr};
ghost use Rattle.std.specs.Arc.{arc_value};
ghost use Rattle.layer_cache.specs.Shapes.{emptied};
ghost use Rattle.delay_revise.specs.Revising.{closed, none_kept, number_of, IsPublished};

use crate::reviser::Reviser;
use crate::totals::total;
use ground_types::Opening;
use layer_cache::Cache;
use query_ask::Publication;
use rt_base::{List, OutOfMemory};
use std::sync::Arc;

// No unit has a count.
fn clear_counts(counts: &mut [Option<u64>])
    ensures { counts.new ≡ replicate (length counts.old) None }
{
    for count in counts.iter_mut() {
        *count = None;
    }
}

// The rows of a window are the old ones from now on, and those of the next one are empty.
fn end_window(rows: &mut Cache)
    ensures { rows.new ≡ record { rows = map emptied rows.old.before; before = rows.old.rows } }
{
    rows.turn();
    rows.clear();
}

impl Reviser {
    // The publication of the open chunk, whose layers are all ended.
    fn publication(&self) -> Result<Publication, OutOfMemory>
        requires chunk { self.now.has_chunk ≡ true }
        requires applied { self.now.applied ≡ true }
        requires layers { self.now.layer ≡ length self.now.program.layers }
        ensures { IfOk result (IsPublished self.now.program self.now.taken (number_of self.now)) }
    {
        let w = self.program.plan.left(self.number);
        let q = self.program.plan.right(self.number);
        let events = self.store.occurrences(w, q)?;
        let rows = self.cache.copy_rows()?.into_vec();
        let values = List::of(Vec::from_slice(self.alloc, &self.opening)?);
        let program = Arc::clone(&self.program)?;
        Ok(Publication::new(
            self.number,
            self.history.len() as u32,
            program,
            Opening { values },
            events,
            rows,
            total(&self.program, &self.counts),
        ))
    }

    // Closes the chunk: the rows are the old ones from now on, and what stands is what stood.
    fn close(&mut self)
        requires chunk { self.old.has_chunk ≡ true }
        requires applied { self.old.applied ≡ true }
        requires layers { self.old.layer ≡ length self.old.program.layers }
        ensures { self.new ≡ closed self.old }
    {
        end_window(&mut self.cache);
        self.store.settle();
        clear_counts(&mut self.counts);
        self.number += 1;
        self.layer = 0;
        self.applied = false;
        self.has_chunk = false;
    }

    // Begins the window again: no layer is ended, and nothing is kept.
    pub(crate) fn begin_again(&mut self)
        ensures { self.new ≡ record self.old { layer = 0; kept = none_kept self.old.program } }
    {
        self.cache.clear();
        clear_counts(&mut self.counts);
        self.layer = 0;
    }

    /// Publishes the open chunk, which has to be applied and whose layers have to be ended, and
    /// closes it. The publication is that of the query of its seal, of the whole history taken. The
    /// rows and the events of the window are copied. After want of memory all is as before.
    pub fn publish(&mut self) -> Result<Arc<Publication>, OutOfMemory>
        requires chunk { self.old.has_chunk ≡ true }
        requires applied { self.old.applied ≡ true }
        requires layers { self.old.layer ≡ length self.old.program.layers }
        ensures publication { IfOk result (λ publication. IsPublished self.old.program
            self.old.taken (number_of self.old) (arc_value publication)) }
        ensures closed { OnOk result (self.new ≡ closed self.old) }
        ensures err { OnErr result (self.new ≡ self.old) }
    {
        let publication = Arc::new(self.alloc, self.publication()?)?;
        self.close();
        Ok(publication)
    }
}
