// The open chunk is brought to the standing events.
ghost use Rattle.std.specs.Prelude.{◌≡◌, true, IsOk, OnOk, OnErr};

use crate::openings::openings;
use crate::reviser::Reviser;
use crate::told::{bring, place_all};
use rt_base::OutOfMemory;

impl Reviser {
    /// Brings the open chunk to the standing events, and finds the opening values of its window. A
    /// call after its Ok answers Ok and changes nothing. After want of memory the history taken and
    /// the open chunk are as before, and it may be called again. The time is that of sorting the
    /// words that are told of this query, and linear in the points of the events that they name and
    /// in the events of the window.
    pub fn apply(&mut self) -> Result<(), OutOfMemory>
        requires chunk { self.old.has_chunk ≡ true }
        ensures ok { OnOk result (self.new ≡ record self.old { applied = true }) }
        ensures again { self.old.applied ≡ true → IsOk result }
        ensures err { OnErr result (self.new ≡ self.old) }
    {
        if self.applied {
            return Ok(());
        }
        place_all(
            &self.program,
            self.number,
            &self.history,
            &mut self.placed,
            &mut self.ahead,
        )?;
        let opening = openings(self.alloc, &self.program, self.number, &self.cache)?;
        bring(&self.program, self.number, &mut self.store, &mut self.ahead)?;
        self.opening = opening;
        self.applied = true;
        Ok(())
    }
}
