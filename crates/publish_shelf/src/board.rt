// What keeps publications.
ghost use Rattle.std.specs.Prelude.{◌≡◌, ◌++◌, ◌∷◌, [], ℕ, List, length, map, OnOk, OnErr};
ghost use Rattle.std.specs.Arc.{arc_value};
ghost use Rattle.query_ask.specs.Right.{Parts};
ghost use Rattle.publish_shelf.specs.Listed.{IsListed, MayFollow};

use query_ask::Publication;
use rt_base::OutOfMemory;
use std::sync::Arc;

/// What keeps publications, one for each query from 0 on, all of one program (our own). Each is
/// right for itself by its type.
pub trait Board {
    /// The parts of the publications that it has, in their order.
    ghost listed: { Self → List Parts };

    /// Puts a publication at the end. Its number has to be how many there are, and its program that
    /// of each. `OutOfMemory` leaves the board as it was.
    fn put(&mut self, publication: &Arc<Publication>) -> Result<(), OutOfMemory>
        requires next { MayFollow (listed self.old) (arc_value publication.now) }
        ensures added { OnOk result (listed self.new ≡ listed self.old ++ arc_value publication.now
            ∷ []) }
        ensures refused { OnErr result (listed self.new ≡ listed self.old) };

    /// The publications, that of query `j` at place `j`. No memory.
    fn list(&self) -> &[Arc<Publication>]
        ensures list { map arc_value result.now ≡ listed self.now }
        ensures kept { IsListed (listed self.now) };
}
