// A board without readers of other threads.
ghost use Rattle.std.specs.Prelude.{◌≡◌, []};

use crate::Board;
use query_ask::Publication;
use rt_base::OutOfMemory;
use std::alloc::Global;
use std::marker::Model;
use std::sync::Arc;

/// A board that keeps its publications in a vector. Contracts see it as the list of their parts.
#[derive(Drop)]
pub struct PlainBoard {
    list: Vec<Arc<Publication>>,
}

impl Model for PlainBoard {
    ghost use Rattle.std.specs.Arc.{arc_value};
    ghost use Rattle.std.specs.Coded.{codes};
    ghost use Rattle.std.specs.Prelude.{List, map};
    ghost use Rattle.ground_types.specs.contracts.program.Expr as expr;
    ghost use Rattle.query_ask.specs.Right.{Parts};
    ghost use Rattle.publish_shelf.specs.Listed.{IsListed};

    ghost Value = { List Parts };

    ghost coded = { Prim.hlevel (codes, expr.the_row.coded) };

    ghost view = { λ b. map arc_value b.list.items };

    ghost invariant = { λ b. IsListed (map arc_value b.list.items) };
}

impl PlainBoard {
    /// A board with nothing on it. It takes no memory.
    pub fn new(alloc: Global) -> PlainBoard
        ensures { result ≡ [] }
    {
        PlainBoard {
            list: Vec::new(alloc),
        }
    }
}

impl Board for PlainBoard {
    ghost listed = { λ board. board };

    fn put(&mut self, publication: &Arc<Publication>) -> Result<(), OutOfMemory> {
        let shared = Arc::try_clone(publication)?;
        self.list.push(shared)?;
        Ok(())
    }

    fn list(&self) -> &[Arc<Publication>] {
        self.list.as_slice()
    }
}
