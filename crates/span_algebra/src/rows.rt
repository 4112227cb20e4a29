// What a unit holds over a window.
ghost use Rattle.std.specs.Prelude.{◌≡◌, IfOk};

use crate::{Points, Spans};
use rt_base::{List, OutOfMemory};
use std::alloc::Global;

/// The rows of a unit.
#[derive(Debug, Drop)]
pub enum UnitRows {
    /// The row of each value of a fluent, in the order of the values.
    Fluent(List<Spans>),
    /// The points of a derived event.
    Event(Points),
}

// The same lists of spans again.
fn copy_all(alloc: Global, rows: &[Spans]) -> Result<List<Spans>, OutOfMemory>
    ensures { IfOk result (λ copies. copies ≡ rows.now) }
{
    let mut copies = Vec::with_capacity(alloc, rows.len())?;
    for row in rows {
        copies.push(row.copy()?)?;
    }
    Ok(List::of(copies))
}

impl UnitRows {
    /// The same rows again, or `OutOfMemory`.
    pub fn copy(&self, alloc: Global) -> Result<UnitRows, OutOfMemory>
        ensures { IfOk result (λ rows. rows ≡ self.now) }
    {
        match self {
            UnitRows::Fluent(rows) => Ok(UnitRows::Fluent(copy_all(alloc, rows.as_slice())?)),
            UnitRows::Event(points) => Ok(UnitRows::Event(points.copy()?)),
        }
    }
}
