// The places of the names in the bodies of one name.
ghost use Rattle.std.specs.Prelude.{◌≡◌, ◌++◌, ◌∷◌, [], IfOk};

use rt_base::OutOfMemory;
use std::alloc::Global;
use std::marker::Model;

// The places of the names in the bodies of a name, as often as they occur. Contracts see the list
// of them.
#[derive(Drop)]
pub(crate) struct Row {
    places: Vec<usize>,
}

impl Model for Row {
    ghost use Rattle.std.specs.Prelude.{ℕ, List};

    ghost Value = { List ℕ };

    ghost view = { λ row. row.places.items };
}

impl Row {
    // No places. It takes no memory.
    pub(crate) fn new(alloc: Global) -> Row
        ensures { result ≡ [] }
    {
        Row {
            places: Vec::new(alloc),
        }
    }

    // Puts a place behind the others.
    pub(crate) fn push(&mut self, place: usize) -> Result<(), OutOfMemory>
        ensures { IfOk result (λ _. self.new ≡ self.old ++ (place ∷ [])) }
    {
        self.places.push(place)?;
        Ok(())
    }

    // The places.
    pub(crate) fn as_slice(&self) -> &[usize]
        ensures { result.now ≡ self.now }
    {
        self.places.as_slice()
    }
}
