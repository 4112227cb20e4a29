// Words that wait for a later query.
ghost use Rattle.std.specs.Prelude.{◌≡◌, ◌<◌, ◌++◌, ◌∷◌, [], length, replicate, slice_index_or};
ghost use Rattle.std.specs.Prelude.{slice_set, IfOk, OnOk, OnErr};

use crate::Told;
use rt_base::OutOfMemory;
use std::alloc::Global;
use std::marker::Model;

// The words of one query, in the order in which they were told.
#[derive(Drop)]
struct Waiting {
    words: Vec<Told>,
}

impl Model for Waiting {
    ghost use Rattle.std.specs.Prelude.{List};
    ghost use Rattle.event_store.specs.declared.told.Told.{Told};

    ghost Value = { List Told };

    ghost view = { λ waiting. waiting.words.items };
}

impl Waiting {
    // No word. It takes no memory.
    fn new(alloc: Global) -> Waiting
        ensures { result ≡ [] }
    {
        Waiting {
            words: Vec::new(alloc),
        }
    }

    // Puts a word behind the others.
    fn put(&mut self, told: Told) -> Result<(), OutOfMemory>
        ensures put { OnOk result (self.new ≡ self.old ++ told ∷ []) }
        ensures refused { OnErr result (self.new ≡ self.old) }
    {
        self.words.push(told)?;
        Ok(())
    }

    // The words.
    fn as_slice(&self) -> &[Told]
        ensures { result.now ≡ self.now }
    {
        self.words.as_slice()
    }
}

/// Words that are told of later queries. Contracts see one list for each query, of the words in the
/// order in which they were told.
#[derive(Drop)]
pub struct Ahead {
    alloc: Global,
    lists: Vec<Waiting>,
}

impl Model for Ahead {
    ghost use Rattle.std.specs.Prelude.{List};
    ghost use Rattle.event_store.specs.declared.told.Told.{Told};

    ghost Value = { List (List Told) };

    ghost view = { λ ahead. ahead.lists.items };
}

impl Ahead {
    /// An empty list for each of so many queries, or `OutOfMemory`.
    pub fn new(alloc: Global, count: u32) -> Result<Ahead, OutOfMemory>
        ensures { IfOk result (λ ahead. ahead ≡ replicate count []) }
    {
        let mut lists = Vec::with_capacity(alloc, count as usize)?;
        for _turn in 0..count {
            lists.push(Waiting::new(alloc))?;
        }
        Ok(Ahead { alloc, lists })
    }

    /// Puts a word behind those that are told of a query. `OutOfMemory` leaves all lists as they
    /// were.
    pub fn put(&mut self, query: u32, told: Told) -> Result<(), OutOfMemory>
        requires { query < length self.old }
        ensures put { OnOk result (self.new ≡ slice_set self.old query
            (slice_index_or self.old query [] ++ told ∷ [])) }
        ensures refused { OnErr result (self.new ≡ self.old) }
    {
        self.lists[query as usize].put(told)
    }

    /// The words that are told of a query, in the order in which they were told.
    pub fn told(&self, query: u32) -> &[Told]
        requires { query < length self.now }
        ensures { result.now ≡ slice_index_or self.now query [] }
    {
        self.lists[query as usize].as_slice()
    }

    /// Forgets the words that are told of a query, and gives their memory back.
    pub fn clear(&mut self, query: u32)
        requires { query < length self.old }
        ensures { self.new ≡ slice_set self.old query [] }
    {
        self.lists[query as usize] = Waiting::new(self.alloc);
    }
}
