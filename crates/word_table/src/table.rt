// Tables of different words, in which a word's place is found by its bytes.
ghost use Rattle.std.specs.Prelude.{◌≡◌, ◌++◌, ◌∷◌, [], not, length, map, if◌then◌else◌, IfOk};
ghost use Rattle.ground_types.specs.Sound.{is_distinct};
ghost use Rattle.ground_types.specs.Words.{has, place_in};
ghost use Rattle.word_table.specs.Sets.{IsSetOf};

use crate::letters::Letters;
use crate::worded::Worded;
use indexmap::IndexSet;
use rt_base::{OutOfMemory, Word};
use std::alloc::Global;
use std::marker::Model;

/// Different words, in the order in which they were put in, hashed by their bytes. Contracts see
/// the list of them. It borrows the words.
#[derive(Drop)]
pub struct WordTable<'a> {
    words: IndexSet<Letters<'a>>,
}

impl<'a> Model for WordTable<'a> {
    ghost use Rattle.std.specs.Prelude.{ℕ, List, map};

    ghost Value = { List (List ℕ) };

    ghost view = { λ table. map (λ word. word.bytes.now) table.words.keys };
}

impl<'a> WordTable<'a> {
    /// No words. It takes no memory.
    pub fn new(alloc: Global) -> WordTable<'a>
        ensures { result ≡ [] }
    {
        WordTable {
            words: IndexSet::new(alloc),
        }
    }

    /// The words of some items, each once, in their order: a word that stands twice counts where it
    /// stands first. One insertion for each item. The one error is want of memory.
    pub fn of<T: Worded>(alloc: Global, items: &'a [T]) -> Result<WordTable<'a>, OutOfMemory>
        ensures { IfOk result (λ table. IsSetOf table (map T.word_of items.now)) }
    {
        let mut table = WordTable::new(alloc);
        for item in items {
            table.insert(item.word())?;
        }
        Ok(table)
    }

    /// Puts a word behind the others where it is not there, and says whether it was not. The one
    /// error is want of memory.
    pub fn insert(&mut self, word: &'a str) -> Result<bool, OutOfMemory>
        ensures added { IfOk result (λ added. added ≡ not (has self.old word.now)) }
        ensures words { IfOk result (λ added. self.new
            ≡ (if added then self.old ++ (word.now ∷ []) else self.old)) }
    {
        let (_, added) = self.words.insert_full(Letters {
            bytes: word.as_bytes(),
        })?;
        Ok(added)
    }

    /// Whether the word of these bytes is there. One look-up.
    pub fn contains(&self, word: &[u8]) -> bool
        ensures { result ≡ has self.now word.now }
    {
        self.words.contains(&Letters { bytes: word })
    }

    /// The place of the word of these bytes, from 0; None where it is not there. One look-up.
    pub fn place(&self, word: &[u8]) -> Option<usize>
        ensures { result ≡ place_in self.now word.now }
    {
        self.words.get_index_of(&Letters { bytes: word })
    }

    /// How many words there are.
    pub fn len(&self) -> usize
        ensures { result ≡ length self.now }
    {
        self.words.as_slice().len()
    }
}

/// Whether no word of a list stands twice. One insertion for each word, up to the first that does.
/// The one error is want of memory.
pub fn are_distinct(alloc: Global, words: &[Word]) -> Result<bool, OutOfMemory>
    ensures { IfOk result (λ answer. answer ≡ is_distinct words.now) }
{
    let mut seen = WordTable::new(alloc);
    for word in words {
        if !seen.insert(word.as_str())? {
            return Ok(false);
        }
    }
    Ok(true)
}
