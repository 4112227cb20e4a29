// Declared names and domains, with look-ups by their words.
ghost use Rattle.std.specs.Prelude.{◌≡◌, ◌++◌, true, option_copied, slice_get, IfOk};
ghost use Rattle.ground_types.specs.Sound.{is_distinct};
ghost use Rattle.ground_types.specs.Words.{has, place_in, domain_words, name_words, declaration};
ghost use Rattle.ground_types.specs.Words.{entities_of};
ghost use Rattle.word_table.specs.Sets.{IsSetOf};
ghost use Rattle.decl_known.specs.Known.{AreEntities};

use ground_types::{Domain, Name};
use rt_base::{OutOfMemory, Word};
use std::alloc::Global;
use word_table::WordTable;

/// Declared domains and names, with hash tables in which their words are found. It borrows the
/// lists and copies no word; it is made in one pass over the names and the entities.
#[derive(Drop)]
pub struct Known<'a> {
    /// The domains that it was made of, in declared order.
    pub domains: &'a [Domain],
    /// The names that it was made of, in declared order.
    pub names: &'a [Name],
    // The words of the names, each at the place of its name.
    by_word: WordTable<'a>,
    // The entities of each domain, each at its place where no two of them are the same.
    entities: Vec<WordTable<'a>>,
    ghost placed: { by_word ≡ name_words names.now },
    ghost entities_known: { AreEntities entities.items domains.now },
}

// For each domain the set of its entities.
fn entities_of<'a>(alloc: Global, domains: &'a [Domain]) -> Result<Vec<WordTable<'a>>, OutOfMemory>
    ensures { IfOk result (λ sets. AreEntities sets.items domains.now) }
{
    let mut sets = Vec::with_capacity(alloc, domains.len())?;
    for domain in domains {
        sets.push(WordTable::of(alloc, domain.entities.as_slice())?)?;
    }
    Ok(sets)
}

fn has_domain(domains: &[Domain], word: &Word) -> bool
    ensures { result ≡ has (domain_words domains.now) word.now }
{
    domains
        .iter()
        .any(|domain| domain.word.as_str() == word.as_str())
}

fn name_at<'a>(names: &'a [Name], place: usize) -> Option<&'a Name>
    ensures { option_copied result ≡ slice_get names.now place }
{
    names.get(place)
}

impl<'a> Known<'a> {
    /// The tables of these domains and names, such as `check` gives. No word may be declared twice,
    /// domains and names together. One look-up and an insertion for each name and each entity.
    pub fn new(
        alloc: Global,
        domains: &'a [Domain],
        names: &'a [Name],
    ) -> Result<Known<'a>, OutOfMemory>
        requires { is_distinct (domain_words domains.now ++ name_words names.now) ≡ true }
        ensures domains { IfOk result (λ known. known.domains.now ≡ domains.now) }
        ensures names { IfOk result (λ known. known.names.now ≡ names.now) }
    {
        let by_word = WordTable::of(alloc, names)?;
        let entities = entities_of(alloc, domains)?;
        Ok(Known {
            domains,
            names,
            by_word,
            entities,
        })
    }

    /// The place of the fluent or event of this name among the names, from 0; None where there is
    /// none. One look-up.
    pub fn place(&self, word: &Word) -> Option<usize>
        ensures { result ≡ place_in (name_words self.now.names.now) word.now }
    {
        self.by_word.place(word.as_str().as_bytes())
    }

    /// The declaration of the fluent or event of this name; None where there is none, as for a
    /// domain. One look-up.
    pub fn declaration(&self, word: &Word) -> Option<&'a Name>
        ensures { option_copied result ≡ declaration self.now.names.now word.now }
    {
        let place = self.by_word.place(word.as_str().as_bytes())?;
        name_at(self.names, place)
    }

    /// Whether a domain, a fluent or an event is declared by this word. One look-up, and where that
    /// finds no name, a walk over the domains.
    #[tactic(auto, using(word_table::proofs::LookUps::has_either))]
    pub fn is_declared(&self, word: &Word) -> bool
        ensures { result ≡ has (domain_words self.now.domains.now ++ name_words self.now.names.now)
            word.now }
    {
        self.by_word.contains(word.as_str().as_bytes()) || has_domain(self.domains, word)
    }

    /// Whether a word is an entity of the domain of this number, counted from 0 in declared order;
    /// false where there is no such domain. One look-up.
    pub fn is_entity(&self, domain: u32, word: &Word) -> bool
        ensures { result ≡ has (entities_of self.now.domains.now domain) word.now }
    {
        match self.entities.get(domain as usize) {
            Some(set) => set.contains(word.as_str().as_bytes()),
            None => false,
        }
    }

    /// The number of an entity in the domain of this number, both counted from 0 in declared order;
    /// None where it is none. The entities of the domain have to be different, as `check` sees to.
    /// One look-up.
    pub fn entity(&self, domain: u32, word: &Word) -> Option<usize>
        ensures { is_distinct (entities_of self.now.domains.now domain) ≡ true
            → result ≡ place_in (entities_of self.now.domains.now domain) word.now }
    {
        match self.entities.get(domain as usize) {
            Some(set) => set.place(word.as_str().as_bytes()),
            None => None,
        }
    }
}
