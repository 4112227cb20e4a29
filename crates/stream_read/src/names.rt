// What words name in a program, found by tables that are made once.
ghost use Rattle.std.specs.Prelude.{◌≡◌, true, map, option_copied, option_and_then, slice_get};
ghost use Rattle.std.specs.Prelude.{IfOk, IfSome};
ghost use Rattle.std.specs.List.{list_all};
ghost use Rattle.ground_types.specs.Sound.{IsSound, are_constants, is_distinct};
ghost use Rattle.ground_types.specs.Words.{name_words, declaration};
ghost use Rattle.ground_names.specs.Counted.{has_small_numbers};
ghost use Rattle.ground_names.specs.Found.{entities_named, event_named, unit_named};
ghost use Rattle.ground_names.specs.Numbers.{number_of};
ghost use Rattle.stream_read.specs.Looked.{further, place_from};

use crate::fields::Fields;
use ground_types::{Domain, EventId, Name, NameKind, Program, UnitId};
use rt_base::OutOfMemory;
use std::alloc::Global;
use word_table::WordTable;

// A program with tables in which its names and its entities are found. It borrows the program and
// copies no word.
#[derive(Drop)]
pub(crate) struct Names<'a> {
    // The program that it was made of.
    pub program: &'a Program,
    // The words of the names, each at the place of its name.
    by_word: WordTable<'a>,
    // The entities of each domain, each at its place.
    entities: Vec<WordTable<'a>>,
    ghost small: { list_all (has_small_numbers program.now.domains) program.now.names ≡ true },
    ghost placed: { by_word ≡ name_words program.now.names },
    ghost listed: { entities.items ≡ map (λ domain. domain.entities) program.now.domains },
}

// The table of the entities of a domain.
fn table_of(alloc: Global, domain: &Domain) -> Result<WordTable<'_>, OutOfMemory>
    requires { is_distinct domain.now.entities ≡ true }
    ensures { IfOk result (λ table. table ≡ domain.now.entities) }
{
    let table = WordTable::of(alloc, domain.entities.as_slice())?;
    Ok(table)
}

// For each domain the table of its entities.
fn tables_of<'a>(alloc: Global, domains: &'a [Domain]) -> Result<Vec<WordTable<'a>>, OutOfMemory>
    requires { list_all (λ domain. are_constants domain.entities) domains.now ≡ true }
    ensures { IfOk result (λ tables. tables.items ≡ map (λ domain. domain.entities) domains.now) }
{
    let mut tables = Vec::with_capacity(alloc, domains.len())?;
    for domain in domains {
        tables.push(table_of(alloc, domain)?)?;
    }
    Ok(tables)
}

impl<'a> Names<'a> {
    // The tables of a program. One insertion for each name and each entity.
    pub(crate) fn new(alloc: Global, program: &'a Program) -> Result<Names<'a>, OutOfMemory>
        requires { IsSound program.now }
        ensures { IfOk result (λ names. names.program.now ≡ program.now) }
    {
        let by_word = WordTable::of(alloc, program.names.as_slice())?;
        let entities = tables_of(alloc, program.domains.as_slice())?;
        Ok(Names {
            program,
            by_word,
            entities,
        })
    }

    // The name at a place.
    fn name_at(&self, place: usize) -> Option<&'a Name>
        ensures at { option_copied result ≡ slice_get self.now.program.now.names place }
        ensures small { IfSome result (λ name. has_small_numbers self.now.program.now.domains
            name.now ≡ true) }
    {
        self.program.names.as_slice().get(place)
    }

    // The name of this word. One look-up.
    fn name(&self, word: &[u8]) -> Option<&'a Name>
        ensures declared { option_copied result ≡ declaration self.now.program.now.names word.now }
        ensures small { IfSome result (λ name. has_small_numbers self.now.program.now.domains
            name.now ≡ true) }
    {
        let place = self.by_word.place(word)?;
        self.name_at(place)
    }

    // The place of arguments with a further one among all of so many, from that of those before it;
    // the greatest number where it is more, and None where the word is no entity of the domain. One
    // look-up.
    fn further(&self, place: u64, domain: u32, word: &[u8]) -> Option<u64>
        ensures { result ≡ further self.now.program.now.domains place domain word.now }
    {
        let entities = self.entities.as_slice().get(domain as usize)?;
        let entity = entities.place(word)?;
        let before = place.saturating_mul(entities.len() as u64);
        Some(before.saturating_add(entity as u64))
    }

    // The place of these arguments among all of a name; None where they are none of its.
    fn place(&self, name: &Name, fields: &mut Fields) -> Option<u64>
        ensures { result ≡ place_from self.now.program.now.domains 0 name.now.args fields.old }
    {
        let mut place = 0;
        for domain in name.args.as_slice() {
            let word = fields.next()?;
            place = self.further(place, *domain, word)?;
        }
        match fields.next() {
            Some(_) => None,
            None => Some(place),
        }
    }

    // The number of the ground event or unit of a name with these arguments; None where they are
    // none of its.
    fn number(&self, name: &Name, fields: &mut Fields) -> Option<u32>
        requires { has_small_numbers self.now.program.now.domains name.now ≡ true }
        ensures { result ≡ option_and_then (number_of self.now.program.now.domains name.now)
            (entities_named self.now.program.now.domains name.now.args fields.old) }
    {
        let place = self.place(name, fields)?;
        Some(name.first + place as u32)
    }

    // The ground input event that a name and the fields that are left name; None where they name
    // none. One look-up for each word.
    pub(crate) fn event(&self, word: &[u8], fields: &mut Fields) -> Option<EventId>
        ensures { result ≡ event_named (record {
          program = self.now.program.now;
          word = word.now;
          args = fields.old;
        }) }
    {
        let name = self.name(word)?;
        match name.kind {
            NameKind::Input => self.number(name, fields),
            _ => None,
        }
    }

    // The ground fluent that a name and the fields that are left name; None where they name none.
    // One look-up for each word.
    pub(crate) fn unit(&self, word: &[u8], fields: &mut Fields) -> Option<UnitId>
        ensures { result ≡ unit_named (record {
          program = self.now.program.now;
          word = word.now;
          args = fields.old;
        }) }
    {
        let name = self.name(word)?;
        match name.kind {
            NameKind::Simple | NameKind::Static => self.number(name, fields),
            _ => None,
        }
    }
}
