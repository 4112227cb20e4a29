// Names with their first ground events and units.
ghost use Rattle.std.specs.Prelude.{◌≡◌, ◌+◌, ◌^◌, ◌<◌, ◌≤◌, true, IfOk, if◌then◌else◌};
ghost use Rattle.std.specs.List.{list_all};
ghost use Rattle.ground_types.specs.Sound.{is_input};
ghost use Rattle.decl_known.specs.Sound.{is_sound_domain};
ghost use Rattle.ground_names.specs.Numbers.{with_first, numbered};
ghost use Rattle.ground_rules.specs.Grounded.{event_count};
ghost use Rattle.ground_rules.specs.Limits.{unit_count};

use ground_names::count_arguments;
use ground_types::{Domain, Name, NameKind};
use rt_base::{List, OutOfMemory, Word};
use std::alloc::Global;

// A copy of words.
fn copied_words(alloc: Global, words: &[Word]) -> Result<List<Word>, OutOfMemory>
    ensures { IfOk result (λ list. list ≡ words.now) }
{
    let mut list = Vec::with_capacity(alloc, words.len())?;
    for word in words {
        list.push(Word::new(alloc, word.as_str())?)?;
    }
    Ok(List::of(list))
}

// Copies of domains.
pub(crate) fn copied_domains(alloc: Global, domains: &[Domain]) -> Result<List<Domain>, OutOfMemory>
    ensures { IfOk result (λ list. list ≡ domains.now) }
{
    let mut list = Vec::with_capacity(alloc, domains.len())?;
    for domain in domains {
        list.push(Domain {
            word: Word::new(alloc, domain.word.as_str())?,
            entities: copied_words(alloc, domain.entities.as_slice())?,
        })?;
    }
    Ok(List::of(list))
}

// A copy of a name with this first event or unit.
fn with_first(alloc: Global, first: u32, name: &Name) -> Result<Name, OutOfMemory>
    ensures { IfOk result (λ copy. copy ≡ with_first first name.now) }
{
    Ok(Name {
        word: Word::new(alloc, name.word.as_str())?,
        kind: name.kind,
        args: List::of(Vec::from_slice(alloc, name.args.as_slice())?),
        values: copied_words(alloc, name.values.as_slice())?,
        first,
        line: name.line,
    })
}

// How many ground events and units have numbers.
#[derive(Clone, Copy)]
struct Counts {
    events: u32,
    units: u32,
}

impl Counts {
    // The first number of a name of this kind, which has so many of them.
    fn first(&mut self, kind: NameKind, count: u32) -> u32
        requires events { self.old.events + count < 2 ^ 32 }
        requires units { self.old.units + count < 2 ^ 32 }
        ensures first { result ≡ (if is_input kind then self.old.events else self.old.units) }
        ensures events { self.new.events ≡ (if is_input kind then self.old.events + count
            else self.old.events) }
        ensures units { self.new.units ≡ (if is_input kind then self.old.units
            else self.old.units + count) }
    {
        match kind {
            NameKind::Input => {
                let first = self.events;
                self.events += count;
                first
            }
            _ => {
                let first = self.units;
                self.units += count;
                first
            }
        }
    }
}

// Copies of names, numbered.
pub(crate) fn numbered(
    alloc: Global,
    domains: &[Domain],
    names: &[Name],
) -> Result<List<Name>, OutOfMemory>
    requires sound { list_all is_sound_domain domains.now ≡ true }
    requires units { unit_count domains.now names.now ≤ 65536 }
    requires events { event_count domains.now names.now ≤ 16777216 }
    ensures { IfOk result (λ list. list ≡ numbered domains.now 0 0 names.now) }
{
    let mut list = Vec::with_capacity(alloc, names.len())?;
    let mut counts = Counts {
        events: 0,
        units: 0,
    };
    for name in names {
        let count = count_arguments(domains, name.args.as_slice()) as u32;
        let first = counts.first(name.kind, count);
        list.push(with_first(alloc, first, name)?)?;
    }
    Ok(List::of(list))
}
