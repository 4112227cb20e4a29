// Ground events, units and values by their words.
ghost use Rattle.std.specs.Prelude.{◌≡◌, ◌<◌, ◌+◌, ◌*◌, ◌^◌, ◌++◌, ◌∷◌, [], true, length};
ghost use Rattle.std.specs.Prelude.{slice_get, position, option_copied, IfSome};
ghost use Rattle.std.specs.List.{list_all};
ghost use Rattle.std.specs.Str.{bytes_eq};
ghost use Rattle.ground_types.specs.Sound.{IsSound};
ghost use Rattle.ground_types.specs.Words.{place_in, entities_of};
ghost use Rattle.ground_names.specs.Counted.{capped};
ghost use Rattle.ground_names.specs.Found.{event_named, unit_named, name_of_unit, value_named};
ghost use Rattle.ground_names.specs.Noted.{spelled, asked};
ghost use Rattle.ground_names.specs.Reached.{begun, next_domain, stepped, number_at, named};

use ground_types::{Domain, EventId, Name, NameKind, Program, UnitId, Value};
use rt_base::Word;
use std::marker::Model;
use std::mem;
use std::snapshot::Snapshot;

// A word as contracts see it, letter by letter. No memory holds a whole one: what is kept is a
// snapshot, which takes no bytes.
#[cycle(spelling)]
#[derive(Drop)]
struct Spelling {
    last: Letter,
}

// The last letter of a word, behind those before it.
#[cycle(spelling)]
#[derive(Drop)]
enum Letter {
    Nothing,
    Further(Snapshot<Spelling>, u8),
}

impl Model for Spelling {
    ghost use Rattle.std.specs.Prelude.{List, ℕ, length};
    ghost use Rattle.std.proofs.Common.{arith, length-append};

    ghost Value = { List ℕ };

    ghost use Rattle.ground_names.specs.Noted.{spelled};

    ghost view = { λ s. spelled s.last };

    ghost size = { λ word. length word };

    ghost size_decreases = { λ a h. Prim.grind (arith, length-append) };
}

impl Letter {
    // A snapshot of the word that ends with this letter.
    fn noted(self) -> Snapshot<Spelling>
        ensures { result.value ≡ spelled self }
    {
        Snapshot::of(&Spelling { last: self })
    }
}

// A snapshot of a word. The loop is for contracts alone: nothing is left of what it makes.
fn noted_word(word: &[u8]) -> Snapshot<Spelling>
    ensures { result.value ≡ word.now }
{
    let mut noted = Letter::Nothing.noted();
    for letter in word {
        noted = Letter::Further(noted, *letter).noted();
    }
    noted
}

// A name and its arguments as contracts see them, word by word. What is kept is a snapshot of it
// too.
#[cycle(question)]
#[derive(Drop)]
struct Question {
    last: AskedWord,
}

// The last word of a name and its arguments, behind those before it.
#[cycle(question)]
#[derive(Drop)]
enum AskedWord {
    Name(Snapshot<Program>, Snapshot<Spelling>),
    Argument(Snapshot<Question>, Snapshot<Spelling>),
}

impl Model for Question {
    ghost use Rattle.std.specs.Prelude.{length};
    ghost use Rattle.std.proofs.Common.{arith, length-append};
    ghost use Rattle.ground_names.specs.Found.{Asked};

    ghost Value = { Asked };

    ghost use Rattle.ground_types.specs.contracts.program.Program as program;
    ghost use Rattle.std.specs.Coded.{codes};

    ghost coded = { Prim.hlevel (codes, program.the_row.coded) };

    ghost use Rattle.ground_names.specs.Noted.{asked};

    ghost view = { λ q. asked q.last };

    ghost size = { λ a. length a.args };

    ghost size_decreases = { λ a h. Prim.grind (arith, length-append) };
}

impl AskedWord {
    // A snapshot of the name and the arguments that end with this word.
    fn noted(self) -> Snapshot<Question>
        ensures { result.value ≡ asked self }
    {
        Snapshot::of(&Question { last: self })
    }
}

// How far words lead.
#[derive(Clone, Copy, Debug)]
struct Reached {
    // The place of the name among the names.
    name: usize,
    // How many arguments there were.
    count: usize,
    // Their place among all lists of so many, or the greatest number where it is more.
    place: u64,
}

/// A name and its arguments, word by word, on the way to the ground input event or the ground
/// fluent that they name. Contracts see the words and the program. It takes no memory: the number
/// of an event or unit is arithmetic on the places of its arguments.
#[derive(Drop)]
pub struct Finder {
    asked: Snapshot<Question>,
    // None once no event and no unit can be named.
    reached: Option<Reached>,
}

impl Model for Finder {
    ghost use Rattle.std.specs.Prelude.{◌≡◌, true};
    ghost use Rattle.std.specs.List.{list_all};
    ghost use Rattle.ground_names.specs.Counted.{has_small_numbers};
    ghost use Rattle.ground_names.specs.Found.{Asked};

    ghost Value = { Asked };

    ghost use Rattle.ground_types.specs.contracts.program.Program as program;
    ghost use Rattle.std.specs.Coded.{codes};

    ghost coded = { Prim.hlevel (codes, program.the_row.coded) };

    ghost use Rattle.ground_names.specs.Reached.{how_far};

    ghost view = { λ f. f.asked.value };

    ghost invariant = { λ f. (list_all (has_small_numbers f.asked.value.program.domains)
        f.asked.value.program.names ≡ true) × (f.reached ≡ how_far f.asked.value) };
}

/// The place of a word in a list, from 0; None where it does not stand there. The search walks
/// through the list.
pub fn place_in(words: &[Word], word: &[u8]) -> Option<usize>
    ensures { result ≡ place_in words.now word.now }
{
    words
        .iter()
        .position(|other| other.as_str().as_bytes() == word)
}

// The entities of the domain of this number, none where there is no such domain.
fn entities_of(domains: &[Domain], number: u32) -> &[Word]
    ensures { result.now ≡ entities_of domains.now number }
{
    match domains.get(number as usize) {
        Some(domain) => domain.entities.as_slice(),
        None => &[],
    }
}

// The place of the name with this word.
fn name_place(names: &[Name], word: &[u8]) -> Option<usize>
    ensures { result ≡ position (λ name. bytes_eq name.word word.now) names.now }
{
    names
        .iter()
        .position(|name| name.word.as_str().as_bytes() == word)
}

// A name leads to its place.
fn begun(program: &Program, word: &[u8]) -> Option<Reached>
    ensures { result ≡ begun program.now word.now }
{
    let name = name_place(program.names.as_slice(), word)?;
    Some(Reached {
        name,
        count: 0,
        place: 0,
    })
}

// The number of the domain of the next argument.
fn next_domain(program: &Program, reached: Reached) -> Option<u32>
    ensures domain { result ≡ next_domain program.now reached }
    ensures room { IfSome result (λ _. reached.count + 1 < 2 ^ 64) }
{
    let name = program.names.as_slice().get(reached.name)?;
    name.args.as_slice().get(reached.count).copied()
}

// The place of arguments with a further entity among so many, from that of those before it, or the
// greatest number where it is more.
fn further_place(place: u64, size: u64, entity: u64) -> u64
    ensures { result ≡ capped (place * size + entity) }
{
    place.saturating_mul(size).saturating_add(entity)
}

// One argument more leads on, if it is an entity of its domain and the name has so many.
fn stepped(program: &Program, reached: Option<Reached>, word: &[u8]) -> Option<Reached>
    ensures { result ≡ stepped program.now reached word.now }
{
    let reached = reached?;
    let domain = next_domain(program, reached)?;
    let entities = entities_of(program.domains.as_slice(), domain);
    let entity = place_in(entities, word)?;
    Some(Reached {
        name: reached.name,
        count: reached.count + 1,
        place: further_place(reached.place, entities.len() as u64, entity as u64),
    })
}

// The kind and the number of the ground event or unit, if the name has no further argument.
fn number_at(program: &Program, reached: Reached) -> Option<(NameKind, u32)>
    requires { IfSome (number_at program.now reached) (λ found. found.1 < 2 ^ 32) }
    ensures { result ≡ number_at program.now reached }
{
    let name = program.names.as_slice().get(reached.name)?;
    if reached.count == name.args.as_slice().len() {
        Some((name.kind, name.first + reached.place as u32))
    } else {
        None
    }
}

impl Finder {
    /// The words of an atom begin with the one of its name. The search walks through the names.
    pub fn name(program: &Program, word: &[u8]) -> Finder
        requires { IsSound program.now }
        ensures { result ≡ record { program = program.now; word = word.now; args = [] } }
    {
        Finder {
            asked: AskedWord::Name(Snapshot::of(program), noted_word(word)).noted(),
            reached: begun(program, word),
        }
    }

    /// A further argument. The search walks through the entities of the domain of its place.
    pub fn push(&mut self, program: &Program, word: &[u8])
        requires same { self.old.program ≡ program.now }
        ensures { self.new ≡ record {
          program = self.old.program;
          word = self.old.word;
          args = self.old.args ++ (word.now ∷ []);
        } }
    {
        let nothing = AskedWord::Name(Snapshot::of(program), Letter::Nothing.noted()).noted();
        let before = mem::replace(&mut self.asked, nothing);
        self.asked = AskedWord::Argument(before, noted_word(word)).noted();
        self.reached = stepped(program, self.reached, word);
    }

    // The kind and the number of the ground event or unit that the words name.
    fn named(&self, program: &Program) -> Option<(NameKind, u32)>
        requires same { self.now.program ≡ program.now }
        ensures { result ≡ named self.now }
    {
        number_at(program, self.reached?)
    }

    /// The ground input event that the words name; None where they name none.
    pub fn event(&self, program: &Program) -> Option<EventId>
        requires same { self.now.program ≡ program.now }
        ensures { result ≡ event_named self.now }
    {
        match self.named(program) {
            Some((NameKind::Input, event)) => Some(event),
            _ => None,
        }
    }

    /// The ground fluent that the words name; None where they name none.
    pub fn unit(&self, program: &Program) -> Option<UnitId>
        requires same { self.now.program ≡ program.now }
        ensures { result ≡ unit_named self.now }
    {
        match self.named(program) {
            Some((NameKind::Simple | NameKind::Static, unit)) => Some(unit),
            _ => None,
        }
    }
}

// The name of the unit of a number.
fn name_of_unit(program: &Program, unit: UnitId) -> Option<&Name>
    ensures { option_copied result ≡ name_of_unit program.now (slice_get program.now.units unit) }
{
    let unit = program.units.as_slice().get(unit as usize)?;
    program.names.as_slice().get(unit.name as usize)
}

/// The value of a fluent that the word names; None where it is none of its values. It takes no
/// memory: the search walks through the values.
pub fn value_of(program: &Program, unit: UnitId, word: &[u8]) -> Option<Value>
    requires { IsSound program.now }
    ensures { result ≡ value_named program.now unit word.now }
{
    let name = name_of_unit(program, unit)?;
    match name.kind {
        NameKind::Simple | NameKind::Static => {
            let value = place_in(name.values.as_slice(), word)?;
            Value::try_from(value).ok()
        }
        _ => None,
    }
}

// What is kept for contracts alone takes no memory.
const _: () = prove!(mem::size_of::<Snapshot<Question>>() == 0);
