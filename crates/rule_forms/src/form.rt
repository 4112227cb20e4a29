// What a description says, statement by statement.
ghost use Rattle.std.specs.Prelude.{◌≡◌};
ghost use Rattle.rule_forms.specs.Forms.{plain_form, atom_of, conditions_of};

use rt_base::{List, Word};

/// A declared name and the domains of its arguments, of which there may be none.
#[derive(Debug, Drop)]
pub struct Decl {
    pub name: Word,
    /// The names of domains.
    pub args: List<Word>,
}

/// An argument of an atom.
#[derive(Debug, Drop)]
pub enum Term {
    /// A word that begins with a lower-case letter or a digit; it has to be an entity of the domain
    /// of its place.
    Entity(Word),
    /// A word that begins with an upper-case letter.
    Variable(Word),
}

/// A name with its arguments, of which there may be none.
#[derive(Debug, Drop)]
pub struct Atom {
    pub name: Word,
    pub args: List<Term>,
}

/// A fluent-value: `ATOM = VALUE`.
#[derive(Debug, Drop)]
pub struct Fv {
    pub atom: Atom,
    pub value: Word,
}

/// What `happensAt` asks for in a condition.
#[derive(Debug, Drop)]
pub enum EventText {
    /// An input event or a derived event.
    Plain(Atom),
    /// `start(FV)`: the points after which a fluent-value begins to hold.
    Start(Fv),
    /// `end(FV)`: the points after which it ceases to hold.
    End(Fv),
}

/// A condition of a rule.
#[derive(Debug, Drop)]
pub enum Body {
    /// `happensAt(EVENT)`, or with `positive` false `not happensAt(EVENT)`.
    Happens { positive: bool, event: EventText },
    /// `holdsAt(FV)`, or with `positive` false `not holdsAt(FV)`.
    Holds { positive: bool, fv: Fv },
    /// `X \= Y`, of two variables.
    Unequal(Word, Word),
}

/// An expression over the intervals of fluent-values; at most eight constructs stand inside one
/// another.
#[derive(Debug, Drop)]
pub enum Tree {
    Leaf(Fv),
    /// `union_all([..])`, of at least one member, as in the other two.
    Union(Vec<Tree>),
    /// `intersect_all([..])`.
    Intersect(Vec<Tree>),
    /// `relative_complement_all(FIRST, [..])`.
    Complement(Box<Tree>, Vec<Tree>),
}

/// What a statement says. Numbers have at most 16 digits; lists of conditions and values have at
/// least one member.
#[derive(Debug, Drop)]
pub enum Form {
    /// `window(N).`
    Window(u64),
    /// `step(N).`
    Step(u64),
    /// `from(N).`
    From(u64),
    /// `queries(N).`
    Queries(u64),
    /// `domain NAME [ENTITIES].`, of which there may be none.
    Domain(Word, List<Word>),
    /// `input DECL.`
    Input(Decl),
    /// `simple DECL [VALUES].`
    Simple(Decl, List<Word>),
    /// `static DECL [VALUES].`
    Static(Decl, List<Word>),
    /// `derived DECL.`
    Derived(Decl),
    /// `initially(FV).`
    Initially(Fv),
    /// `initiatedAt(FV) :- CONDITIONS.`
    Initiated(Fv, List<Body>),
    /// `terminatedAt(FV) :- CONDITIONS.`
    Terminated(Fv, List<Body>),
    /// `happensAt(ATOM) :- CONDITIONS.`
    Happens(Atom, List<Body>),
    /// `holdsFor(FV) :- EXPRESSION.`
    HoldsFor(Fv, Tree),
}

/// The atom of an event: itself, or that of the fluent-value that begins or ends.
pub fn atom_of(event: &EventText) -> &Atom
    ensures { result.now ≡ atom_of event.now }
{
    match event {
        EventText::Plain(atom) => atom,
        EventText::Start(fv) => &fv.atom,
        EventText::End(fv) => &fv.atom,
    }
}

/// The conditions of a rule, the trigger among them, none where a statement has none.
pub fn conditions_of(form: &Form) -> &[Body]
    ensures { result.now ≡ conditions_of (plain_form form.now) }
{
    match form {
        Form::Initiated(_, bodies) => bodies.as_slice(),
        Form::Terminated(_, bodies) => bodies.as_slice(),
        Form::Happens(_, bodies) => bodies.as_slice(),
        _ => &[],
    }
}
