// A program without variables.
use crate::{EventId, Plan, UnitId, Value};
use rt_base::{List, Word};

/// What `happensAt` asks for.
#[derive(Clone, Copy, Debug, PartialEq, Eq)]
pub enum Trigger {
    /// A ground input event.
    Event(EventId),
    /// A ground derived event.
    Derived(UnitId),
    /// The points after which a value holds and at which it does not.
    Start(UnitId, Value),
    /// The points at which a value holds and after which it does not.
    End(UnitId, Value),
}

/// What a condition asks for.
#[derive(Clone, Copy, Debug, PartialEq, Eq)]
pub enum What {
    Happens(Trigger),
    Holds(UnitId, Value),
}

/// A condition, or with `positive` false its contrary.
#[derive(Clone, Copy, Debug, PartialEq, Eq)]
pub struct Cond {
    pub positive: bool,
    pub what: What,
}

/// An instance of a rule: the value that it initiates or terminates (0 for a derived event), its
/// first condition, and its further conditions.
#[derive(Debug, Drop)]
pub struct Rule {
    pub value: Value,
    pub trigger: Trigger,
    pub conds: List<Cond>,
}

/// An expression over the intervals of fluent-values.
#[derive(Debug, Drop)]
pub enum Expr {
    /// The intervals of a fluent-value.
    Row(UnitId, Value),
    /// `union_all`.
    Union(Vec<Expr>),
    /// `intersect_all`, of at least one member.
    Intersect(Vec<Expr>),
    /// `relative_complement_all`: the first and none of the others.
    Complement(Box<Expr>, Vec<Expr>),
}

/// What a unit is and the instances that define it.
#[derive(Debug, Drop)]
pub enum UnitKind {
    /// A simple fluent: its value at the first value point of query 0, and the rules that initiate
    /// and terminate its values.
    Simple {
        initially: Option<Value>,
        initiate: List<Rule>,
        terminate: List<Rule>,
    },
    /// A statically determined fluent: for each value the union of its instances' expressions, of
    /// no member where there is none.
    Static(List<Expr>),
    /// A derived event.
    Derived(List<Rule>),
}

/// A ground fluent with all its values, or a ground derived event.
#[derive(Debug, Drop)]
pub struct Unit {
    /// The number of its name.
    pub name: u32,
    /// For each argument the number of its entity in the domain.
    pub args: List<u32>,
    pub kind: UnitKind,
}

/// A domain and its entities, in declared order.
#[derive(Debug, Drop)]
pub struct Domain {
    pub word: Word,
    pub entities: List<Word>,
}

/// What a name is declared as.
#[derive(Clone, Copy, Debug, PartialEq, Eq)]
pub enum NameKind {
    Input,
    Simple,
    Static,
    Derived,
}

/// A declared name.
#[derive(Debug, Drop)]
pub struct Name {
    pub word: Word,
    pub kind: NameKind,
    /// For each argument the number of its domain.
    pub args: List<u32>,
    /// The values of a fluent, in declared order.
    pub values: List<Word>,
    /// Its first ground event or unit.
    pub first: u32,
    /// The line of its declaration, counted from 1.
    pub line: u32,
}

/// A program without variables.
#[derive(Debug, Drop)]
pub struct Program {
    pub plan: Plan,
    pub domains: List<Domain>,
    pub names: List<Name>,
    pub units: List<Unit>,
    /// The units of layer 1, of layer 2 and so on: a unit's rules name units of earlier layers
    /// only.
    pub layers: List<List<UnitId>>,
    /// How many ground input events there are.
    pub events: u32,
}

/// The values that a window opens with, one for each unit; None for units that are not simple.
#[derive(Debug, Drop)]
pub struct Opening {
    pub values: List<Option<Value>>,
}
