// What was checked, and why it was not accepted.
use ground_types::{Domain, Name, Plan};
use rt_base::{List, OutOfMemory};
use rule_forms::Statement;

/// What a description says, where its plan, its declarations and its rules are accepted.
#[derive(Debug, Drop)]
pub struct Checked {
    pub plan: Plan,
    /// In declared order.
    pub domains: List<Domain>,
    /// In declared order. Their ground events and units are not numbered yet: each `first` is 0.
    pub names: List<Name>,
    /// The `initially`, `initiatedAt`, `terminatedAt`, `happensAt` and `holdsFor` statements, in
    /// the order of the text.
    pub rules: List<Statement>,
}

/// The first rule that a description breaks: of those on the plan, then of those on declarations in
/// the order of the text, then of those on rules in the order of the text. A line is that on which
/// the refused statement begins, counted from 1.
#[derive(Clone, Copy, Debug, PartialEq, Eq)]
pub enum DeclRefused {
    /// Not exactly one `window` and one `step`, more than one `from` or `queries`, or numbers that
    /// are not allowed.
    BadPlan,
    /// More than 64 domains, 4,096 entities, 3 arguments, 64 values, 8 conditions or 64 leaves.
    TooMany { line: u32 },
    /// An argument that is no domain, a name that is declared nowhere, a value that its fluent does
    /// not have, or an entity that is not in the domain of its place.
    Undeclared { line: u32 },
    /// A name that was declared before, or an entity or a value that stands twice in its list.
    Twice { line: u32 },
    /// The first condition of a rule is not a positive `happensAt`.
    NoTrigger { line: u32 },
    /// An atom that names another kind of fluent or event than has to stand there, or a domain.
    WrongKind { line: u32 },
    /// An atom with another number of arguments than its declaration.
    Arity { line: u32 },
    /// A variable at places of two different domains.
    Clash { line: u32 },
    /// A variable of an expression that is not in the head, or one of `\=` that stands in no atom.
    Loose { line: u32 },
    /// Memory ran out. No clause ties this answer to a refused growth.
    OutOfMemory,
}

impl From<OutOfMemory> for DeclRefused {
    ghost use Rattle.std.specs.Prelude.{◌≡◌};
    ghost use Rattle.decl_known.specs.declared.checked.DeclRefused.TheVariants.{OutOfMemory};

    ghost from_gives = { λ _ e. e ≡ OutOfMemory };

    fn from(_: OutOfMemory) -> DeclRefused {
        DeclRefused::OutOfMemory
    }
}
