// The plan that a description states.
ghost use Rattle.std.specs.Prelude.{◌≡◌, ℕ, List, Some, map};
ghost use Rattle.rule_forms.specs.Forms.{plain, plain_form};
ghost use Rattle.domain_decl.specs.Plans.{all_in, only, only_or, plan_by, plan_of};
ghost use Rattle.decl_known.specs.Sound.{is_allowed};
ghost use Rattle.domain_decl.specs.Given.{number_in, given_by, with_number};

use ground_types::Plan;
use rule_forms::{Form, Statement};

// A statement of a number.
#[derive(Clone, Copy, Debug, PartialEq, Eq)]
pub(crate) enum Kind {
    Window,
    Step,
    From,
    Queries,
}

// The numbers of all statements of one kind.
#[derive(Clone, Copy, Debug, PartialEq, Eq)]
pub(crate) enum Given {
    Nothing,
    One(u64),
    More,
}

// The number that a statement of this kind gives.
fn number_in(kind: Kind, form: &Form) -> Option<u64>
    ensures { result ≡ number_in kind (plain_form form.now) }
{
    match (kind, form) {
        (Kind::Window, Form::Window(n)) => Some(*n),
        (Kind::Step, Form::Step(n)) => Some(*n),
        (Kind::From, Form::From(n)) => Some(*n),
        (Kind::Queries, Form::Queries(n)) => Some(*n),
        _ => None,
    }
}

impl Given {
    // What is given with one more number, or without.
    fn with(self, number: Option<u64>) -> Given
        ensures { result ≡ with_number self number }
    {
        match (self, number) {
            (before, None) => before,
            (Given::Nothing, Some(n)) => Given::One(n),
            (_, Some(_)) => Given::More,
        }
    }

    // The only number.
    fn only(self) -> Option<u64>
        ensures { (ns : List ℕ) → self ≡ given_by ns → result ≡ only ns }
    {
        match self {
            Given::One(n) => Some(n),
            _ => None,
        }
    }

    // The only number, or this where there is none.
    fn only_or(self, default: u64) -> Option<u64>
        ensures { (ns : List ℕ) → self ≡ given_by ns → result ≡ only_or default ns }
    {
        match self {
            Given::Nothing => Some(default),
            Given::One(n) => Some(n),
            Given::More => None,
        }
    }
}

// The numbers of all statements of one kind.
fn numbers(kind: Kind, statements: &[Statement]) -> Given
    ensures { result ≡ given_by (all_in (number_in kind) (map plain statements.now)) }
{
    let mut given = Given::Nothing;
    for statement in statements {
        given = given.with(number_in(kind, &statement.form));
    }
    given
}

// A plan of these numbers, where they are allowed.
fn allowed(window: u64, step: u64, from: u64, queries: u64) -> Option<Plan>
    ensures { result ≡ plan_by (Some window) (Some step) (Some from) (Some queries) }
{
    if step < 1 || window < step || queries < 1 {
        return None;
    }
    if 1_000_000_000_000 < window || 4_000_000_000_000_000 < from || 1024 < queries {
        return None;
    }
    let queries = queries as u32;
    Some(Plan {
        window,
        step,
        from,
        queries,
    })
}

// The plan that the statements give, if it is one.
pub(crate) fn plan_of(statements: &[Statement]) -> Option<Plan>
    ensures { result ≡ plan_of (map plain statements.now) }
{
    let window = numbers(Kind::Window, statements).only()?;
    let step = numbers(Kind::Step, statements).only()?;
    let from = numbers(Kind::From, statements).only_or(0)?;
    let queries = numbers(Kind::Queries, statements).only_or(1024)?;
    allowed(window, step, from, queries)
}
