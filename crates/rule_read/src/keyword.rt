// Reserved words, and the kinds of words.
ghost use Rattle.std.specs.Prelude.{◌≡◌, true};
ghost use Rattle.std.specs.List.{list_all};
ghost use Rattle.rt_base.specs.Kinds.{is_letter, is_constant};
ghost use Rattle.rule_read.specs.Words.{spelled, keyword_of, is_of};
ghost use Rattle.rule_forms.specs.Sound.{is_variable};

use crate::token::is_letter;
use rt_base::is_name;

// A reserved word.
#[derive(Clone, Copy, Debug, PartialEq, Eq)]
pub(crate) enum Keyword {
    Window,
    Step,
    From,
    Queries,
    Domain,
    Input,
    Simple,
    Static,
    Derived,
    Initially,
    InitiatedAt,
    TerminatedAt,
    HappensAt,
    HoldsAt,
    HoldsFor,
    Start,
    End,
    Not,
    UnionAll,
    IntersectAll,
    RelativeComplementAll,
    Expires,
}

const KEYWORDS: [Keyword; 22] = [
    Keyword::Window,
    Keyword::Step,
    Keyword::From,
    Keyword::Queries,
    Keyword::Domain,
    Keyword::Input,
    Keyword::Simple,
    Keyword::Static,
    Keyword::Derived,
    Keyword::Initially,
    Keyword::InitiatedAt,
    Keyword::TerminatedAt,
    Keyword::HappensAt,
    Keyword::HoldsAt,
    Keyword::HoldsFor,
    Keyword::Start,
    Keyword::End,
    Keyword::Not,
    Keyword::UnionAll,
    Keyword::IntersectAll,
    Keyword::RelativeComplementAll,
    Keyword::Expires,
];

// How a reserved word is written.
pub(crate) fn text_of(keyword: Keyword) -> &'static [u8]
    ensures { result.now ≡ spelled keyword }
{
    match keyword {
        Keyword::Window => b"window",
        Keyword::Step => b"step",
        Keyword::From => b"from",
        Keyword::Queries => b"queries",
        Keyword::Domain => b"domain",
        Keyword::Input => b"input",
        Keyword::Simple => b"simple",
        Keyword::Static => b"static",
        Keyword::Derived => b"derived",
        Keyword::Initially => b"initially",
        Keyword::InitiatedAt => b"initiatedAt",
        Keyword::TerminatedAt => b"terminatedAt",
        Keyword::HappensAt => b"happensAt",
        Keyword::HoldsAt => b"holdsAt",
        Keyword::HoldsFor => b"holdsFor",
        Keyword::Start => b"start",
        Keyword::End => b"end",
        Keyword::Not => b"not",
        Keyword::UnionAll => b"union_all",
        Keyword::IntersectAll => b"intersect_all",
        Keyword::RelativeComplementAll => b"relative_complement_all",
        Keyword::Expires => b"expires",
    }
}

// The reserved word that a word is.
#[tactic(auto, unfolding(crate::specs::Words::keyword_of))]
pub(crate) fn reserved(word: &[u8]) -> Option<Keyword>
    ensures { result ≡ keyword_of word.now }
{
    KEYWORDS.iter().copied().find(|k| text_of(*k) == word)
}

// What a word is to be.
#[derive(Clone, Copy, Debug, PartialEq, Eq)]
pub(crate) enum Kind {
    // The name of a domain, an event or a fluent.
    Name,
    // An entity or a value.
    Constant,
    Variable,
}

fn are_letters(word: &[u8]) -> bool
    ensures { result ≡ list_all is_letter word.now }
{
    word.iter().all(|b| is_letter(*b))
}

fn is_constant(word: &[u8]) -> bool
    ensures { result ≡ is_constant word.now }
{
    match word {
        [] => false,
        [first, ..] => {
            (first.is_ascii_lowercase() || first.is_ascii_digit())
                && are_letters(word)
                && word.len() <= 64
        }
    }
}

fn is_variable(word: &[u8]) -> bool
    ensures { result ≡ is_variable word.now }
{
    match word {
        [] => false,
        [first, ..] => first.is_ascii_uppercase() && are_letters(word) && word.len() <= 64,
    }
}

impl Kind {
    // The word is of this kind.
    #[tactic(auto, using(crate::proofs::Letters::letters_of))]
    pub(crate) fn admits(self, word: &[u8]) -> bool
        ensures kind { result ≡ is_of self word.now }
        ensures letters { result ≡ true → list_all is_letter word.now ≡ true }
    {
        match self {
            Kind::Name => is_name(word),
            Kind::Constant => is_constant(word),
            Kind::Variable => is_variable(word),
        }
    }
}
