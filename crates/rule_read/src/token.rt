// Bytes by class, and tokens.
ghost use Rattle.std.specs.Prelude.{◌≡◌};
ghost use Rattle.rt_base.specs.Kinds.{is_letter};
ghost use Rattle.rule_read.specs.Bytes.{class_of};

// What a byte is for, outside comments.
#[derive(Clone, Copy, Debug, PartialEq, Eq)]
pub(crate) enum Class {
    Letter,
    Line,
    Gap,
    Percent,
    Open,
    Close,
    OpenList,
    CloseList,
    Comma,
    Dot,
    Equals,
    Colon,
    Dash,
    Backslash,
    Other,
}

// The class of a byte.
#[tactic(auto, unfolding(crate::specs::Bytes::class_of))]
pub(crate) fn class_at(b: u8) -> Class
    ensures { result ≡ class_of b }
{
    if b.is_ascii_alphanumeric() {
        return Class::Letter;
    }
    match b {
        b'_' => Class::Letter,
        b'\n' => Class::Line,
        b' ' | b'\t' | b'\r' => Class::Gap,
        b'%' => Class::Percent,
        b'(' => Class::Open,
        b')' => Class::Close,
        b'[' => Class::OpenList,
        b']' => Class::CloseList,
        b',' => Class::Comma,
        b'.' => Class::Dot,
        b'=' => Class::Equals,
        b':' => Class::Colon,
        b'-' => Class::Dash,
        b'\\' => Class::Backslash,
        _ => Class::Other,
    }
}

// The byte is of a word.
#[tactic(auto, unfolding(crate::specs::Bytes::class_of))]
pub(crate) fn is_letter(b: u8) -> bool
    ensures { result ≡ is_letter b }
{
    matches!(class_at(b), Class::Letter)
}

// A token that is neither a word nor a dot.
#[derive(Clone, Copy, Debug, PartialEq, Eq)]
pub(crate) enum Mark {
    Open,
    Close,
    OpenList,
    CloseList,
    Comma,
    Equals,
    If,
    Differs,
    Stray,
}

// A token that is no dot.
#[derive(Clone, Copy, Debug)]
pub(crate) enum Token<'a> {
    Word(&'a [u8]),
    Mark(Mark),
}

// What stands at the front of a text, gaps and comments aside.
#[derive(Clone, Copy, Debug)]
pub(crate) enum Lexeme<'a> {
    Token(Token<'a>),
    Dot,
    Bad,
    End,
}

// How a statement ends.
#[derive(Clone, Copy, Debug, PartialEq, Eq)]
pub(crate) enum Ending {
    Dot,
    // The text ends.
    End,
    // A byte that may not stand there.
    Bad,
}
