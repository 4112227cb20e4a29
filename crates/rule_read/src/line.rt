// The canonical line of some tokens.
ghost use Rattle.std.specs.Prelude.{◌≡◌, ◌++◌, OnOk};
ghost use Rattle.rule_read.specs.Canonical.{mark_bytes, token_bytes, is_spaced, is_comma};
ghost use Rattle.rule_read.specs.Canonical.{opens_list, is_close, space_between, line_of};
ghost use Rattle.rule_read.specs.Lexed.{token, tokens};
ghost use Rattle.rule_read.specs.Printed.{space_behind};

use crate::token::{Mark, Token};
use rt_base::OutOfMemory;

fn mark_text(mark: Mark) -> &'static [u8]
    ensures { result.now ≡ mark_bytes mark }
{
    match mark {
        Mark::Open => b"(",
        Mark::Close => b")",
        Mark::OpenList => b"[",
        Mark::CloseList => b"]",
        Mark::Comma => b",",
        Mark::Equals => b"=",
        Mark::If => b":-",
        Mark::Differs => b"\\=",
        Mark::Stray => b"-",
    }
}

fn token_text<'a>(of: Token<'a>) -> &'a [u8]
    ensures { result.now ≡ token_bytes (token of.entry) }
{
    match of {
        Token::Word(text) => text,
        Token::Mark(mark) => mark_text(mark),
    }
}

fn is_spaced(mark: Mark) -> bool
    ensures { result ≡ is_spaced mark }
{
    matches!(mark, Mark::If | Mark::Differs)
}

fn is_comma(mark: Mark) -> bool
    ensures { result ≡ is_comma mark }
{
    matches!(mark, Mark::Comma)
}

fn opens_list(mark: Mark) -> bool
    ensures { result ≡ opens_list mark }
{
    matches!(mark, Mark::OpenList)
}

fn is_close(mark: Mark) -> bool
    ensures { result ≡ is_close mark }
{
    matches!(mark, Mark::Close)
}

// Whether a space stands between two neighbours.
fn space_between(one: Token<'_>, other: Token<'_>) -> bool
    ensures { result ≡ space_between (token one.entry) (token other.entry) }
{
    match (one, other) {
        (Token::Word(_), Token::Word(_)) => true,
        (Token::Word(_), Token::Mark(n)) => is_spaced(n) || opens_list(n),
        (Token::Mark(m), Token::Word(_)) => is_spaced(m) || is_comma(m),
        (Token::Mark(m), Token::Mark(n)) => {
            is_spaced(m) || is_comma(m) || is_spaced(n) || is_close(m) && opens_list(n)
        }
    }
}

// The space between a token and those behind it.
fn space_behind(one: Token<'_>, others: &[Token<'_>]) -> &'static [u8]
    ensures { result.now ≡ space_behind (token one.entry) (tokens others.now) }
{
    match others {
        [] => b"",
        [next, ..] => { if space_between(one, *next) { b" " } else { b"" } }
    }
}

// A token and the space behind it.
fn put_token(out: &mut Vec<u8>, one: Token<'_>, others: &[Token<'_>]) -> Result<(), OutOfMemory>
    ensures { OnOk result (out.new.items ≡ out.old.items ++ (token_bytes (token one.entry)
        ++ space_behind (token one.entry) (tokens others.now))) }
{
    out.extend_from_slice(token_text(one))?;
    out.extend_from_slice(space_behind(one, others))?;
    Ok(())
}

// The tokens of a statement, its dot and the end of the line.
pub(crate) fn put_line(out: &mut Vec<u8>, line: &[Token<'_>]) -> Result<(), OutOfMemory>
    ensures { OnOk result (out.new.items ≡ out.old.items ++ line_of (tokens line.now)) }
{
    let mut rest = line;
    while let [first, others @ ..] = rest {
        put_token(out, *first, others)?;
        rest = others;
    }
    out.extend_from_slice(b".\n")?;
    Ok(())
}
