// The tokens of a text, one after the other.
ghost use Rattle.std.specs.Prelude.{◌≡◌, ◌+◌, ◌<◌, ◌≤◌, ◌^◌, length, IfOk, ℕ, Some, not, ◌==◌};
ghost use Rattle.std.specs.List.{prefix_len};
ghost use Rattle.rt_base.specs.Kinds.{is_letter};
ghost use Rattle.rule_read.specs.Tokens.{cut, pieces, Comment};
ghost use Rattle.rule_read.specs.Sentences.{first_bad};
ghost use Rattle.rule_read.specs.Lexed.{tokens, Takes, Steps, line_then, Ended, Shorter};
ghost use Rattle.rule_read.specs.Lexed.{ShorterStep, ShorterAt};

use crate::token::{Class, Ending, Lexeme, Mark, Token, class_at, is_letter};
use std::alloc::AllocError;

// A place in a text.
#[derive(Drop)]
pub(crate) struct Lexer<'a> {
    pub(crate) rest: &'a [u8],
    pub(crate) line: u32,
    ghost few: { line + length rest.now < 2 ^ 32 },
}

// How many letters stand at the front.
#[tactic(auto, using(crate::proofs::Runs::letters_within))]
fn letters(bytes: &[u8]) -> usize
    ensures count { result ≡ prefix_len is_letter bytes.now }
    ensures within { result ≤ length bytes.now }
{
    bytes.iter().take_while(|b| is_letter(**b)).count()
}

// How many bytes stand before the end of the line.
#[tactic(auto, using(crate::proofs::Runs::in_comment_within))]
fn to_line_end(bytes: &[u8]) -> usize
    ensures count { result ≡ prefix_len (λ b. not (b == 10)) bytes.now }
    ensures within { result ≤ length bytes.now }
{
    bytes.iter().take_while(|b| **b != b'\n').count()
}

// The line of a statement's first token: the new one where there is none yet.
fn first_line(found: &[Token<'_>], old: u32, new: u32) -> u32
    ensures { result ≡ line_then (tokens found.now) old new }
{
    match found {
        [] => new,
        [_, ..] => old,
    }
}

// What stands behind a comment.
#[tactic(auto, using(crate::proofs::Runs::comment_passes))]
fn behind_comment(bytes: &[u8]) -> &[u8]
    ensures shorter { length result.now ≤ length bytes.now }
    ensures same { (line : ℕ) → cut line Comment bytes.now ≡ pieces line result.now }
{
    let (_, rest) = bytes.split_at(to_line_end(bytes));
    rest
}

impl<'a> Lexer<'a> {
    // Passes over a mark.
    fn mark(&mut self, rest: &'a [u8], mark: Mark) -> Option<Lexeme<'a>>
        requires { length rest.now < length self.old.rest.now }
        ensures line { self.new.line ≡ self.old.line }
        ensures rest { self.new.rest.now ≡ rest.now }
        ensures found { result ≡ Some (Lexeme.Token (Token.Mark mark)) }
    {
        self.rest = rest;
        Some(Lexeme::Token(Token::Mark(mark)))
    }

    // The next piece, or None behind a gap or a comment.
    #[tactic(auto, using(crate::proofs::Runs::word_is_said, crate::proofs::Runs::word_starts), unfolding(crate::specs::Tokens::cut))]
    fn step(&mut self) -> Option<Lexeme<'a>>
        ensures shorter { ShorterStep result (length self.old.rest.now) (length self.new.rest.now) }
        ensures steps { Steps (pieces self.old.line self.old.rest.now) self.new.line result
            (pieces self.new.line self.new.rest.now) }
    {
        let rest = match self.rest {
            [] => return Some(Lexeme::End),
            [_, rest @ ..] => rest,
        };
        match class_at(self.rest[0]) {
            Class::Letter => {
                let count = letters(self.rest);
                let (word, rest) = self.rest.split_at(count);
                self.rest = rest;
                Some(Lexeme::Token(Token::Word(word)))
            }
            Class::Line => {
                self.rest = rest;
                self.line += 1;
                None
            }
            Class::Gap => {
                self.rest = rest;
                None
            }
            Class::Percent => {
                self.rest = behind_comment(rest);
                None
            }
            Class::Open => self.mark(rest, Mark::Open),
            Class::Close => self.mark(rest, Mark::Close),
            Class::OpenList => self.mark(rest, Mark::OpenList),
            Class::CloseList => self.mark(rest, Mark::CloseList),
            Class::Comma => self.mark(rest, Mark::Comma),
            Class::Equals => self.mark(rest, Mark::Equals),
            Class::Dash => self.mark(rest, Mark::Stray),
            Class::Dot => {
                self.rest = rest;
                Some(Lexeme::Dot)
            }
            Class::Other => {
                self.rest = rest;
                Some(Lexeme::Bad)
            }
            Class::Colon => match rest {
                [b'-', rest @ ..] => self.mark(rest, Mark::If),
                _ => self.mark(rest, Mark::Stray),
            },
            Class::Backslash => match rest {
                [b'=', rest @ ..] => self.mark(rest, Mark::Differs),
                _ => self.mark(rest, Mark::Stray),
            },
        }
    }

    // The next piece.
    #[tactic(auto, using(crate::proofs::Sentences::shorter_still))]
    pub(crate) fn piece(&mut self) -> Lexeme<'a>
        ensures shorter { Shorter result (length self.old.rest.now) (length self.new.rest.now) }
        ensures takes { Takes (pieces self.old.line self.old.rest.now) self.new.line result
            (pieces self.new.line self.new.rest.now) }
    {
        loop {
            if let Some(found) = self.step() {
                return found;
            }
        }
    }

    // The tokens of the next statement, how it ends, and the line of its first token, or of the
    // byte where it is Bad.
    #[tactic(auto, using(crate::proofs::Sentences::one_more_token), unfolding(crate::specs::Sentences::sentences, crate::specs::Sentences::first_bad))]
    pub(crate) fn statement(
        &mut self,
        found: &mut Vec<Token<'a>>,
    ) -> Result<(Ending, u32), AllocError>
        ensures shorter { IfOk result (λ end. ShorterAt end.0 (length self.old.rest.now)
            (length self.new.rest.now)) }
        ensures ended { IfOk result (λ end. Ended (pieces self.old.line self.old.rest.now) end.0
            end.1 (tokens found.new.items) (pieces self.new.line self.new.rest.now)) }
    {
        found.clear();
        let mut line = self.line;
        loop {
            let piece = self.piece();
            line = first_line(found, line, self.line);
            match piece {
                Lexeme::Token(token) => found.push(token)?,
                Lexeme::Dot => return Ok((Ending::Dot, line)),
                Lexeme::Bad => return Ok((Ending::Bad, self.line)),
                Lexeme::End => return Ok((Ending::End, line)),
            }
        }
    }

    // The line of the first byte from here on that may not stand there.
    #[tactic(auto, unfolding(crate::specs::Sentences::first_bad))]
    pub(crate) fn bad(&mut self) -> Option<u32>
        ensures { result ≡ first_bad (pieces self.old.line self.old.rest.now) }
    {
        loop {
            match self.piece() {
                Lexeme::Bad => return Some(self.line),
                Lexeme::End => return None,
                _ => {}
            }
        }
    }
}
