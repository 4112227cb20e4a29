// Reading a whole text.
ghost use Rattle.std.specs.Prelude.{◌≡◌, ◌≤◌, ◌<◌, ℕ, length, map, [], IfOk, Err, None, Some};
ghost use Rattle.std.specs.Bool.{MatchBool};
ghost use Rattle.rule_read.specs.declared.refused.ReadRefused.TheVariants.{TooLong, BadByte};
ghost use Rattle.rule_read.specs.declared.refused.ReadRefused.TheVariants.{BadStatement};
ghost use Rattle.rule_read.specs.Sentences.{sentences_of, bad_byte_of, lead};
ghost use Rattle.rule_forms.specs.Forms.{plain};
ghost use Rattle.rule_forms.specs.Sound.{IsSound};
ghost use Rattle.rule_read.specs.Grammar.{Spells, IsFirstUnformed};
ghost use Rattle.rule_read.specs.Lexed.{tokens};
ghost use Rattle.rule_read.specs.Whole.{reading, Answers, forms_of, longest, Statements};
ghost use Rattle.rule_read.specs.Whole.{BadStatement as Unformed};
ghost use Rattle.rule_read.specs.Stated.{States};

use crate::lexer::Lexer;
use crate::refused::ReadRefused;
use crate::statement::form_given;
use crate::stop::Stop;
use crate::token::{Ending, Token};
use rt_base::List;
use rule_forms::{Statement, Syntax};
use std::alloc::Global;

// No token stands there.
#[tactic(auto, unfolding(crate::specs::Whole::forms_of))]
fn is_nothing(found: &[Token<'_>]) -> bool
    ensures { MatchBool result ((line : ℕ) → forms_of (lead line (tokens found.now) [])
        ≡ Statements []) ((line : ℕ) → forms_of (lead line (tokens found.now) [])
        ≡ Unformed line) }
{
    match found {
        [] => true,
        [_, ..] => false,
    }
}

// The statements of a text that is not too long. Behind a statement that has no form it is still
// looked for bytes that may not stand there, since they are refused first.
#[tactic(auto, using(crate::proofs::Wholes::dot_formed, crate::proofs::Wholes::dot_unformed, crate::proofs::Wholes::end_some, crate::proofs::Wholes::end_none, crate::proofs::Wholes::next_statement, crate::proofs::Wholes::nothing_first, crate::proofs::Wholes::all_first))]
fn statements_of(alloc: Global, text: &[u8]) -> Result<Vec<Statement>, ReadRefused>
    requires { length text.now ≤ longest }
    ensures { States text.now result }
{
    let mut lexer = Lexer {
        rest: text,
        line: 1,
    };
    let mut tokens = Vec::new(alloc);
    let mut statements = Vec::new(alloc);
    loop {
        let (ending, line) = lexer.statement(&mut tokens)?;
        match ending {
            Ending::Bad => return Err(ReadRefused::BadByte { line }),
            Ending::End if is_nothing(tokens.as_slice()) => return Ok(statements),
            Ending::End => return Err(ReadRefused::BadStatement { line }),
            Ending::Dot => match form_given(alloc, tokens.as_slice()) {
                Ok(form) => statements.push(Statement { line, form })?,
                Err(Stop::OutOfMemory) => return Err(ReadRefused::OutOfMemory),
                Err(Stop::NoForm) => {
                    return match lexer.bad() {
                        Some(line) => Err(ReadRefused::BadByte { line }),
                        None => Err(ReadRefused::BadStatement { line }),
                    };
                }
            },
        }
    }
}

/// The statements of a description, in the order of the text, each with the line of its first
/// token.
///
/// TooLong comes exactly where the text has more than 1,048,576 bytes; else BadByte exactly where a
/// byte outside comments is not permitted, with the line of the first; else BadStatement exactly
/// where a statement has no form, with the line where the first such statement begins. The language
/// is this project's own.
#[tactic(auto, using(crate::proofs::Wholes::reads_too_long, crate::proofs::Wholes::reads_statements, crate::proofs::Wholes::reads_refused, crate::proofs::Spelled::stated_spelled, crate::proofs::Spelled::stated_unformed))]
pub fn read(alloc: Global, text: &[u8]) -> Result<Syntax, ReadRefused>
    ensures exact { Answers result (reading text.now) }
    ensures found { IfOk result (λ syntax. Spells text.now (map plain syntax.statements)) }
    ensures sound { IfOk result IsSound }
    ensures few { IfOk result (λ syntax. length syntax.statements ≤ length text.now) }
    ensures too_long { result ≡ Err TooLong → longest < length text.now }
    ensures bad_byte { (line : ℕ) → result ≡ Err (BadByte line) → bad_byte_of text.now ≡ Some line }
    ensures none { (line : ℕ) → result ≡ Err (BadStatement line) → (bad_byte_of text.now ≡ None)
        × IsFirstUnformed (sentences_of text.now) line }
{
    if text.len() > 1_048_576 {
        return Err(ReadRefused::TooLong);
    }
    let statements = List::of(statements_of(alloc, text)?);
    Ok(Syntax { statements })
}
