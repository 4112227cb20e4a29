// Printing a description in its canonical form.
ghost use Rattle.std.specs.Prelude.{◌≡◌, ◌≤◌, ◌++◌, ◌∷◌, length, map, decimal, IfOk, OnOk};
ghost use Rattle.std.specs.String.{string_bytes};
ghost use Rattle.rule_read.specs.declared.keyword.Keyword.TheVariants as key;
ghost use Rattle.rule_read.specs.Lexed.{tokens};
ghost use Rattle.rule_forms.specs.Forms.{plain_form, Domain, Initially, HoldsFor, plain_tree};
ghost use Rattle.rule_read.specs.FormTokens.{keyword, number_tokens, decl_tokens, fv_tokens};
ghost use Rattle.rule_read.specs.FormTokens.{atom_tokens, body_tokens, word_tokens, rule_tokens};
ghost use Rattle.rule_read.specs.FormTokens.{commas, in_brackets, form_tokens};
ghost use Rattle.rule_forms.specs.Sound.{IsSound};
ghost use Rattle.rule_read.specs.Grammar.{Spells};
ghost use Rattle.rule_read.specs.Canonical.{text_of, line_of, on_lines};
ghost use Rattle.rule_read.specs.Whole.{reading, longest, Statements};

use crate::keyword::{Keyword, text_of};
use crate::line::put_line;
use crate::printer::{
    put_decl, put_head, put_held, put_key, put_mark, put_members, put_row, put_word,
};
use crate::token::{Mark, Token};
use crate::tree_printer::put_tree;
use rt_base::{List, OutOfMemory, Word};
use rule_forms::{Atom, Body, Decl, Form, Fv, Statement, Syntax, Tree};
use std::alloc::Global;

// All statements share one list of tokens, `line`.

#[tactic(auto, unfolding(crate::specs::Canonical::line_of))]
fn print_digits(out: &mut Vec<u8>, word: Keyword, digits: &[u8]) -> Result<(), OutOfMemory>
    ensures { OnOk result (out.new.items ≡ out.old.items ++ line_of
        (number_tokens word digits.now)) }
{
    out.extend_from_slice(text_of(word))?;
    out.extend_from_slice(b"(")?;
    out.extend_from_slice(digits)?;
    out.extend_from_slice(b").\n")?;
    Ok(())
}

fn print_number(
    alloc: Global,
    out: &mut Vec<u8>,
    word: Keyword,
    number: u64,
) -> Result<(), OutOfMemory>
    ensures { OnOk result (out.new.items ≡ out.old.items ++ line_of
        (number_tokens word (decimal number))) }
{
    // The digits last no longer than this call, so they stand in no list of tokens.
    let digits = number.to_string(alloc)?;
    print_digits(out, word, digits.as_bytes())
}

fn print_domain<'a>(
    out: &mut Vec<u8>,
    line: &mut Vec<Token<'a>>,
    name: &'a Word,
    entities: &'a List<Word>,
) -> Result<(), OutOfMemory>
    ensures { OnOk result (out.new.items ≡ out.old.items ++ line_of
        (form_tokens (Domain name.now entities.now))) }
{
    line.clear();
    put_key(line, Keyword::Domain)?;
    put_word(line, name)?;
    put_row(line, entities)?;
    put_line(out, line.as_slice())
}

fn print_decl<'a>(
    out: &mut Vec<u8>,
    line: &mut Vec<Token<'a>>,
    word: Keyword,
    decl: &'a Decl,
) -> Result<(), OutOfMemory>
    ensures { OnOk result (out.new.items ≡ out.old.items ++ line_of (keyword word ∷ decl_tokens
        decl.now)) }
{
    line.clear();
    put_key(line, word)?;
    put_decl(line, decl)?;
    put_line(out, line.as_slice())
}

fn print_fluent<'a>(
    out: &mut Vec<u8>,
    line: &mut Vec<Token<'a>>,
    word: Keyword,
    decl: &'a Decl,
    values: &'a List<Word>,
) -> Result<(), OutOfMemory>
    ensures { OnOk result (out.new.items ≡ out.old.items ++ line_of
        (keyword word ∷ (decl_tokens decl.now ++ in_brackets (map word_tokens values.now)))) }
{
    line.clear();
    put_key(line, word)?;
    put_decl(line, decl)?;
    put_row(line, values)?;
    put_line(out, line.as_slice())
}

fn print_initially<'a>(
    out: &mut Vec<u8>,
    line: &mut Vec<Token<'a>>,
    fv: &'a Fv,
) -> Result<(), OutOfMemory>
    ensures { OnOk result (out.new.items ≡ out.old.items ++ line_of
        (form_tokens (Initially fv.now))) }
{
    line.clear();
    put_key(line, Keyword::Initially)?;
    put_held(line, fv)?;
    put_line(out, line.as_slice())
}

fn print_rule<'a>(
    out: &mut Vec<u8>,
    line: &mut Vec<Token<'a>>,
    word: Keyword,
    fv: &'a Fv,
    bodies: &'a List<Body>,
) -> Result<(), OutOfMemory>
    ensures { OnOk result (out.new.items ≡ out.old.items ++ line_of
        (rule_tokens word (fv_tokens fv.now) (commas (map body_tokens bodies.now)))) }
{
    line.clear();
    put_key(line, word)?;
    put_held(line, fv)?;
    put_mark(line, Mark::If)?;
    put_members(line, bodies.as_slice())?;
    put_line(out, line.as_slice())
}

fn print_event_rule<'a>(
    out: &mut Vec<u8>,
    line: &mut Vec<Token<'a>>,
    atom: &'a Atom,
    bodies: &'a List<Body>,
) -> Result<(), OutOfMemory>
    ensures { OnOk result (out.new.items ≡ out.old.items ++ line_of (rule_tokens key.HappensAt
        (atom_tokens atom.now) (commas (map body_tokens bodies.now)))) }
{
    line.clear();
    put_key(line, Keyword::HappensAt)?;
    put_head(line, atom)?;
    put_mark(line, Mark::If)?;
    put_members(line, bodies.as_slice())?;
    put_line(out, line.as_slice())
}

fn print_holds_for<'a>(
    out: &mut Vec<u8>,
    line: &mut Vec<Token<'a>>,
    fv: &'a Fv,
    tree: &'a Tree,
) -> Result<(), OutOfMemory>
    ensures { OnOk result (out.new.items ≡ out.old.items ++ line_of
        (form_tokens (HoldsFor fv.now (plain_tree tree.now)))) }
{
    line.clear();
    put_key(line, Keyword::HoldsFor)?;
    put_held(line, fv)?;
    put_mark(line, Mark::If)?;
    put_tree(line, tree)?;
    put_line(out, line.as_slice())
}

fn print_form<'a>(
    alloc: Global,
    out: &mut Vec<u8>,
    line: &mut Vec<Token<'a>>,
    form: &'a Form,
) -> Result<(), OutOfMemory>
    ensures { OnOk result (out.new.items ≡ out.old.items ++ line_of
        (form_tokens (plain_form form.now))) }
{
    match form {
        Form::Window(number) => print_number(alloc, out, Keyword::Window, *number),
        Form::Step(number) => print_number(alloc, out, Keyword::Step, *number),
        Form::From(number) => print_number(alloc, out, Keyword::From, *number),
        Form::Queries(number) => print_number(alloc, out, Keyword::Queries, *number),
        Form::Domain(name, entities) => print_domain(out, line, name, entities),
        Form::Input(decl) => print_decl(out, line, Keyword::Input, decl),
        Form::Simple(decl, values) => print_fluent(out, line, Keyword::Simple, decl, values),
        Form::Static(decl, values) => print_fluent(out, line, Keyword::Static, decl, values),
        Form::Derived(decl) => print_decl(out, line, Keyword::Derived, decl),
        Form::Initially(fv) => print_initially(out, line, fv),
        Form::Initiated(fv, bodies) => print_rule(out, line, Keyword::InitiatedAt, fv, bodies),
        Form::Terminated(fv, bodies) => print_rule(out, line, Keyword::TerminatedAt, fv, bodies),
        Form::Happens(atom, bodies) => print_event_rule(out, line, atom, bodies),
        Form::HoldsFor(fv, tree) => print_holds_for(out, line, fv, tree),
    }
}

/// Adds the canonical line of what a statement says, its end with it, to the end of a text: the
/// line that `print` has for it. Where memory runs out, the text keeps what it had, and may have a
/// part of the line behind it.
pub fn put_form(alloc: Global, out: &mut Vec<u8>, form: &Form) -> Result<(), OutOfMemory>
    ensures { OnOk result (out.new.items ≡ out.old.items ++ line_of
        (form_tokens (plain_form form.now))) }
{
    let mut line = Vec::new(alloc);
    print_form(alloc, out, &mut line, form)
}

fn print_forms(alloc: Global, statements: &[Statement]) -> Result<Vec<u8>, OutOfMemory>
    ensures { IfOk result (λ out. out.items
        ≡ text_of (map (λ s. plain_form s.form) statements.now)) }
{
    let mut out = Vec::new(alloc);
    let mut line = Vec::new(alloc);
    for statement in statements {
        print_form(alloc, &mut out, &mut line, &statement.form)?;
    }
    Ok(out)
}

/// The canonical text of a description: each statement on a line of its own, a space behind a comma
/// and `not`, on each side of `:-` and `\=`, and before the `[` of a declaration, and nowhere else.
/// Where it has at most 1,048,576 bytes, reading it gives the same forms, each on its line. The
/// form is this project's own.
pub fn print(alloc: Global, syntax: &Syntax) -> Result<String, OutOfMemory>
    requires { IsSound syntax.now }
    ensures canonical { IfOk result (λ text. string_bytes text
        ≡ text_of (map (λ s. plain_form s.form) syntax.now.statements)) }
    ensures spelled { IfOk result (λ text. Spells (string_bytes text)
        (on_lines 1 (map (λ s. plain_form s.form) syntax.now.statements))) }
    ensures again { IfOk result (λ text. length (string_bytes text) ≤ longest
        → reading (string_bytes text) ≡ Statements
        (on_lines 1 (map (λ s. plain_form s.form) syntax.now.statements))) }
{
    match String::from_utf8(print_forms(alloc, syntax.statements.as_slice())?) {
        Ok(text) => Ok(text),
        Err(_) => unreachable!(),
    }
}
