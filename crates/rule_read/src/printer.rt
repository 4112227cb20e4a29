// The tokens of the parts of statements, put one behind the other.
ghost use Rattle.std.specs.Prelude.{◌≡◌, ◌++◌, ◌∷◌, [], OnOk, map};
ghost use Rattle.rule_read.specs.Tokens.{Word as Letters, Sign};
ghost use Rattle.rule_read.specs.Lexed.{tokens};
ghost use Rattle.rule_read.specs.FormTokens.{commas, arguments, in_brackets, in_parentheses};
ghost use Rattle.rule_read.specs.FormTokens.{word_tokens, term_tokens, decl_tokens, atom_tokens};
ghost use Rattle.rule_read.specs.FormTokens.{fv_tokens, event_tokens, unless, body_tokens, keyword};
ghost use Rattle.rule_read.specs.Printed.{comma_at};
ghost use Rattle.rule_read.specs.declared.keyword.Keyword.TheVariants as key;
ghost use Rattle.rule_read.specs.declared.token.Mark.TheVariants.{Differs};

use crate::keyword::{Keyword, text_of};
use crate::token::{Mark, Token};
use rt_base::{List, OutOfMemory, Word};
use rule_forms::{Atom, Body, Decl, EventText, Fv, Term};

#[tactic(auto, using(crate::proofs::Put::put_one))]
pub(crate) fn put_mark<'a>(out: &mut Vec<Token<'a>>, mark: Mark) -> Result<(), OutOfMemory>
    ensures { OnOk result (tokens out.new.items ≡ tokens out.old.items ++ Sign mark ∷ []) }
{
    out.push(Token::Mark(mark))?;
    Ok(())
}

#[tactic(auto, using(crate::proofs::Put::put_one))]
pub(crate) fn put_word<'a>(out: &mut Vec<Token<'a>>, word: &'a Word) -> Result<(), OutOfMemory>
    ensures { OnOk result (tokens out.new.items ≡ tokens out.old.items ++ Letters word.now ∷ []) }
{
    out.push(Token::Word(word.as_str().as_bytes()))?;
    Ok(())
}

#[tactic(auto, using(crate::proofs::Put::put_one))]
pub(crate) fn put_key<'a>(out: &mut Vec<Token<'a>>, key: Keyword) -> Result<(), OutOfMemory>
    ensures { OnOk result (tokens out.new.items ≡ tokens out.old.items ++ keyword key ∷ []) }
{
    out.push(Token::Word(text_of(key)))?;
    Ok(())
}

// A comma where a member stands before.
pub(crate) fn put_comma<'a>(out: &mut Vec<Token<'a>>, turn: usize) -> Result<(), OutOfMemory>
    ensures { OnOk result (tokens out.new.items ≡ tokens out.old.items ++ comma_at turn) }
{
    if turn == 0 {
        return Ok(());
    }
    put_mark(out, Mark::Comma)
}

// What stands in lists, and how a member is spelled.
pub(crate) trait Printed {
    ghost use Rattle.std.specs.Prelude.{List};
    ghost use Rattle.rule_read.specs.Tokens.{Token as Part};

    ghost spelled: { Self → List Part };

    fn put<'a>(&'a self, out: &mut Vec<Token<'a>>) -> Result<(), OutOfMemory>
        ensures { OnOk result (tokens out.new.items ≡ tokens out.old.items ++ spelled self.now) };
}

impl Printed for Word {
    ghost spelled = { word_tokens };

    fn put<'a>(&'a self, out: &mut Vec<Token<'a>>) -> Result<(), OutOfMemory> {
        put_word(out, self)
    }
}

impl Printed for Term {
    ghost spelled = { term_tokens };

    fn put<'a>(&'a self, out: &mut Vec<Token<'a>>) -> Result<(), OutOfMemory> {
        match self {
            Term::Entity(word) => put_word(out, word),
            Term::Variable(word) => put_word(out, word),
        }
    }
}

impl Printed for Body {
    ghost spelled = { body_tokens };

    fn put<'a>(&'a self, out: &mut Vec<Token<'a>>) -> Result<(), OutOfMemory> {
        match self {
            Body::Happens { positive, event } => put_happens(out, *positive, event),
            Body::Holds { positive, fv } => put_holds(out, *positive, fv),
            Body::Unequal(one, other) => put_unequal(out, one, other),
        }
    }
}

// Members with commas between them.
pub(crate) fn put_members<'a, T: Printed>(
    out: &mut Vec<Token<'a>>,
    members: &'a [T],
) -> Result<(), OutOfMemory>
    ensures { OnOk result (tokens out.new.items ≡ tokens out.old.items ++ commas
        (map T.spelled members.now)) }
{
    for (turn, member) in members.iter().enumerate() {
        put_comma(out, turn)?;
        member.put(out)?;
    }
    Ok(())
}

// Members in parentheses, which are left out where there are none.
fn put_arguments<'a, T: Printed>(
    out: &mut Vec<Token<'a>>,
    members: &'a [T],
) -> Result<(), OutOfMemory>
    ensures { OnOk result (tokens out.new.items ≡ tokens out.old.items ++ arguments
        (map T.spelled members.now)) }
{
    if members.is_empty() {
        return Ok(());
    }
    put_mark(out, Mark::Open)?;
    put_members(out, members)?;
    put_mark(out, Mark::Close)
}

// Words in brackets.
pub(crate) fn put_row<'a>(
    out: &mut Vec<Token<'a>>,
    words: &'a List<Word>,
) -> Result<(), OutOfMemory>
    ensures { OnOk result (tokens out.new.items ≡ tokens out.old.items ++ in_brackets
        (map word_tokens words.now)) }
{
    put_mark(out, Mark::OpenList)?;
    put_members(out, words.as_slice())?;
    put_mark(out, Mark::CloseList)
}

pub(crate) fn put_decl<'a>(out: &mut Vec<Token<'a>>, decl: &'a Decl) -> Result<(), OutOfMemory>
    ensures { OnOk result (tokens out.new.items ≡ tokens out.old.items ++ decl_tokens decl.now) }
{
    put_word(out, &decl.name)?;
    put_arguments(out, decl.args.as_slice())
}

pub(crate) fn put_atom<'a>(out: &mut Vec<Token<'a>>, atom: &'a Atom) -> Result<(), OutOfMemory>
    ensures { OnOk result (tokens out.new.items ≡ tokens out.old.items ++ atom_tokens atom.now) }
{
    put_word(out, &atom.name)?;
    put_arguments(out, atom.args.as_slice())
}

pub(crate) fn put_fv<'a>(out: &mut Vec<Token<'a>>, fv: &'a Fv) -> Result<(), OutOfMemory>
    ensures { OnOk result (tokens out.new.items ≡ tokens out.old.items ++ fv_tokens fv.now) }
{
    put_atom(out, &fv.atom)?;
    put_mark(out, Mark::Equals)?;
    put_word(out, &fv.value)
}

// A fluent-value in parentheses.
pub(crate) fn put_held<'a>(out: &mut Vec<Token<'a>>, fv: &'a Fv) -> Result<(), OutOfMemory>
    ensures { OnOk result (tokens out.new.items ≡ tokens out.old.items ++ in_parentheses
        (fv_tokens fv.now)) }
{
    put_mark(out, Mark::Open)?;
    put_fv(out, fv)?;
    put_mark(out, Mark::Close)
}

// An atom in parentheses.
pub(crate) fn put_head<'a>(out: &mut Vec<Token<'a>>, atom: &'a Atom) -> Result<(), OutOfMemory>
    ensures { OnOk result (tokens out.new.items ≡ tokens out.old.items ++ in_parentheses
        (atom_tokens atom.now)) }
{
    put_mark(out, Mark::Open)?;
    put_atom(out, atom)?;
    put_mark(out, Mark::Close)
}

fn put_event<'a>(out: &mut Vec<Token<'a>>, event: &'a EventText) -> Result<(), OutOfMemory>
    ensures { OnOk result (tokens out.new.items ≡ tokens out.old.items ++ event_tokens event.now) }
{
    match event {
        EventText::Plain(atom) => put_atom(out, atom),
        EventText::Start(fv) => {
            put_key(out, Keyword::Start)?;
            put_held(out, fv)
        }
        EventText::End(fv) => {
            put_key(out, Keyword::End)?;
            put_held(out, fv)
        }
    }
}

fn put_unless<'a>(out: &mut Vec<Token<'a>>, positive: bool) -> Result<(), OutOfMemory>
    ensures { OnOk result (tokens out.new.items ≡ tokens out.old.items ++ unless positive) }
{
    if positive {
        return Ok(());
    }
    put_key(out, Keyword::Not)
}

// An event, asked for in a condition.
fn put_happens<'a>(
    out: &mut Vec<Token<'a>>,
    positive: bool,
    event: &'a EventText,
) -> Result<(), OutOfMemory>
    ensures { OnOk result (tokens out.new.items ≡ tokens out.old.items
        ++ (unless positive ++ (keyword key.HappensAt ∷ in_parentheses (event_tokens event.now)))) }
{
    put_unless(out, positive)?;
    put_key(out, Keyword::HappensAt)?;
    put_mark(out, Mark::Open)?;
    put_event(out, event)?;
    put_mark(out, Mark::Close)
}

// A fluent-value, asked for in a condition.
fn put_holds<'a>(out: &mut Vec<Token<'a>>, positive: bool, fv: &'a Fv) -> Result<(), OutOfMemory>
    ensures { OnOk result (tokens out.new.items ≡ tokens out.old.items
        ++ (unless positive ++ (keyword key.HoldsAt ∷ in_parentheses (fv_tokens fv.now)))) }
{
    put_unless(out, positive)?;
    put_key(out, Keyword::HoldsAt)?;
    put_held(out, fv)
}

// Two variables that are compared.
fn put_unequal<'a>(
    out: &mut Vec<Token<'a>>,
    one: &'a Word,
    other: &'a Word,
) -> Result<(), OutOfMemory>
    ensures { OnOk result (tokens out.new.items ≡ tokens out.old.items
        ++ (Letters one.now ∷ Sign Differs ∷ Letters other.now ∷ [])) }
{
    put_word(out, one)?;
    put_mark(out, Mark::Differs)?;
    put_word(out, other)
}
