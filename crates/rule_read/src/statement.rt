// Reading a statement.
ghost use Rattle.std.specs.Prelude.{◌≡◌, true};
ghost use Rattle.std.specs.List.{list_all};
ghost use Rattle.std.specs.Char.{is_ascii_digit};
ghost use Rattle.rule_read.specs.Lexed.{tokens};
ghost use Rattle.rule_read.specs.Words.{is_number, number_of};
ghost use Rattle.rule_read.specs.declared.keyword.Kind.TheVariants as kind;
ghost use Rattle.rule_forms.specs.Forms.{plain_form, plain_tree};
ghost use Rattle.rule_read.specs.Reading.{Reads, Gives, word_at, any_row_at, number_at};
ghost use Rattle.rule_read.specs.Reading.{numbered_at, valued_at, domain_at, conditions_at};
ghost use Rattle.rule_read.specs.Reading.{rule_at, static_at, fv_at, atom_at, form_at, form_of};

use crate::keyword::{Keyword, Kind};
use crate::reader::{Bodies, Constants, Reader};
use crate::stop::Stop;
use crate::token::{Mark, Token};
use rt_base::{List, Word};
use rule_forms::{Atom, Body, Decl, Form, Fv, Tree};
use std::alloc::Global;

fn all_digits(word: &[u8]) -> bool
    ensures { result ≡ list_all is_ascii_digit word.now }
{
    word.iter().all(|b| b.is_ascii_digit())
}

// 1 to 16 digits.
fn is_number(word: &[u8]) -> bool
    ensures { result ≡ is_number word.now }
{
    all_digits(word) && 0 < word.len() && word.len() <= 16
}

// The number that digits write.
#[tactic(auto, using(crate::proofs::Numbers::digits_are_text, crate::proofs::Numbers::digits_parse))]
fn number_of(digits: &[u8]) -> u64
    requires { is_number digits.now ≡ true }
    ensures { result ≡ number_of digits.now }
{
    match str::from_utf8(digits) {
        Ok(text) => match text.parse::<u64>() {
            Ok(number) => number,
            Err(_) => unreachable!(),
        },
        Err(_) => unreachable!(),
    }
}

impl<'a> Reader<'a> {
    #[tactic(auto, unfolding(crate::specs::Reading::number_at, crate::specs::Reading::mapped, crate::specs::Reading::bind))]
    fn number(&mut self) -> Result<u64, Stop>
        ensures { Reads (λ n. n) result (tokens self.new.rest.now)
            (number_at (tokens self.old.rest.now)) }
    {
        match self.rest {
            [Token::Word(word), rest @ ..] if is_number(word) => {
                self.rest = rest;
                Ok(number_of(word))
            }
            _ => Err(Stop::NoForm),
        }
    }

    // A number in parentheses.
    #[tactic(auto, unfolding(crate::specs::Reading::enclosed_at, crate::specs::Reading::bind))]
    fn enclosed_number(&mut self) -> Result<u64, Stop>
        ensures { Reads (λ n. n) result (tokens self.new.rest.now)
            (numbered_at (tokens self.old.rest.now)) }
    {
        self.mark(Mark::Open)?;
        let number = self.number()?;
        self.mark(Mark::Close)?;
        Ok(number)
    }

    // Entities in brackets, of which there may be none.
    #[tactic(auto, unfolding(crate::specs::Reading::any_row_at, crate::specs::Reading::bind))]
    fn entities(&mut self) -> Result<List<Word>, Stop>
        ensures { Reads (λ xs. xs) result (tokens self.new.rest.now)
            (any_row_at (word_at kind.Constant) (tokens self.old.rest.now)) }
    {
        self.mark(Mark::OpenList)?;
        if self.has(Mark::CloseList) {
            self.pass();
            return Ok(List::of(Vec::new(self.alloc)));
        }
        let entities = self.list::<Constants>()?;
        self.mark(Mark::CloseList)?;
        Ok(entities)
    }

    #[tactic(auto, unfolding(crate::specs::Reading::domain_at, crate::specs::Reading::bind))]
    fn domain(&mut self) -> Result<(Word, List<Word>), Stop>
        ensures { Reads (λ x. x) result (tokens self.new.rest.now)
            (domain_at (tokens self.old.rest.now)) }
    {
        let name = self.word(Kind::Name)?;
        let entities = self.entities()?;
        Ok((name, entities))
    }

    // A declaration and its values.
    #[tactic(auto, unfolding(crate::specs::Reading::valued_at, crate::specs::Reading::bind))]
    fn valued(&mut self) -> Result<(Decl, List<Word>), Stop>
        ensures { Reads (λ x. x) result (tokens self.new.rest.now)
            (valued_at (tokens self.old.rest.now)) }
    {
        let decl = self.decl()?;
        let values = self.row::<Constants>()?;
        Ok((decl, values))
    }

    #[tactic(auto, unfolding(crate::specs::Reading::conditions_at, crate::specs::Reading::bind))]
    fn conditions(&mut self) -> Result<List<Body>, Stop>
        ensures { Reads (λ xs. xs) result (tokens self.new.rest.now)
            (conditions_at (tokens self.old.rest.now)) }
    {
        self.mark(Mark::If)?;
        self.list::<Bodies>()
    }

    // A rule with a fluent-value in its head.
    #[tactic(auto, unfolding(crate::specs::Reading::rule_at, crate::specs::Reading::bind))]
    fn fluent_rule(&mut self) -> Result<(Fv, List<Body>), Stop>
        ensures { Reads (λ x. x) result (tokens self.new.rest.now)
            (rule_at fv_at (tokens self.old.rest.now)) }
    {
        let fv = self.enclosed_fv()?;
        let bodies = self.conditions()?;
        Ok((fv, bodies))
    }

    // A rule with an event in its head.
    #[tactic(auto, unfolding(crate::specs::Reading::rule_at, crate::specs::Reading::enclosed_at, crate::specs::Reading::bind))]
    fn event_rule(&mut self) -> Result<(Atom, List<Body>), Stop>
        ensures { Reads (λ x. x) result (tokens self.new.rest.now)
            (rule_at atom_at (tokens self.old.rest.now)) }
    {
        self.mark(Mark::Open)?;
        let atom = self.atom()?;
        self.mark(Mark::Close)?;
        let bodies = self.conditions()?;
        Ok((atom, bodies))
    }

    // A fluent-value and the expression that it is determined by.
    #[tactic(auto, unfolding(crate::specs::Reading::static_at, crate::specs::Reading::bind))]
    fn static_rule(&mut self) -> Result<(Fv, Tree), Stop>
        ensures { Reads (λ x. (x.0, plain_tree x.1)) result (tokens self.new.rest.now)
            (static_at (tokens self.old.rest.now)) }
    {
        let fv = self.enclosed_fv()?;
        self.mark(Mark::If)?;
        let tree = self.tree(8)?;
        Ok((fv, tree))
    }

    #[tactic(auto, unfolding(crate::specs::Reading::form_at, crate::specs::Reading::mapped, crate::specs::Reading::bind))]
    fn form(&mut self) -> Result<Form, Stop>
        ensures { Reads plain_form result (tokens self.new.rest.now)
            (form_at (tokens self.old.rest.now)) }
    {
        let key = self.key();
        self.pass();
        match key {
            Some(Keyword::Window) => self.enclosed_number().map(Form::Window),
            Some(Keyword::Step) => self.enclosed_number().map(Form::Step),
            Some(Keyword::From) => self.enclosed_number().map(Form::From),
            Some(Keyword::Queries) => self.enclosed_number().map(Form::Queries),
            Some(Keyword::Domain) => {
                self.domain()
                    .map(|(name, entities)| Form::Domain(name, entities))
            }
            Some(Keyword::Input) => self.decl().map(Form::Input),
            Some(Keyword::Simple) => {
                self.valued()
                    .map(|(decl, values)| Form::Simple(decl, values))
            }
            Some(Keyword::Static) => {
                self.valued()
                    .map(|(decl, values)| Form::Static(decl, values))
            }
            Some(Keyword::Derived) => self.decl().map(Form::Derived),
            Some(Keyword::Initially) => self.enclosed_fv().map(Form::Initially),
            Some(Keyword::InitiatedAt) => {
                self.fluent_rule()
                    .map(|(fv, bodies)| Form::Initiated(fv, bodies))
            }
            Some(Keyword::TerminatedAt) => {
                self.fluent_rule()
                    .map(|(fv, bodies)| Form::Terminated(fv, bodies))
            }
            Some(Keyword::HappensAt) => {
                self.event_rule()
                    .map(|(atom, bodies)| Form::Happens(atom, bodies))
            }
            Some(Keyword::HoldsFor) => {
                self.static_rule()
                    .map(|(fv, tree)| Form::HoldsFor(fv, tree))
            }
            _ => Err(Stop::NoForm),
        }
    }
}

// The form of a statement without its dot.
#[tactic(auto, unfolding(crate::specs::Reading::form_of, crate::specs::Reading::bind))]
pub(crate) fn form_given(alloc: Global, statement: &[Token<'_>]) -> Result<Form, Stop>
    ensures { Gives plain_form result (form_of (tokens statement.now)) }
{
    let mut reader = Reader {
        alloc,
        rest: statement,
    };
    let form = reader.form()?;
    if !reader.rest.is_empty() {
        return Err(Stop::NoForm);
    }
    Ok(form)
}
