// Reading the tokens of one statement from left to right.
ghost use Rattle.std.specs.Prelude.{◌≡◌};
ghost use Rattle.rule_read.specs.declared.keyword.Kind.TheVariants as kind;
ghost use Rattle.rule_read.specs.Lexed.{tokens};
ghost use Rattle.rule_read.specs.Reading.{Part, Reads, Passes, has, tail, behind, word_at, key_at};
ghost use Rattle.rule_read.specs.Reading.{members_at, row_at, args_at, enclosed_at, term_at};
ghost use Rattle.rule_read.specs.Reading.{decl_at, atom_at, fv_at, event_at, condition_at};
ghost use Rattle.rule_read.specs.Reading.{unequal_at, body_at};

use crate::keyword::{Keyword, Kind, reserved};
use crate::stop::Stop;
use crate::token::{Mark, Token};
use rt_base::{List, Word, word_of};
use rule_forms::{Atom, Body, Decl, EventText, Fv, Term};
use std::alloc::Global;

// What is left of a statement.
#[derive(Drop)]
pub(crate) struct Reader<'a> {
    pub(crate) alloc: Global,
    pub(crate) rest: &'a [Token<'a>],
}

impl<'a> Reader<'a> {
    // The mark is in front.
    pub(crate) fn has(&self, mark: Mark) -> bool
        ensures { result ≡ has mark (tokens self.now.rest.now) }
    {
        match self.rest {
            [Token::Mark(found), ..] => *found == mark,
            _ => false,
        }
    }

    // Passes over a token, where there is one.
    pub(crate) fn pass(&mut self)
        ensures { tokens self.new.rest.now ≡ tail (tokens self.old.rest.now) }
    {
        if let [_, rest @ ..] = self.rest {
            self.rest = rest;
        }
    }

    // Passes over the mark.
    pub(crate) fn mark(&mut self, mark: Mark) -> Result<(), Stop>
        ensures { Passes result (tokens self.new.rest.now)
            (behind mark (tokens self.old.rest.now)) }
    {
        if !self.has(mark) {
            return Err(Stop::NoForm);
        }
        self.pass();
        Ok(())
    }

    // The reserved word in front.
    pub(crate) fn key(&self) -> Option<Keyword>
        ensures { result ≡ key_at (tokens self.now.rest.now) }
    {
        match self.rest {
            [Token::Word(word), ..] => reserved(word),
            _ => None,
        }
    }

    // A word of this kind.
    pub(crate) fn word(&mut self, kind: Kind) -> Result<Word, Stop>
        ensures { Reads (λ w. w) result (tokens self.new.rest.now)
            (word_at kind (tokens self.old.rest.now)) }
    {
        match self.rest {
            [Token::Word(word), rest @ ..] if kind.admits(word) => {
                self.rest = rest;
                Ok(word_of(self.alloc, word)?)
            }
            _ => Err(Stop::NoForm),
        }
    }

    // One member or more, with commas between them.
    #[tactic(auto, unfolding(crate::specs::Reading::bind))]
    pub(crate) fn list<M: Member>(&mut self) -> Result<List<M::Item>, Stop>
        ensures { Reads (λ xs. xs) result (tokens self.new.rest.now)
            (members_at M.at (tokens self.old.rest.now)) }
    {
        let count = self.rest.len();
        let mut members = Vec::new(self.alloc);
        for turn in 0..count {
            members.push(M::read(self)?)?;
            if !self.has(Mark::Comma) {
                return Ok(List::of(members));
            }
            self.pass();
        }
        Err(Stop::NoForm)
    }

    // Members in brackets.
    #[tactic(auto, unfolding(crate::specs::Reading::row_at, crate::specs::Reading::bind))]
    pub(crate) fn row<M: Member>(&mut self) -> Result<List<M::Item>, Stop>
        ensures { Reads (λ xs. xs) result (tokens self.new.rest.now)
            (row_at M.at (tokens self.old.rest.now)) }
    {
        self.mark(Mark::OpenList)?;
        let members = self.list::<M>()?;
        self.mark(Mark::CloseList)?;
        Ok(members)
    }

    // Arguments in parentheses, or none.
    #[tactic(auto, unfolding(crate::specs::Reading::args_at, crate::specs::Reading::enclosed_at, crate::specs::Reading::bind))]
    pub(crate) fn args<M: Member>(&mut self) -> Result<List<M::Item>, Stop>
        ensures { Reads (λ xs. xs) result (tokens self.new.rest.now)
            (args_at M.at (tokens self.old.rest.now)) }
    {
        if !self.has(Mark::Open) {
            return Ok(List::of(Vec::new(self.alloc)));
        }
        self.mark(Mark::Open)?;
        let args = self.list::<M>()?;
        self.mark(Mark::Close)?;
        Ok(args)
    }

    // An entity or a variable.
    #[tactic(auto, unfolding(crate::specs::Reading::term_at, crate::specs::Reading::bind))]
    pub(crate) fn term(&mut self) -> Result<Term, Stop>
        ensures { Reads (λ t. t) result (tokens self.new.rest.now)
            (term_at (tokens self.old.rest.now)) }
    {
        match self.rest {
            [Token::Word(word), rest @ ..] if Kind::Constant.admits(word) => {
                self.rest = rest;
                Ok(Term::Entity(word_of(self.alloc, word)?))
            }
            [Token::Word(word), rest @ ..] if Kind::Variable.admits(word) => {
                self.rest = rest;
                Ok(Term::Variable(word_of(self.alloc, word)?))
            }
            _ => Err(Stop::NoForm),
        }
    }

    #[tactic(auto, unfolding(crate::specs::Reading::decl_at, crate::specs::Reading::bind))]
    pub(crate) fn decl(&mut self) -> Result<Decl, Stop>
        ensures { Reads (λ d. d) result (tokens self.new.rest.now)
            (decl_at (tokens self.old.rest.now)) }
    {
        let name = self.word(Kind::Name)?;
        let args = self.args::<Names>()?;
        Ok(Decl { name, args })
    }

    #[tactic(auto, unfolding(crate::specs::Reading::atom_at, crate::specs::Reading::bind))]
    pub(crate) fn atom(&mut self) -> Result<Atom, Stop>
        ensures { Reads (λ a. a) result (tokens self.new.rest.now)
            (atom_at (tokens self.old.rest.now)) }
    {
        let name = self.word(Kind::Name)?;
        let args = self.args::<Terms>()?;
        Ok(Atom { name, args })
    }

    #[tactic(auto, unfolding(crate::specs::Reading::fv_at, crate::specs::Reading::bind))]
    pub(crate) fn fv(&mut self) -> Result<Fv, Stop>
        ensures { Reads (λ f. f) result (tokens self.new.rest.now)
            (fv_at (tokens self.old.rest.now)) }
    {
        let atom = self.atom()?;
        self.mark(Mark::Equals)?;
        let value = self.word(Kind::Constant)?;
        Ok(Fv { atom, value })
    }

    // A fluent-value in parentheses.
    #[tactic(auto, unfolding(crate::specs::Reading::enclosed_at, crate::specs::Reading::bind))]
    pub(crate) fn enclosed_fv(&mut self) -> Result<Fv, Stop>
        ensures { Reads (λ f. f) result (tokens self.new.rest.now)
            (enclosed_at fv_at (tokens self.old.rest.now)) }
    {
        self.mark(Mark::Open)?;
        let fv = self.fv()?;
        self.mark(Mark::Close)?;
        Ok(fv)
    }

    #[tactic(auto, unfolding(crate::specs::Reading::event_at, crate::specs::Reading::mapped, crate::specs::Reading::bind))]
    fn event(&mut self) -> Result<EventText, Stop>
        ensures { Reads (λ e. e) result (tokens self.new.rest.now)
            (event_at (tokens self.old.rest.now)) }
    {
        match self.key() {
            Some(Keyword::Start) => {
                self.pass();
                Ok(EventText::Start(self.enclosed_fv()?))
            }
            Some(Keyword::End) => {
                self.pass();
                Ok(EventText::End(self.enclosed_fv()?))
            }
            _ => Ok(EventText::Plain(self.atom()?)),
        }
    }

    #[tactic(auto, unfolding(crate::specs::Reading::condition_at, crate::specs::Reading::mapped, crate::specs::Reading::enclosed_at, crate::specs::Reading::bind))]
    fn condition(&mut self, positive: bool) -> Result<Body, Stop>
        ensures { Reads (λ b. b) result (tokens self.new.rest.now)
            (condition_at positive (tokens self.old.rest.now)) }
    {
        match self.key() {
            Some(Keyword::HappensAt) => {
                self.pass();
                self.mark(Mark::Open)?;
                let event = self.event()?;
                self.mark(Mark::Close)?;
                Ok(Body::Happens { positive, event })
            }
            Some(Keyword::HoldsAt) => {
                self.pass();
                let fv = self.enclosed_fv()?;
                Ok(Body::Holds { positive, fv })
            }
            _ => Err(Stop::NoForm),
        }
    }

    #[tactic(auto, unfolding(crate::specs::Reading::unequal_at, crate::specs::Reading::bind))]
    fn unequal(&mut self) -> Result<Body, Stop>
        ensures { Reads (λ b. b) result (tokens self.new.rest.now)
            (unequal_at (tokens self.old.rest.now)) }
    {
        let one = self.word(Kind::Variable)?;
        self.mark(Mark::Differs)?;
        let other = self.word(Kind::Variable)?;
        Ok(Body::Unequal(one, other))
    }

    #[tactic(auto, unfolding(crate::specs::Reading::body_at, crate::specs::Reading::bind))]
    pub(crate) fn body(&mut self) -> Result<Body, Stop>
        ensures { Reads (λ b. b) result (tokens self.new.rest.now)
            (body_at (tokens self.old.rest.now)) }
    {
        match self.key() {
            Some(Keyword::Not) => {
                self.pass();
                self.condition(false)
            }
            Some(_) => self.condition(true),
            None => self.unequal(),
        }
    }
}

// What the members of a list are.
pub(crate) trait Member {
    type Item: Drop;

    ghost at: { Part Self.Item };

    fn read(reader: &mut Reader<'_>) -> Result<Self::Item, Stop>
        ensures { Reads (λ x. x) result (tokens reader.new.rest.now)
            (at (tokens reader.old.rest.now)) };
}

// Names of domains.
pub(crate) struct Names;

impl Member for Names {
    type Item = Word;

    ghost at = { word_at kind.Name };

    fn read(reader: &mut Reader<'_>) -> Result<Word, Stop> {
        reader.word(Kind::Name)
    }
}

// Entities or values.
pub(crate) struct Constants;

impl Member for Constants {
    type Item = Word;

    ghost at = { word_at kind.Constant };

    fn read(reader: &mut Reader<'_>) -> Result<Word, Stop> {
        reader.word(Kind::Constant)
    }
}

// Arguments of an atom.
pub(crate) struct Terms;

impl Member for Terms {
    type Item = Term;

    ghost at = { term_at };

    fn read(reader: &mut Reader<'_>) -> Result<Term, Stop> {
        reader.term()
    }
}

// Conditions of a rule.
pub(crate) struct Bodies;

impl Member for Bodies {
    type Item = Body;

    ghost at = { body_at };

    fn read(reader: &mut Reader<'_>) -> Result<Body, Stop> {
        reader.body()
    }
}
