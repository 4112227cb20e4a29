// The core.
ghost use Rattle.std.specs.Prelude.{◌≡◌, ◌≢◌, ◌++◌, ◌∷◌, [], ℕ, true, length, map, replicate};
ghost use Rattle.std.specs.Prelude.{Ok, Err, IfOk, OnOk, OnErr, slice_get, slice_set, option_map};
ghost use Rattle.std.specs.Arc.{arc_value};
ghost use Rattle.ground_types.specs.History.{IsLegal};
ghost use Rattle.ground_types.specs.Members.{contains};
ghost use Rattle.ground_types.specs.Sound.{IsSound};
ghost use Rattle.query_ask.specs.Right.{Parts};
ghost use Rattle.query_ask.specs.Answers.{said, AreOfProgram};
ghost use Rattle.delay_revise.specs.Revising.{open_units, IsPublished};
ghost use Rattle.system_core.specs.Core.{empty_core, is_worked, publish, published, stepped};
ghost use Rattle.system_core.specs.Core.{core_after, outcome_of, outcomes, may_step, may_run};
ghost use Rattle.system_core.specs.Core.{IsAfterSome, IsMadeAlike, SeenMost};
ghost use Rattle.system_core.specs.Holding.{is_open, IsDue, IsNext, DoesOrNot};
ghost use Rattle.system_core.specs.declared.steps.StepRefused.TheVariants as refused;

use crate::claims::Claims;
use crate::steps::{Outcome, Step, StepRefused};
use admit_core::{AdmitState, LogFull, SealRefused};
use delay_revise::Reviser;
use ground_types::{Act, Entry, EventId, Point, Program, Query, UnitId};
use publish_shelf::{Board, PlainBoard};
use query_ask::{Publication, ask};
use rt_base::{OutOfMemory, Steps};
use std::alloc::Global;
use std::marker::Model;
use std::sync::Arc;

/// The core: a history that grows, the revision of each seal, and what is published. Contracts see
/// its state as the definition has it (`Core`). By its type the program is sound.
#[derive(Drop)]
pub struct System {
    alloc: Global,
    log: AdmitState,
    reviser: Reviser,
    claims: Claims,
    board: PlainBoard,
    // How many publications each reader has seen.
    seen: Vec<u32>,
    // The publication of the open revision, where it is made and there was no memory to put it.
    made: Option<Arc<Publication>>,
}

impl Model for System {
    ghost use Rattle.std.specs.Arc.{arc_value};
    ghost use Rattle.std.specs.Coded.{codes};
    ghost use Rattle.std.specs.Prelude.{option_map};
    ghost use Rattle.ground_types.specs.contracts.program.Expr as expr;
    ghost use Rattle.system_core.specs.Core.{Core};
    ghost use Rattle.system_core.specs.Holding.{core_of, IsHolding};

    ghost Value = { Core };

    ghost coded = { Prim.hlevel (codes, expr.the_row.coded) };

    ghost view = { λ s. core_of s.claims s.log s.reviser s.board s.seen.items
        (option_map arc_value s.made) };

    ghost invariant = { λ s. IsHolding s.claims s.log s.reviser s.board s.seen.items
        (option_map arc_value s.made) };
}

// Each reader has seen nothing.
fn none_seen(alloc: Global, readers: u8) -> Result<Vec<u32>, OutOfMemory>
    ensures { IfOk result (λ seen. seen.items ≡ replicate readers 0) }
{
    Ok(vec![in alloc; 0; usize::from(readers)]?)
}

// A revision is open.
fn is_open(reviser: &Reviser, made: &Option<Arc<Publication>>) -> bool
    ensures { result ≡ is_open reviser.now.has_chunk (option_map arc_value made.now) }
{
    reviser.has_chunk() || made.is_some()
}

// Works a unit of the open layer, takes it back and keeps what was made of it.
fn work(reviser: &mut Reviser, claims: &mut Claims, unit: UnitId) -> Result<(), OutOfMemory>
    requires chunk { reviser.old.has_chunk ≡ true }
    requires unit { contains (open_units reviser.old) unit ≡ true }
    requires worked { is_worked claims.old.revision unit ≡ true }
    ensures reviser { OnOk result (reviser.new ≡ record reviser.old {
      applied = true;
      kept = slice_set reviser.old.kept unit true;
    }) }
    ensures claims { OnOk result (claims.new ≡ record claims.old {
      revision = record claims.old.revision {
        finished = claims.old.revision.finished ++ unit ∷ [];
      };
    }) }
    ensures err { OnErr result (claims.new ≡ claims.old) }
    ensures only_applied { OnErr result (reviser.new ≡ record reviser.old {
      applied = reviser.new.applied;
    }) }
{
    reviser.apply()?;
    let mut steps = Steps::first();
    let worked = reviser.work(unit, &mut steps);
    steps.end();
    let worked = worked?;
    claims.finish(unit)?;
    reviser.keep(unit, worked);
    Ok(())
}

// The publication of the open revision, all of whose layers are turned.
fn publication_of(
    reviser: &mut Reviser,
    made: Option<Arc<Publication>>,
) -> Result<Arc<Publication>, OutOfMemory>
    requires due { IsDue reviser.old (option_map arc_value made) }
    ensures next { IfOk result (λ publication. IsNext reviser.old (option_map arc_value made)
        reviser.new (arc_value publication)) }
    ensures not_made { OnErr result (option_map arc_value made ≡ None) }
    ensures only_applied { OnErr result (reviser.new ≡ record reviser.old {
      applied = reviser.new.applied;
    }) }
{
    match made {
        Some(publication) => Ok(publication),
        None => {
            reviser.apply()?;
            let publication = reviser.publish()?;
            Ok(publication)
        }
    }
}

// The outcome of a step for which there was memory.
fn outcome_of(answer: Result<Outcome, StepRefused>) -> Result<Outcome, OutOfMemory>
    ensures ok { IfOk result (λ outcome. outcome ≡ outcome_of answer) }
    ensures there { OnOk result (answer ≢ Err refused.OutOfMemory) }
    ensures err { OnErr result (answer ≡ Err refused.OutOfMemory) }
{
    match answer {
        Ok(outcome) => Ok(outcome),
        Err(StepRefused::OutOfMemory) => Err(OutOfMemory),
        Err(refused) => Ok(Outcome::Refused(refused)),
    }
}

impl System {
    /// The core of a sound program before the first step, with room for `cap` entries and with so
    /// many readers, from 0 on. The one error is want of memory.
    pub fn new(
        alloc: Global,
        program: Arc<Program>,
        cap: u32,
        readers: u8,
    ) -> Result<System, OutOfMemory>
        requires sound { IsSound (arc_value program) }
        ensures { IfOk result (λ system. system ≡ empty_core (arc_value program) cap readers) }
    {
        let log = AdmitState::new(alloc, program.plan, program.events, cap)?;
        let reviser = Reviser::new(alloc, Arc::try_clone(&program)?, cap)?;
        let claims = Claims::new(alloc, program)?;
        let seen = none_seen(alloc, readers)?;
        Ok(System {
            alloc,
            log,
            reviser,
            claims,
            board: PlainBoard::new(alloc),
            seen,
            made: None,
        })
    }

    // An event is told or withdrawn.
    fn feed(
        &mut self,
        feeder: u8,
        act: Act,
        event: EventId,
        at: Point,
    ) -> Result<Outcome, StepRefused>
        requires { may_step self.old (Step.Feed feeder act event at) ≡ true }
        ensures { DoesOrNot self.old (Step.Feed feeder act event at) self.new result }
    {
        match self.log.admit(feeder, act, event, at) {
            Ok(reply) => Ok(Outcome::Replied(reply)),
            Err(LogFull) => Err(StepRefused::LogFull),
        }
    }

    // The next query is sealed. The reviser takes the entries since the seal before.
    fn seal(&mut self) -> Result<Outcome, StepRefused>
        ensures { DoesOrNot self.old Step.Seal self.new result }
    {
        if is_open(&self.reviser, &self.made) {
            return Err(StepRefused::Busy);
        }
        match self.log.seal() {
            Ok(number) => {
                let taken = self.reviser.taken() as usize;
                let history = self.log.history();
                self.reviser.take_chunk(&history[taken..]);
                Ok(Outcome::Sealed { number })
            }
            Err(SealRefused::LogFull) => Err(StepRefused::LogFull),
            Err(SealRefused::NoMoreQueries) => Err(StepRefused::NoMoreQueries),
        }
    }

    // A worker asks for a unit.
    fn claim(&mut self) -> Result<Outcome, StepRefused>
        ensures { DoesOrNot self.old Step.Claim self.new result }
    {
        if !is_open(&self.reviser, &self.made) {
            return Err(StepRefused::Idle);
        }
        match self.claims.claim()? {
            Some(unit) => Ok(Outcome::Claimed { unit }),
            None => Err(StepRefused::NoUnit),
        }
    }

    // A worker is done with a unit, which is worked here.
    fn finish(&mut self, unit: UnitId) -> Result<Outcome, StepRefused>
        ensures { DoesOrNot self.old (Step.Finish unit) self.new result }
    {
        if !is_open(&self.reviser, &self.made) {
            return Err(StepRefused::Idle);
        }
        if !self.claims.is_worked(unit) {
            return Err(StepRefused::NotClaimed);
        }
        work(&mut self.reviser, &mut self.claims, unit)?;
        Ok(Outcome::Finished)
    }

    // The open layer ends.
    fn turn(&mut self) -> Result<Outcome, StepRefused>
        ensures { DoesOrNot self.old Step.Turn self.new result }
    {
        if !is_open(&self.reviser, &self.made) {
            return Err(StepRefused::Idle);
        }
        if !self.claims.has_layer() {
            return Err(StepRefused::LayersDone);
        }
        if !self.claims.is_finished() {
            return Err(StepRefused::LayerOpen);
        }
        self.reviser.turn();
        self.claims.turn();
        Ok(Outcome::Turned)
    }

    // The open revision, all of whose layers are turned, ends with its publication: its number.
    fn put_next(&mut self) -> Result<u32, OutOfMemory>
        requires due { publish self.old self.old.revision ≡ published self.old }
        ensures ok { IfOk result (λ number. (self.new, Ok (Outcome.Published number))
            ≡ published self.old) }
        ensures err { OnErr result (self.new ≡ self.old) }
    {
        let publication = publication_of(&mut self.reviser, self.made.take())?;
        match self.board.put(&publication) {
            Ok(()) => {
                self.claims.restart();
                Ok(publication.number())
            }
            Err(refused) => {
                self.made = Some(publication);
                Err(refused)
            }
        }
    }

    // The open revision ends with its publication.
    fn publish(&mut self) -> Result<Outcome, StepRefused>
        ensures { DoesOrNot self.old Step.Publish self.new result }
    {
        if !is_open(&self.reviser, &self.made) {
            return Err(StepRefused::Idle);
        }
        if self.claims.has_layer() {
            return Err(StepRefused::LayersLeft);
        }
        let number = self.put_next()?;
        Ok(Outcome::Published { number })
    }

    // A reader asks, and sees the whole list.
    fn read(&mut self, reader: u8, query: &Query) -> Outcome
        requires { may_step self.old (Step.Read reader query.now) ≡ true }
        ensures { (self.new, Ok result) ≡ stepped self.old (Step.Read reader query.now) }
    {
        let list = self.board.list();
        let have = list.len() as u32;
        let answer = ask(list, query);
        self.seen[reader as usize] = have;
        Outcome::Read { have, answer }
    }

    /// Does a step, or refuses it. A feed is of a feeder from 1 to 8 and of an event of the program,
    /// a question by one of the readers and of the program.
    ///
    /// Feed, which appends an add or a revoke with its reply: `LogFull` exactly where there are
    /// `cap` entries. Seal, which appends the seal of the next query and opens its revision at the
    /// first layer: `Busy` exactly where a revision is open; else `LogFull`; else `NoMoreQueries`
    /// exactly where each query of the plan is sealed. Claim, which gives the lowest unclaimed unit
    /// of the open layer: `Idle` exactly where no revision is open, as for the three steps that
    /// follow; else `NoUnit` exactly where all layers are turned or each unit of the layer is
    /// claimed. Finish, which works the unit: else `NotClaimed` exactly where it is not claimed in
    /// the open layer, or finished. Turn, which goes to the next layer: else `LayersDone` exactly
    /// where all layers are turned; else `LayerOpen` exactly where a unit of the layer is not
    /// finished. Publish, which appends the publication of the query and closes the revision: else
    /// `LayersLeft` exactly where a layer is not turned. Read, which is answered by what is
    /// published, is never refused.
    ///
    /// A refused step changes nothing. Each step but Read may find no memory, and the core is then
    /// as before. No step looks at the history again but the first Finish or the Publish of a
    /// revision, which looks at the entries since the seal before. The steps are our own.
    pub fn step(&mut self, step: Step) -> Result<Outcome, StepRefused>
        requires { may_step self.old step ≡ true }
        ensures step { (result ≢ Err refused.OutOfMemory) → (self.new, result)
            ≡ stepped self.old step }
        ensures memory { result ≡ Err refused.OutOfMemory → self.new ≡ self.old }
        ensures alike { IsMadeAlike self.old self.new }
    {
        match step {
            Step::Feed {
                feeder,
                act,
                event,
                at,
            } => self.feed(feeder, act, event, at),
            Step::Seal => self.seal(),
            Step::Claim => self.claim(),
            Step::Finish { unit } => self.finish(unit),
            Step::Turn => self.turn(),
            Step::Publish => self.publish(),
            Step::Read { reader, query } => Ok(self.read(reader, &query)),
        }
    }

    /// Does some steps, one after the other, each as `step` does it: their outcomes, a refusal being
    /// one too. The one error is want of memory; the steps of some prefix are done then.
    pub fn run(&mut self, steps: &[Step]) -> Result<Vec<Outcome>, OutOfMemory>
        requires { may_run self.old steps.now ≡ true }
        ensures outcomes { IfOk result (λ made. made.items ≡ outcomes self.old steps.now) }
        ensures state { OnOk result (self.new ≡ core_after self.old steps.now) }
        ensures prefix { OnErr result (IsAfterSome self.old steps.now self.new) }
        ensures alike { IsMadeAlike self.old self.new }
    {
        let mut outcomes = Vec::with_capacity(self.alloc, steps.len())?;
        for step in steps {
            let outcome = outcome_of(self.step(*step))?;
            outcomes.push(outcome)?;
        }
        Ok(outcomes)
    }

    /// The history. By its type it is legal. No memory.
    pub fn history(&self) -> &[Entry]
        ensures list { result.now ≡ self.now.history }
        ensures legal { IsLegal self.now.program.plan self.now.history }
    {
        self.log.history()
    }

    /// What is published: at each place what the definitions say of the query of that number and of
    /// the history, with the count of its evaluations. Each publication shares the program, and no
    /// reader has seen more of them than there are. No memory.
    pub fn list(&self) -> &[Arc<Publication>]
        ensures list { map said (map arc_value result.now) ≡ self.now.list }
        ensures published { (j : ℕ) (parts : Parts) → slice_get (map arc_value result.now) j
            ≡ Some parts → IsPublished self.now.program self.now.history j parts }
        ensures program { AreOfProgram self.now.program (map arc_value result.now) }
        ensures seen { SeenMost self.now }
    {
        self.board.list()
    }
}
