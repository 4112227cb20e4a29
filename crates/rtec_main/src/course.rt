// What a run has come to: what was told and answered, what revises it, and what is published.
ghost use Rattle.std.specs.Prelude.{◌≡◌, ◌<◌, ◌≤◌, ◌++◌, ◌∷◌, [], ℕ, true, List, length};
ghost use Rattle.std.specs.Prelude.{OnOk, IfOk, map};
ghost use Rattle.std.specs.List.{list_all};
ghost use Rattle.std.specs.Arc.{arc_value};
ghost use Rattle.ground_types.specs.History.{seals, reply_to};
ghost use Rattle.ground_types.specs.Sound.{IsSound};
ghost use Rattle.ground_types.specs.declared.entries.Entry.{Entry};
ghost use Rattle.ground_types.specs.declared.entries.Entry.TheVariants.{Fed, Seal};
ghost use Rattle.ground_types.specs.declared.entries.Command.TheVariants.{Ask};
ghost use Rattle.decl_known.specs.Sound.{is_sound_domain};
ghost use Rattle.query_ask.specs.Right.{Parts};
ghost use Rattle.delay_revise.specs.Revising.{MayTake, IsPublished, number_of, closed};
ghost use Rattle.stream_read.specs.Scripts.{IsOfProgram};
ghost use Rattle.text_pieces.specs.Lines.{text_of_lines};
ghost use Rattle.report_text.specs.Report.{entries_of, entry_line, block_lines, ask_lines};
ghost use Rattle.report_text.specs.Report.{lines_of};
ghost use Rattle.report_text.specs.Printed.{block_in};
ghost use Rattle.rtec_main.specs.Coursing.{IsAbreast, IsNext, HasPlace, Publishes};

use admit_core::{AdmitState, LogFull};
use delay_revise::{Reviser, published_stays};
use ground_names::EventNames;
use ground_types::{Act, Command, Entry, EventId, Point, Program, Query};
use layer_workers::OneByOne;
use publish_shelf::{Board, PlainBoard};
use query_ask::{Publication, ask};
use report_text::{EntryLine, answer_law, put_answer, put_block, put_entry};
use rt_base::{OutOfMemory, Steps};
use std::alloc::Global;
use std::marker::Brand;
use std::sync::Arc;
use std::thread::Threads;

/// What a run has come to.
#[derive(Drop)]
pub struct Course<'a> {
    /// The names of the events of its program.
    pub names: EventNames<'a>,
    /// Room for the line of an entry.
    pub line: EntryLine,
    /// What was told and answered.
    pub log: AdmitState,
    /// What makes the publications.
    pub reviser: Reviser,
    /// The publications, one for each seal.
    pub board: PlainBoard,
}

impl<'a> Course<'a> {
    /// The course of a program before any command, with room for so many entries.
    pub fn new(
        alloc: Global,
        program: &'a Arc<Program>,
        cap: u32,
    ) -> Result<Course<'a>, OutOfMemory>
        requires sound { IsSound (arc_value program.now) }
        requires domains { list_all is_sound_domain (arc_value program.now).domains ≡ true }
        ensures abreast { IfOk result (λ course. IsAbreast course) }
        ensures names { IfOk result (λ course. course.names ≡ arc_value program.now) }
        ensures log { IfOk result (λ course. course.log ≡ record {
          plan = (arc_value program.now).plan;
          events = (arc_value program.now).events;
          cap = cap;
          history = [];
        }) }
    {
        let names = EventNames::new(alloc, program)?;
        let log = AdmitState::new(alloc, program.plan, program.events, cap)?;
        let reviser = Reviser::new(alloc, Arc::try_clone(program)?, cap)?;
        Ok(Course {
            names,
            line: EntryLine::new(alloc),
            log,
            reviser,
            board: PlainBoard::new(alloc),
        })
    }
}

// Admits an add or a revoke.
fn admit(course: &mut Course, feeder: u8, act: Act, event: EventId, at: Point) -> Entry
    requires feeder { (1 ≤ feeder) × (feeder ≤ 8) }
    requires event { event < course.old.log.events }
    requires room { length course.old.log.history < course.old.log.cap }
    ensures entry { result ≡ Fed feeder act event at
        (reply_to course.old.log.plan course.old.log.history act event at) }
    ensures course { course.new ≡ record course.old {
      log = record course.old.log {
        history = course.old.log.history ++ Fed feeder act event at
            (reply_to course.old.log.plan course.old.log.history act event at) ∷ [];
      };
    } }
{
    let reply = match course.log.admit(feeder, act, event, at) {
        Ok(reply) => reply,
        Err(LogFull) => unreachable!(),
    };
    Entry::Fed {
        feeder,
        act,
        event,
        at,
        reply,
    }
}

// Admits an add or a revoke, and adds its line.
fn put_feed(
    course: &mut Course,
    feeder: u8,
    act: Act,
    event: EventId,
    at: Point,
    text: &mut Vec<u8>,
) -> Result<(), OutOfMemory>
    requires feeder { (1 ≤ feeder) × (feeder ≤ 8) }
    requires event { event < course.old.log.events }
    requires room { length course.old.log.history < course.old.log.cap }
    ensures course { OnOk result (course.new ≡ record course.old {
      line = course.new.line;
      log = record course.old.log {
        history = course.old.log.history ++ Fed feeder act event at
            (reply_to course.old.log.plan course.old.log.history act event at) ∷ [];
      };
    }) }
    ensures text { OnOk result (text.new.items ≡ text.old.items ++ text_of_lines
        (entry_line course.old.names feeder act event at
        (reply_to course.old.log.plan course.old.log.history act event at) ∷ [])) }
{
    let entry = admit(course, feeder, act, event, at);
    put_entry(&course.names, &mut course.line, entry, text)
}

// Seals the next query. The reviser takes the entries since the seal before.
fn seal(course: &mut Course)
    requires abreast { IsAbreast course.old }
    requires room { length course.old.log.history < course.old.log.cap }
    requires queries { seals course.old.log.history < course.old.log.plan.queries }
    ensures { course.new ≡ record course.old {
      log = record course.old.log {
        history = course.old.log.history ++ Seal (seals course.old.log.history) ∷ [];
      };
      reviser = record course.old.reviser {
        taken = course.old.log.history ++ Seal (seals course.old.log.history) ∷ [];
        has_chunk = true;
      };
    } }
{
    match course.log.seal() {
        Ok(_number) => {}
        Err(_refused) => unreachable!(),
    }
    let taken = course.reviser.taken() as usize;
    let history = course.log.history();
    course.reviser.take_chunk(&history[taken..]);
}

// Makes the publication of the open chunk. It goes on the board.
fn publish<R: Threads + Sync>(
    rt: &R,
    course: &mut Course,
    steps: &mut Steps<Brand>,
) -> Result<Arc<Publication>, OutOfMemory>
    requires chunk { course.old.reviser.has_chunk ≡ true }
    requires next { IsNext course.old }
    ensures publishes { IfOk result (λ publication. Publishes course.old course.new
        (arc_value publication)) }
    ensures parts { steps.new.out ≡ steps.old.out }
{
    let publication = course.reviser.revise(rt, &OneByOne, steps)?;
    course.board.put(&publication)?;
    Ok(publication)
}

// Seals the next query and publishes it.
fn take_seal<R: Threads + Sync>(
    rt: &R,
    course: &mut Course,
    steps: &mut Steps<Brand>,
) -> Result<Arc<Publication>, OutOfMemory>
    requires sound { IsSound course.old.names }
    requires abreast { IsAbreast course.old }
    requires room { length course.old.log.history < course.old.log.cap }
    requires queries { seals course.old.log.history < course.old.log.plan.queries }
    ensures abreast { OnOk result (IsAbreast course.new) }
    ensures names { OnOk result (course.new.names ≡ course.old.names) }
    ensures log { OnOk result (course.new.log ≡ record course.old.log {
      history = course.old.log.history ++ Seal (seals course.old.log.history) ∷ [];
    }) }
    ensures block { IfOk result (λ publication. block_in (arc_value publication)
        ≡ block_lines course.old.names (course.old.log.history
        ++ Seal (seals course.old.log.history) ∷ []) (seals course.old.log.history)) }
    ensures program { IfOk result (λ publication. IsSound (arc_value publication).program) }
    ensures parts { steps.new.out ≡ steps.old.out }
{
    // (what is published stays right as the history grows)
    published_stays();
    seal(course);
    publish(rt, course, steps)
}

// Seals the next query, and adds the block of its publication.
fn put_seal<R: Threads + Sync>(
    rt: &R,
    course: &mut Course,
    steps: &mut Steps<Brand>,
    text: &mut Vec<u8>,
) -> Result<(), OutOfMemory>
    requires sound { IsSound course.old.names }
    requires abreast { IsAbreast course.old }
    requires room { length course.old.log.history < course.old.log.cap }
    requires queries { seals course.old.log.history < course.old.log.plan.queries }
    ensures abreast { OnOk result (IsAbreast course.new) }
    ensures names { OnOk result (course.new.names ≡ course.old.names) }
    ensures log { OnOk result (course.new.log ≡ record course.old.log {
      history = course.old.log.history ++ Seal (seals course.old.log.history) ∷ [];
    }) }
    ensures text { OnOk result (text.new.items ≡ text.old.items ++ text_of_lines
        (block_lines course.old.names (course.old.log.history
        ++ Seal (seals course.old.log.history) ∷ []) (seals course.old.log.history))) }
    ensures parts { steps.new.out ≡ steps.old.out }
{
    let publication = take_seal(rt, course, steps)?;
    put_block(&publication, text)
}

// Adds the answer to a question.
fn put_ask(course: &Course, query: &Query, text: &mut Vec<u8>) -> Result<(), OutOfMemory>
    requires sound { IsSound course.now.names }
    requires abreast { IsAbreast course.now }
    requires of_program { IsOfProgram course.now.names (Ask query.now) }
    ensures { OnOk result (text.new.items ≡ text.old.items ++ text_of_lines
        (ask_lines course.now.names course.now.log.history query.now)) }
{
    // (an answer over these publications is one of the report)
    answer_law();
    let list = course.board.list();
    let answer = ask(list, query);
    put_answer(course.names.program(), list, query, &answer, text)
}

/// Adds what a command adds to a report: the line of an add or a revoke, the block of a seal, the
/// answer to a question, and nothing for another one. Where memory runs out, a part of it may be
/// there.
pub fn put_command<R: Threads + Sync>(
    rt: &R,
    course: &mut Course,
    steps: &mut Steps<Brand>,
    command: Command,
    text: &mut Vec<u8>,
) -> Result<(), OutOfMemory>
    requires sound { IsSound course.old.names }
    requires abreast { IsAbreast course.old }
    requires of_program { IsOfProgram course.old.names command }
    requires place { HasPlace course.old.log command }
    ensures abreast { OnOk result (IsAbreast course.new) }
    ensures names { OnOk result (course.new.names ≡ course.old.names) }
    ensures log { OnOk result (course.new.log ≡ record course.old.log {
      history = course.old.log.history
          ++ entries_of course.old.names.plan course.old.log.history command;
    }) }
    ensures text { OnOk result (text.new.items ≡ text.old.items ++ text_of_lines
        (lines_of course.old.names course.old.log.history command)) }
    ensures parts { steps.new.out ≡ steps.old.out }
{
    // (what is published stays right as the history grows)
    published_stays();
    match command {
        Command::Feed {
            feeder,
            act,
            event,
            at,
        } => put_feed(course, feeder, act, event, at, text),
        Command::Seal => put_seal(rt, course, steps, text),
        Command::Ask(query) => put_ask(course, &query, text),
        Command::Wait { .. } | Command::After { .. } => Ok(()),
    }
}

/// Takes a command as `put_command` does, and adds nothing to a text.
pub fn take_command<R: Threads + Sync>(
    rt: &R,
    course: &mut Course,
    steps: &mut Steps<Brand>,
    command: Command,
) -> Result<(), OutOfMemory>
    requires sound { IsSound course.old.names }
    requires abreast { IsAbreast course.old }
    requires of_program { IsOfProgram course.old.names command }
    requires place { HasPlace course.old.log command }
    ensures abreast { OnOk result (IsAbreast course.new) }
    ensures names { OnOk result (course.new.names ≡ course.old.names) }
    ensures log { OnOk result (course.new.log ≡ record course.old.log {
      history = course.old.log.history
          ++ entries_of course.old.names.plan course.old.log.history command;
    }) }
    ensures parts { steps.new.out ≡ steps.old.out }
{
    // (what is published stays right as the history grows)
    published_stays();
    match command {
        Command::Feed {
            feeder,
            act,
            event,
            at,
        } => {
            let _entry = admit(course, feeder, act, event, at);
            Ok(())
        }
        Command::Seal => {
            let _publication = take_seal(rt, course, steps)?;
            Ok(())
        }
        Command::Ask(_) | Command::Wait { .. } | Command::After { .. } => Ok(()),
    }
}
