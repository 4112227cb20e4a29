// Runs of the core, as worked by hand.
ghost use Rattle.std.specs.Prelude.{◌≡◌, true, IfOk};
ghost use Rattle.std.specs.List.{list_all};
ghost use Rattle.ground_types.specs.Sound.{IsSound};
ghost use Rattle.query_ask.specs.Answers.{is_of_program};
ghost use Rattle.system_core.specs.Core.{is_step_of, may_run};

use domain_decl::check;
use ground_rules::ground;
use ground_types::{Act, Program, Query, UnitKind, value_count};
use query_ask::Publication;
use rule_read::read;
use span_algebra::{Span, UnitRows};
use std::alloc::Global;
use std::sync::Arc;
use std::test::Fail;
use strata_check::layers;
use system_core::{Outcome, Step, StepRefused, System};

// A lamp that is switched up and down: events 0 and 1, unit 0.
const LAMP: &str = "window(10).\nstep(5).\nfrom(0).\ninput up.\ninput down.\nsimple on [true].\n\
initiatedAt(on=true) :- happensAt(up).\nterminatedAt(on=true) :- happensAt(down).\n";

// Two lamps, and an alarm above them.
const ALARM: &str = "window(10).\nstep(5).\ninput up.\ninput down.\nsimple red [true].\n\
simple green [true].\nderived alarm.\ninitiatedAt(red=true) :- happensAt(up).\n\
initiatedAt(green=true) :- happensAt(down).\nhappensAt(alarm) :- happensAt(start(red=true)).\n";

// Events alone.
const BARE: &str = "window(10).\nstep(5).\nqueries(1).\ninput up.\n";

// The program of a description.
fn program_of(alloc: Global, text: &str) -> Result<Program, Fail>
    ensures { IfOk result IsSound }
{
    let syntax = read(alloc, text.as_bytes())?;
    let checked = check(alloc, &syntax)?;
    let list = layers(alloc, &checked)?;
    match ground(alloc, &checked, &list) {
        Ok(program) => Ok(program),
        Err(_) => Err(Fail::new("a limit is exceeded")),
    }
}

// Whether a question is of the program.
fn is_of_program(program: &Program, query: &Query) -> bool
    ensures { result ≡ is_of_program program.now query.now }
{
    let Query::Holds { unit, value, .. } = query else {
        return true;
    };
    match program.units.as_slice().get(*unit as usize) {
        Some(unit) => {
            !matches!(unit.kind, UnitKind::Derived(_))
                && (*value as usize) < value_count(program, unit)
        }
        None => false,
    }
}

// Whether the program and so many readers may do a step.
fn is_step_of(program: &Program, readers: u8, step: &Step) -> bool
    ensures { result ≡ is_step_of program.now readers step.now }
{
    match step {
        Step::Feed { feeder, event, .. } => {
            1 <= *feeder && *feeder <= 8 && *event < program.events
        }
        Step::Read { reader, query } => *reader < readers && is_of_program(program, query),
        _ => true,
    }
}

// Whether they may do all of them.
fn may_run(program: &Program, readers: u8, steps: &[Step]) -> bool
    ensures { result ≡ list_all (is_step_of program.now readers) steps.now }
{
    steps.iter().all(|step| is_step_of(program, readers, step))
}

// The spans of the first value of the first unit.
fn first_row(publication: &Publication) -> &[Span] {
    if publication.program().units.as_slice().is_empty() {
        return &[];
    }
    match publication.rows(0) {
        UnitRows::Fluent(rows) => rows.as_slice().first().map_or(&[], |row| row.as_slice()),
        UnitRows::Event(_) => &[],
    }
}

// What is published: for each query its number, its front, its evaluations and its first row.
fn published(alloc: Global, list: &[Arc<Publication>]) -> Result<String, Fail> {
    let mut text = String::new(alloc);
    for publication in list {
        let number = publication.number();
        let front = publication.front();
        let evaluations = publication.evaluations();
        let line = format!(in alloc; "{number} {front} {evaluations}")?;
        text.push_str(line.as_str())?;
        for span in first_row(publication) {
            let line = format!(in alloc; " ({},{}]", span.after, span.until)?;
            text.push_str(line.as_str())?;
        }
        text.push('\n')?;
    }
    Ok(text)
}

// The core of a description, which may do these steps.
fn started(alloc: Global, text: &str, cap: u32, readers: u8, steps: &[Step]) -> Result<System, Fail>
    ensures { IfOk result (λ system. may_run system steps.now ≡ true) }
{
    let program = program_of(alloc, text)?;
    if !may_run(&program, readers, steps) {
        return Err(Fail::new("a step is not of the program"));
    }
    let shared = Arc::new(alloc, program)?;
    Ok(System::new(alloc, shared, cap, readers)?)
}

// The outcomes of steps, and behind them what is published.
fn told(alloc: Global, text: &str, cap: u32, readers: u8, steps: &[Step]) -> Result<String, Fail> {
    let mut system = started(alloc, text, cap, readers, steps)?;
    let outcomes = system.run(steps)?;
    let published = published(alloc, system.list())?;
    Ok(format!(in alloc; "{:?}\n{published}", outcomes.as_slice())?)
}

// An add by a feeder.
fn add(feeder: u8, event: u32, at: u64) -> Step {
    Step::Feed {
        feeder,
        act: Act::Add,
        event,
        at,
    }
}

// A question of a reader for the first value of the first unit.
fn ask(reader: u8, at: u64) -> Step {
    let query = Query::Holds {
        unit: 0,
        value: 0,
        at,
    };
    Step::Read { reader, query }
}

// What a reader asks.
fn read_by(reader: u8, query: Query) -> Step {
    Step::Read { reader, query }
}

// The unit is done.
fn finish(unit: u32) -> Step {
    Step::Finish { unit }
}

#[test]
fn steps_are_answered_as_worked_by_hand(rt: HostRuntime) -> Result<(), Fail> {
    let steps = [
        add(1, 0, 3),
        Step::Seal,
        Step::Seal,
        Step::Turn,
        Step::Publish,
        Step::Claim,
        Step::Claim,
        finish(0),
        finish(0),
        Step::Turn,
        Step::Turn,
        Step::Publish,
        Step::Claim,
        ask(0, 4),
        ask(0, 0),
        ask(0, 1),
        ask(0, 11),
        ask(0, 12),
    ];
    let wanted = "[Replied(Admitted), Sealed { number: 0 }, Refused(Busy), Refused(LayerOpen), \
        Refused(LayersLeft), Claimed { unit: 0 }, Refused(NoUnit), Finished, \
        Refused(NotClaimed), Turned, Refused(LayersDone), Published { number: 0 }, \
        Refused(Idle), Read { have: 1, answer: Yes }, \
        Read { have: 1, answer: Outside { w: 0, q: 10 } }, Read { have: 1, answer: No }, \
        Read { have: 1, answer: Yes }, Read { have: 1, answer: Outside { w: 0, q: 10 } }]\n\
        0 2 1 (3,11]\n";
    let found = told(rt.alloc(), LAMP, 8, 1, &steps)?;
    assert_eq!(rt; found.as_str(), wanted);
    Ok(())
}

// What is told while a unit is worked changes nothing of its publication.
#[test]
fn publications_are_those_of_their_seals(rt: HostRuntime) -> Result<(), Fail> {
    let first = [
        add(1, 0, 3),
        add(1, 1, 7),
        add(1, 0, 9),
        Step::Seal,
        Step::Claim,
        finish(0),
        Step::Turn,
        Step::Publish,
    ];
    let found = told(rt.alloc(), LAMP, 8, 0, &first)?;
    let wanted = "[Replied(Admitted), Replied(Admitted), Replied(Admitted), \
        Sealed { number: 0 }, Claimed { unit: 0 }, Finished, Turned, Published { number: 0 }]\n\
        0 4 3 (3,7] (9,11]\n";
    assert_eq!(rt; found.as_str(), wanted);
    Ok(())
}

#[test]
fn what_is_told_in_between_comes_later(rt: HostRuntime) -> Result<(), Fail> {
    let both = [
        add(1, 0, 3),
        add(1, 1, 7),
        add(1, 0, 9),
        Step::Seal,
        Step::Claim,
        add(2, 0, 5),
        add(2, 0, 6),
        finish(0),
        Step::Turn,
        Step::Publish,
        Step::Seal,
        Step::Claim,
        add(2, 0, 20),
        finish(0),
        Step::Turn,
        Step::Publish,
    ];
    let found = told(rt.alloc(), LAMP, 9, 0, &both)?;
    let wanted = "[Replied(Admitted), Replied(Admitted), Replied(Admitted), \
        Sealed { number: 0 }, Claimed { unit: 0 }, Replied(Forgotten), Replied(Delayed), \
        Finished, Turned, Published { number: 0 }, Sealed { number: 1 }, Claimed { unit: 0 }, \
        Replied(Admitted), Finished, Turned, Published { number: 1 }]\n\
        0 4 3 (3,7] (9,11]\n1 7 1 (5,7] (9,16]\n";
    assert_eq!(rt; found.as_str(), wanted);
    Ok(())
}

#[test]
fn units_of_a_layer_may_be_done_in_any_order(rt: HostRuntime) -> Result<(), Fail> {
    let steps = [
        Step::Seal,
        Step::Claim,
        Step::Claim,
        finish(1),
        finish(2),
        Step::Turn,
        finish(0),
        Step::Turn,
        Step::Claim,
        finish(2),
        Step::Turn,
        Step::Publish,
    ];
    let found = told(rt.alloc(), ALARM, 1, 0, &steps)?;
    let wanted = "[Sealed { number: 0 }, Claimed { unit: 0 }, Claimed { unit: 1 }, Finished, \
        Refused(NotClaimed), Refused(LayerOpen), Finished, Turned, Claimed { unit: 2 }, \
        Finished, Turned, Published { number: 0 }]\n0 1 0\n";
    assert_eq!(rt; found.as_str(), wanted);
    Ok(())
}

#[test]
fn a_program_may_have_no_units_and_a_history_an_end(rt: HostRuntime) -> Result<(), Fail> {
    let steps = [
        Step::Claim,
        Step::Seal,
        Step::Claim,
        finish(0),
        Step::Turn,
        Step::Publish,
        Step::Seal,
        add(8, 0, 99),
        Step::Seal,
        add(8, 0, 98),
    ];
    let found = told(rt.alloc(), BARE, 2, 0, &steps)?;
    let wanted = "[Refused(Idle), Sealed { number: 0 }, Refused(NoUnit), Refused(NotClaimed), \
        Refused(LayersDone), Published { number: 0 }, Refused(NoMoreQueries), \
        Replied(Admitted), Refused(LogFull), Refused(LogFull)]\n0 1 0\n";
    assert_eq!(rt; found.as_str(), wanted);
    Ok(())
}

#[test]
fn before_anything_is_published_readers_are_told_so(rt: HostRuntime) -> Result<(), Fail> {
    let steps = [
        add(1, 0, 3),
        Step::Seal,
        Step::Claim,
        finish(0),
        Step::Turn,
        Step::Publish,
        ask(1, 4),
        read_by(0, Query::Count),
        read_by(1, Query::Block { number: 0 }),
    ];
    let found = told(rt.alloc(), LAMP, 0, 2, &steps)?;
    let wanted = "[Refused(LogFull), Refused(LogFull), Refused(Idle), Refused(Idle), \
        Refused(Idle), Refused(Idle), Read { have: 0, answer: NothingYet }, \
        Read { have: 0, answer: Number(0) }, Read { have: 0, answer: NotPublished { have: 0 } }]\n";
    assert_eq!(rt; found.as_str(), wanted);
    Ok(())
}

// How many of so many claims are refused where no revision is open.
fn refused_claims(alloc: Global, count: usize) -> Result<usize, Fail> {
    let steps = vec![in alloc; Step::Claim; count]?;
    let mut system = started(alloc, LAMP, 8, 0, &steps)?;
    let outcomes = system.run(&steps)?;
    Ok(
        outcomes
            .iter()
            .filter(|outcome| matches!(outcome, Outcome::Refused(StepRefused::Idle)))
            .count(),
    )
}

#[test]
fn a_run_goes_on_behind_refusals(rt: HostRuntime) -> Result<(), Fail> {
    assert_eq!(rt; refused_claims(rt.alloc(), 10_000)?, 10_000);
    Ok(())
}
