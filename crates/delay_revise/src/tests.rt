// What no clause says: that the calls succeed with ample memory, and that the single calls, in
// whichever lawful order, publish what `revise` publishes.
ghost use Rattle.std.specs.Prelude.{◌≡◌, ◌<◌, ◌≤◌, ◌+◌, ◌++◌, ◌∷◌, [], true, length, IfOk, OnOk};
ghost use Rattle.std.specs.Arc.{arc_value};
ghost use Rattle.delay_revise.specs.Lamps.{input_name, fluent_name, stop_name, lamp_names};
ghost use Rattle.delay_revise.specs.Lamps.{rule_at, lamp_unit, stop_unit, three_lamps};
ghost use Rattle.delay_revise.specs.Lamps.{first_chunk, second_chunk, third_chunk, lamps_after};
ghost use Rattle.delay_revise.specs.Orders.{IsRoomy, IsReady, KeepsMore};
ghost use Rattle.delay_revise.specs.Revising.{MayTake, open_units, number_of, closed, IsPublished};

use crate::Reviser;
use ground_types::{
    Act, Entry, EventId, Name, NameKind, Occ, Plan, Point, Program, Reply, Rule, Trigger, Unit,
    UnitId, UnitKind,
};
use layer_workers::OneByOne;
use query_ask::Publication;
use rt_base::{List, OutOfMemory, Steps, Word};
use span_algebra::UnitRows;
use std::alloc::Global;
use std::sync::Arc;
use std::sync::ledger::Ledger;
use std::test::Fail;
use std::thread::Threads;

// ---- three lamps in one layer, and a stop above them

// Adds the name of an input event.
fn push_input(alloc: Global, names: &mut Vec<Name>, word: &str, first: EventId) -> Result<(), Fail>
    ensures { OnOk result (names.new.items ≡ names.old.items ++ input_name word.now first ∷ []) }
{
    names.push(Name {
        word: Word::new(alloc, word)?,
        kind: NameKind::Input,
        args: List::of(Vec::new(alloc)),
        values: List::of(Vec::new(alloc)),
        first,
        line: 1,
    })?;
    Ok(())
}

// Adds the name of a fluent.
fn push_fluent(alloc: Global, names: &mut Vec<Name>, word: &str, first: UnitId) -> Result<(), Fail>
    ensures { OnOk result (names.new.items ≡ names.old.items ++ fluent_name word.now first ∷ []) }
{
    names.push(Name {
        word: Word::new(alloc, word)?,
        kind: NameKind::Simple,
        args: List::of(Vec::new(alloc)),
        values: List::of(vec![in alloc; Word::new(alloc, "true")?]?),
        first,
        line: 1,
    })?;
    Ok(())
}

// Adds the names of the lamp of this number.
fn push_lamp_names(
    alloc: Global,
    names: &mut Vec<Name>,
    on: &str,
    off: &str,
    lamp: &str,
    number: u32,
) -> Result<(), Fail>
    requires { number < 3 }
    ensures { OnOk result (names.new.items
        ≡ names.old.items ++ lamp_names on.now off.now lamp.now number) }
{
    push_input(alloc, names, on, 2 * number)?;
    push_input(alloc, names, off, 2 * number + 1)?;
    push_fluent(alloc, names, lamp, number)
}

// Adds the name of the stop.
fn push_stop_name(alloc: Global, names: &mut Vec<Name>) -> Result<(), Fail>
    ensures { OnOk result (names.new.items ≡ names.old.items ++ stop_name ∷ []) }
{
    names.push(Name {
        word: Word::new(alloc, "stop")?,
        kind: NameKind::Derived,
        args: List::of(Vec::new(alloc)),
        values: List::of(Vec::new(alloc)),
        first: 3,
        line: 1,
    })?;
    Ok(())
}

fn names(alloc: Global) -> Result<List<Name>, Fail>
    ensures { IfOk result (λ names. names ≡ three_lamps.names) }
{
    let mut names = Vec::new(alloc);
    push_lamp_names(alloc, &mut names, "red_on", "red_off", "red", 0)?;
    push_lamp_names(alloc, &mut names, "amber_on", "amber_off", "amber", 1)?;
    push_lamp_names(alloc, &mut names, "green_on", "green_off", "green", 2)?;
    push_stop_name(alloc, &mut names)?;
    Ok(List::of(names))
}

// One rule, for value 0.
fn rule_at(alloc: Global, trigger: Trigger) -> Result<List<Rule>, Fail>
    ensures { IfOk result (λ rules. rules ≡ rule_at trigger ∷ []) }
{
    let rule = Rule {
        value: 0,
        trigger,
        conds: List::of(Vec::new(alloc)),
    };
    Ok(List::of(vec![in alloc; rule]?))
}

// Adds the lamp of this number.
fn push_lamp(alloc: Global, units: &mut Vec<Unit>, number: u32) -> Result<(), Fail>
    requires { number < 3 }
    ensures { OnOk result (units.new.items ≡ units.old.items ++ lamp_unit number ∷ []) }
{
    units.push(Unit {
        name: 3 * number + 2,
        args: List::of(Vec::new(alloc)),
        kind: UnitKind::Simple {
            initially: None,
            initiate: rule_at(alloc, Trigger::Event(2 * number))?,
            terminate: rule_at(alloc, Trigger::Event(2 * number + 1))?,
        },
    })?;
    Ok(())
}

// Adds the stop.
fn push_stop(alloc: Global, units: &mut Vec<Unit>) -> Result<(), Fail>
    ensures { OnOk result (units.new.items ≡ units.old.items ++ stop_unit ∷ []) }
{
    units.push(Unit {
        name: 9,
        args: List::of(Vec::new(alloc)),
        kind: UnitKind::Derived(rule_at(alloc, Trigger::Start(0, 0))?),
    })?;
    Ok(())
}

fn units(alloc: Global) -> Result<List<Unit>, Fail>
    ensures { IfOk result (λ units. units ≡ three_lamps.units) }
{
    let mut units = Vec::new(alloc);
    push_lamp(alloc, &mut units, 0)?;
    push_lamp(alloc, &mut units, 1)?;
    push_lamp(alloc, &mut units, 2)?;
    push_stop(alloc, &mut units)?;
    Ok(List::of(units))
}

fn layers(alloc: Global) -> Result<List<List<UnitId>>, Fail>
    ensures { IfOk result (λ layers. layers ≡ three_lamps.layers) }
{
    let lamps = List::of(vec![in alloc; 0, 1, 2]?);
    let stop = List::of(vec![in alloc; 3]?);
    Ok(List::of(vec![in alloc; lamps, stop]?))
}

fn program(alloc: Global) -> Result<Arc<Program>, Fail>
    ensures { IfOk result (λ program. arc_value program ≡ three_lamps) }
{
    let program = Program {
        plan: Plan {
            window: 10,
            step: 5,
            from: 0,
            queries: 3,
        },
        domains: List::of(Vec::new(alloc)),
        names: names(alloc)?,
        units: units(alloc)?,
        layers: layers(alloc)?,
        events: 6,
    };
    Ok(Arc::new(alloc, program)?)
}

// ---- what they are told

fn add(feeder: u8, event: EventId, at: Point, reply: Reply) -> Entry
    ensures { result ≡ Entry.Fed feeder Act.Add event at reply }
{
    Entry::Fed {
        feeder,
        act: Act::Add,
        event,
        at,
        reply,
    }
}

fn revoke(feeder: u8, event: EventId, at: Point, reply: Reply) -> Entry
    ensures { result ≡ Entry.Fed feeder Act.Revoke event at reply }
{
    Entry::Fed {
        feeder,
        act: Act::Revoke,
        event,
        at,
        reply,
    }
}

fn first_chunk() -> [Entry; 7]
    ensures { result ≡ first_chunk }
{
    [
        add(1, 0, 3, Reply::Admitted),
        add(1, 1, 7, Reply::Admitted),
        add(1, 0, 9, Reply::Admitted),
        add(1, 2, 2, Reply::Admitted),
        add(1, 3, 8, Reply::Admitted),
        add(2, 4, 10, Reply::Admitted),
        Entry::Seal { number: 0 },
    ]
}

fn second_chunk() -> [Entry; 4]
    ensures { result ≡ second_chunk }
{
    [
        add(2, 4, 6, Reply::Delayed),
        revoke(2, 3, 8, Reply::DelayedRevoked),
        add(1, 1, 12, Reply::Admitted),
        Entry::Seal { number: 1 },
    ]
}

fn third_chunk() -> [Entry; 5]
    ensures { result ≡ third_chunk }
{
    [
        add(1, 0, 14, Reply::Delayed),
        revoke(2, 4, 10, Reply::Forgotten),
        add(1, 3, 18, Reply::Admitted),
        add(2, 5, 13, Reply::Delayed),
        Entry::Seal { number: 2 },
    ]
}

// ---- single calls

// Works the units at the places of a layer below `to`, from the last one down to `from`, and keeps
// what was made.
fn work_down<L: Ledger>(
    reviser: &mut Reviser,
    units: &[UnitId],
    from: usize,
    to: usize,
    steps: &mut Steps<L>,
) -> Result<(), OutOfMemory>
    requires ready { IsReady reviser.old }
    requires units { units.now ≡ open_units reviser.old }
    requires within { to ≤ length units.now }
    ensures kept { OnOk result (KeepsMore reviser.old reviser.new units.now from to) }
    ensures parts { steps.new.out ≡ steps.old.out }
{
    let mut place = to;
    while place > from {
        place -= 1;
        let worked = reviser.work(units[place], steps)?;
        reviser.keep(units[place], worked);
    }
    Ok(())
}

// Works the places of the open layer below `first` from the last one down, then the others
// likewise, and ends the layer.
fn work_layer_from<L: Ledger>(
    reviser: &mut Reviser,
    units: &[UnitId],
    first: usize,
    steps: &mut Steps<L>,
) -> Result<(), OutOfMemory>
    requires ready { IsReady reviser.old }
    requires units { units.now ≡ open_units reviser.old }
    requires layer { reviser.old.layer < length reviser.old.program.layers }
    ensures ended { OnOk result (reviser.new ≡ record reviser.old {
      layer = reviser.old.layer + 1;
      kept = reviser.new.kept;
    }) }
    ensures size { OnOk result (length reviser.new.kept ≡ length reviser.old.kept) }
    ensures parts { steps.new.out ≡ steps.old.out }
{
    let first = first.min(units.len());
    work_down(reviser, units, 0, first, steps)?;
    work_down(reviser, units, first, units.len(), steps)?;
    reviser.turn();
    Ok(())
}

// Works each layer so.
fn work_layers_from<L: Ledger>(
    reviser: &mut Reviser,
    program: &Program,
    first: usize,
    steps: &mut Steps<L>,
) -> Result<(), OutOfMemory>
    requires ready { IsReady reviser.old }
    requires program { program.now ≡ reviser.old.program }
    requires layer { reviser.old.layer ≡ 0 }
    ensures ended { OnOk result (reviser.new ≡ record reviser.old {
      layer = length reviser.old.program.layers;
      kept = reviser.new.kept;
    }) }
    ensures parts { steps.new.out ≡ steps.old.out }
{
    for layer in program.layers.as_slice() {
        work_layer_from(reviser, layer.as_slice(), first, steps)?;
    }
    Ok(())
}

// Publishes the open chunk so.
fn publish_singly<L: Ledger>(
    reviser: &mut Reviser,
    program: &Program,
    first: usize,
    steps: &mut Steps<L>,
) -> Result<Arc<Publication>, OutOfMemory>
    requires roomy { IsRoomy reviser.old }
    requires program { program.now ≡ reviser.old.program }
    requires chunk { reviser.old.has_chunk ≡ true }
    requires layer { reviser.old.layer ≡ 0 }
    ensures publication { IfOk result (λ publication. IsPublished reviser.old.program
        reviser.old.taken (number_of reviser.old) (arc_value publication)) }
    ensures closed { OnOk result (reviser.new ≡ closed reviser.old) }
    ensures parts { steps.new.out ≡ steps.old.out }
{
    reviser.apply()?;
    work_layers_from(reviser, program, first, steps)?;
    reviser.publish()
}

// Publishes the open chunk by single calls, or without a first unit by `revise`.
fn publish<R: Threads + Sync, L: Ledger + Send>(
    rt: &R,
    reviser: &mut Reviser,
    program: &Program,
    first: Option<usize>,
    steps: &mut Steps<L>,
) -> Result<Arc<Publication>, OutOfMemory>
    requires roomy { IsRoomy reviser.old }
    requires program { program.now ≡ reviser.old.program }
    requires chunk { reviser.old.has_chunk ≡ true }
    requires layer { reviser.old.layer ≡ 0 }
    ensures publication { IfOk result (λ publication. IsPublished reviser.old.program
        reviser.old.taken (number_of reviser.old) (arc_value publication)) }
    ensures closed { OnOk result (reviser.new ≡ closed reviser.old) }
    ensures parts { steps.new.out ≡ steps.old.out }
{
    match first {
        Some(first) => publish_singly(reviser, program, first, steps),
        None => reviser.revise(rt, &OneByOne, steps),
    }
}

// ---- what is told

// Each event and its point.
fn events_told(alloc: Global, events: &[Occ]) -> Result<String, Fail> {
    let mut text = String::new(alloc);
    for event in events {
        let part = format!(in alloc; " {}@{}", event.event, event.at)?;
        text.push_str(part.as_str())?;
    }
    Ok(text)
}

// The spans of each value of a fluent, or the points of a derived event.
fn row_told(alloc: Global, rows: &UnitRows) -> Result<String, Fail> {
    let rows = match rows {
        UnitRows::Event(points) => return Ok(format!(in alloc; " {:?}", points.as_slice())?),
        UnitRows::Fluent(rows) => rows,
    };
    let mut text = String::new(alloc);
    for row in rows.as_slice() {
        for span in row.as_slice() {
            let part = format!(in alloc; " ({}, {}]", span.after, span.until)?;
            text.push_str(part.as_str())?;
        }
    }
    Ok(text)
}

// The rows of each unit, and a bar after them.
fn rows_told(alloc: Global, publication: &Publication) -> Result<String, Fail>
    requires { publication.now.program ≡ three_lamps }
{
    let mut text = String::new(alloc);
    for unit in 0..4 {
        let row = row_told(alloc, publication.rows(unit))?;
        text.push_str(row.as_str())?;
        text.push_str(" |")?;
    }
    Ok(text)
}

// All that a publication tells, in one line.
fn told(alloc: Global, publication: &Publication) -> Result<String, Fail>
    requires { publication.now.program ≡ three_lamps }
{
    let events = events_told(alloc, publication.events())?;
    let rows = rows_told(alloc, publication)?;
    Ok(format!(in alloc;
        "{} {} {:?}{events} |{rows} {}\n",
        publication.number(),
        publication.front(),
        publication.opening().values.as_slice(),
        publication.evaluations(),
    )?)
}

// What is published of a chunk.
fn told_of_chunk<R: Threads + Sync, L: Ledger + Send>(
    rt: &R,
    alloc: Global,
    reviser: &mut Reviser,
    program: &Program,
    first: Option<usize>,
    chunk: &[Entry],
    steps: &mut Steps<L>,
) -> Result<String, Fail>
    requires program { program.now ≡ three_lamps }
    requires reviser { reviser.old ≡ lamps_after reviser.old.taken }
    requires chunk { MayTake reviser.old chunk.now }
    ensures taken { OnOk result (reviser.new ≡ lamps_after (reviser.old.taken ++ chunk.now)) }
    ensures parts { steps.new.out ≡ steps.old.out }
{
    reviser.take_chunk(chunk);
    let publication = publish(rt, reviser, program, first, steps)?;
    told(alloc, &publication)
}

// What is published of all chunks, one after the other.
fn told_of_chunks<R: Threads + Sync, L: Ledger + Send>(
    rt: &R,
    alloc: Global,
    reviser: &mut Reviser,
    program: &Program,
    first: Option<usize>,
    steps: &mut Steps<L>,
) -> Result<String, Fail>
    requires program { program.now ≡ three_lamps }
    requires reviser { reviser.old ≡ lamps_after [] }
    ensures { steps.new.out ≡ steps.old.out }
{
    let one = told_of_chunk(rt, alloc, reviser, program, first, &first_chunk(), steps)?;
    let two = told_of_chunk(rt, alloc, reviser, program, first, &second_chunk(), steps)?;
    let three = told_of_chunk(rt, alloc, reviser, program, first, &third_chunk(), steps)?;
    Ok(format!(in alloc; "{one}{two}{three}")?)
}

// What a new reviser publishes.
fn told_by<R: Threads + Sync>(rt: &R, alloc: Global, first: Option<usize>) -> Result<String, Fail> {
    let program = program(alloc)?;
    let mut reviser = Reviser::new(alloc, Arc::try_clone(&program)?, 20)?;
    let mut steps = Steps::first();
    let told = told_of_chunks(rt, alloc, &mut reviser, &program, first, &mut steps);
    steps.end();
    told
}

#[test]
fn single_calls_publish_the_same(rt: HostRuntime) -> Result<(), Fail> {
    let wanted = told_by(&rt, rt.alloc(), None)?;
    for first in 0..=3 {
        let told = told_by(&rt, rt.alloc(), Some(first))?;
        assert_eq!(rt; told.as_str(), wanted.as_str(), "{first}");
    }
    Ok(())
}

#[test]
fn windows_of_lamps_are_published(rt: HostRuntime) -> Result<(), Fail> {
    let told = told_by(&rt, rt.alloc(), Some(1))?;
    let wanted = "0 7 [None, None, None, None] 0@3 0@9 1@7 2@2 3@8 4@10 | \
        (3, 7] (9, 11] | (2, 8] | (10, 11] | [3, 9] | 8\n\
        1 11 [Some(0), Some(0), None, None] 0@9 1@7 1@12 4@6 4@10 | \
        (5, 7] (9, 12] | (5, 16] | (6, 16] | [9] | 2\n\
        2 16 [Some(0), Some(0), Some(0), None] 0@14 1@12 3@18 5@13 | \
        (10, 12] (14, 21] | (10, 18] | (10, 13] | [14] | 4\n";
    assert_eq!(rt; told.as_str(), wanted);
    Ok(())
}

// What is told of a reviser without memory: for how many entries there is room, how many are taken,
// whether a chunk is open, and which layer of it.
type State = (u32, u32, bool, Option<u32>);

fn state(reviser: &Reviser) -> State {
    (
        reviser.room(),
        reviser.taken(),
        reviser.has_chunk(),
        reviser.layer(),
    )
}

// A reviser takes the first chunk and brings it to the standing events, the second time for
// nothing: its states.
fn open_first_chunk(reviser: &mut Reviser) -> Result<[State; 3], OutOfMemory>
    requires { reviser.old ≡ lamps_after [] }
    ensures { OnOk result (reviser.new ≡ record (lamps_after first_chunk) {
      has_chunk = true;
      applied = true;
    }) }
{
    let idle = state(reviser);
    reviser.take_chunk(&first_chunk());
    let open = state(reviser);
    reviser.apply()?;
    reviser.apply()?;
    Ok([idle, open, state(reviser)])
}

// It works the first chunk, layer by layer, and publishes it: its states.
fn close_first_chunk<L: Ledger>(
    reviser: &mut Reviser,
    steps: &mut Steps<L>,
) -> Result<[State; 3], OutOfMemory>
    requires { reviser.old ≡ record (lamps_after first_chunk) {
      has_chunk = true;
      applied = true;
    } }
    ensures { steps.new.out ≡ steps.old.out }
{
    work_layer_from(reviser, &[0, 1, 2], 1, steps)?;
    let lamps_worked = state(reviser);
    work_layer_from(reviser, &[3], 0, steps)?;
    let all_worked = state(reviser);
    let _publication = reviser.publish()?;
    Ok([lamps_worked, all_worked, state(reviser)])
}

// The states of a new reviser that takes, works and publishes the first chunk.
fn states_told(alloc: Global) -> Result<([State; 3], [State; 3]), Fail> {
    let mut reviser = Reviser::new(alloc, program(alloc)?, 20)?;
    let opened = open_first_chunk(&mut reviser)?;
    let mut steps = Steps::first();
    let closed = close_first_chunk(&mut reviser, &mut steps);
    steps.end();
    Ok((opened, closed?))
}

#[test]
fn states_are_told(rt: HostRuntime) -> Result<(), Fail> {
    let wanted = (
        [
            (20, 0, false, None),
            (13, 7, true, Some(1)),
            (13, 7, true, Some(1)),
        ],
        [
            (13, 7, true, Some(2)),
            (13, 7, true, None),
            (13, 7, false, None),
        ],
    );
    assert_eq!(rt; states_told(rt.alloc())?, wanted);
    Ok(())
}
