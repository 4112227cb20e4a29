// Programs of whole descriptions, worked by hand, and limits at their borders.
use crate::descriptions::grounding;
use crate::shown::show;
use ground_rules::GroundRefused;
use rt_base::Limit;
use std::alloc::{AllocError, Global};
use std::fmt::Write;
use std::test::Fail;

// The program of a text.
fn shown(alloc: Global, text: &str) -> Result<String, Fail> {
    match grounding(alloc, text)? {
        Ok(program) => Ok(show(alloc, &program)?),
        Err(_) => Ok(String::from_str(alloc, "refused")?),
    }
}

// One value, initiated and terminated.
const LAMP: &str = "window(10). step(5).
input up. input down.
simple on [true].
initiatedAt(on=true) :- happensAt(up).
terminatedAt(on=true) :- happensAt(down).";

const LAMP_SHOWN: &str = "events 2 from 0 1 0
layer 0
 2 of +0 event 0 -0 event 1";

// Two values, each initiated.
const GEAR: &str = "window(10). step(5).
input low_on. input high_on.
simple gear [low, high].
initiatedAt(gear=low) :- happensAt(low_on).
initiatedAt(gear=high) :- happensAt(high_on).";

const GEAR_SHOWN: &str = "events 2 from 0 1 0
layer 0
 2 of +0 event 0 +1 event 1";

// A condition that holds not, and a static fluent over two simple ones.
const HEATER: &str = "window(10). step(5).
input up. input hot. input cold.
simple on [true].
simple heat [true].
static idle [true].
initiatedAt(on=true) :- happensAt(up), not holdsAt(heat=true).
initiatedAt(heat=true) :- happensAt(hot).
terminatedAt(heat=true) :- happensAt(cold).
holdsFor(idle=true) :- relative_complement_all(on=true, [heat=true]).";

const HEATER_SHOWN: &str = "events 3 from 0 1 2 0 1 2
layer 1
layer 0
layer 2
 3 of +0 event 0, not holds 1=0
 4 of +0 event 1 -0 event 2
 5 of or( 0=0 but( 1=0 ) )";

// Every assignment gives one word twice.
const ALONE: &str = "window(10). step(5).
domain v [x].
input near(v, v).
simple met(v, v) [true].
initiatedAt(met(X, Y)=true) :- happensAt(near(X, Y)), X \\= Y.";

const ALONE_SHOWN: &str = "events 1 from 0 0
layer 0
 1 of 0 0";

// A domain without entities, and a static fluent without a statement.
const EMPTY: &str = "window(10). step(5).
domain none [].
input e(none).
simple f(none) [true].
static g [true, false].
initiatedAt(f(X)=true) :- happensAt(e(X)).";

const EMPTY_SHOWN: &str = "events 0 from 0 0 0
layer 0
 2 of or( ) or( )";

// Two domains with words in common, three arguments, several values, variables in the body alone,
// `initially` with a variable and twice for one fluent, and all kinds of names.
pub(crate) const PORT: &str = "window(10). step(5).
domain ship [x, y].
domain port [y, z, x].
input enters(ship, port).
input bell.
simple within(ship, port) [no, yes].
simple light [red, green].
static near(ship, ship, port) [true].
derived meets(ship, ship).
initially(within(S, z)=yes).
initially(light=green).
initially(light=red).
initiatedAt(within(S, P)=yes) :- happensAt(enters(S, P)), S \\= P.
terminatedAt(within(S, P)=yes) :- happensAt(enters(S, Q)), P \\= Q.
happensAt(meets(S, T)) :- happensAt(start(within(S, P)=yes)), S \\= T, holdsAt(within(T, P)=yes).
initiatedAt(light=green) :- happensAt(meets(S, T)), not happensAt(bell).
holdsFor(near(S, T, P)=true) :- intersect_all([within(S, P)=yes, within(T, P)=yes]).";

// A ship enters a port of another word and leaves a port by entering another; two different ships
// meet.
const PORT_SHOWN: &str = "events 7 from 0 6 0 6 7 19
layer 0 1 2 3 4 5
layer 7 8 9 10 11 12 13 14 15 16 17 18 19 20 21 22
layer 6
 2 of 0 0 +1 event 0 -1 event 1 -1 event 2
 2 of 0 1 first 1 +1 event 1 -1 event 0 -1 event 2
 2 of 0 2 -1 event 0 -1 event 1
 2 of 1 0 -1 event 4 -1 event 5
 2 of 1 1 first 1 +1 event 4 -1 event 3 -1 event 5
 2 of 1 2 +1 event 5 -1 event 3 -1 event 4
 3 of first 0 +1 derived 19, not event 6 +1 derived 20, not event 6 +1 derived 21, not event 6 \
+1 derived 22, not event 6
 4 of 0 0 0 or( and( 0=1 0=1 ) )
 4 of 0 0 1 or( and( 1=1 1=1 ) )
 4 of 0 0 2 or( and( 2=1 2=1 ) )
 4 of 0 1 0 or( and( 0=1 3=1 ) )
 4 of 0 1 1 or( and( 1=1 4=1 ) )
 4 of 0 1 2 or( and( 2=1 5=1 ) )
 4 of 1 0 0 or( and( 3=1 0=1 ) )
 4 of 1 0 1 or( and( 4=1 1=1 ) )
 4 of 1 0 2 or( and( 5=1 2=1 ) )
 4 of 1 1 0 or( and( 3=1 3=1 ) )
 4 of 1 1 1 or( and( 4=1 4=1 ) )
 4 of 1 1 2 or( and( 5=1 5=1 ) )
 5 of 0 0
 5 of 0 1 *0 start 0=1, holds 3=1 *0 start 1=1, holds 4=1 *0 start 2=1, holds 5=1
 5 of 1 0 *0 start 3=1, holds 0=1 *0 start 4=1, holds 1=1 *0 start 5=1, holds 2=1
 5 of 1 1";

// The end of a value, two instances of one unit and value, two values with instances, and an event
// that must not happen.
const DOORS: &str = "window(10). step(5).
domain door [front, back].
input opens(door).
derived rings.
simple open(door) [yes].
static house [safe, busy].
initiatedAt(open(D)=yes) :- happensAt(opens(D)), not happensAt(opens(back)).
happensAt(rings) :- happensAt(end(open(front)=yes)).
holdsFor(house=busy) :- open(back)=yes.
holdsFor(house=safe) :- relative_complement_all(open(front)=yes, [open(back)=yes]).
holdsFor(house=busy) :- union_all([open(front)=yes, open(back)=yes]).";

const DOORS_SHOWN: &str = "events 2 from 0 0 1 3
layer 1 2
layer 0 3
 1 of *0 end 1=0
 2 of 0 +0 event 0, not event 1
 2 of 1 +0 event 1, not event 1
 3 of or( 1=0 but( 2=0 ) ) or( 2=0 or( 1=0 2=0 ) )";

#[test]
fn programs_are_as_worked_by_hand(rt: HostRuntime) -> Result<(), Fail> {
    let rows = [
        (LAMP, LAMP_SHOWN),
        (GEAR, GEAR_SHOWN),
        (HEATER, HEATER_SHOWN),
        (ALONE, ALONE_SHOWN),
        (EMPTY, EMPTY_SHOWN),
        (PORT, PORT_SHOWN),
        (DOORS, DOORS_SHOWN),
    ];
    for (text, wanted) in rows {
        let found = shown(rt.alloc(), text)?;
        assert_eq!(rt; found.as_str(), wanted);
    }
    Ok(())
}

// ---- limits

// A domain `d` of so many entities.
fn domain_of(alloc: Global, count: u32) -> Result<String, AllocError> {
    let mut text = String::from_str(alloc, "window(10). step(5). domain d [e0")?;
    for number in 1..count {
        write!(text, ", e{number}")?;
    }
    text.push_str("].\n")?;
    Ok(text)
}

// A `holdsFor` statement of 64 leaves for each pair of entities.
fn put_leaves(text: &mut String) -> Result<(), AllocError> {
    text.push_str("holdsFor(s(X, Y)=a) :- union_all([g(X)=a")?;
    for _leaf in 1..64 {
        text.push_str(", on=a")?;
    }
    text.push_str("]).\n")
}

// A domain of so many entities, some statements, and so many `holdsFor` statements of 64 leaves.
fn text_over(
    alloc: Global,
    count: u32,
    statements: &str,
    unions: u32,
) -> Result<String, AllocError> {
    let mut text = domain_of(alloc, count)?;
    text.push_str(statements)?;
    for _union in 0..unions {
        put_leaves(&mut text)?;
    }
    Ok(text)
}

// The limit that a text exceeds; None where there is a program.
fn exceeded(alloc: Global, text: &str) -> Result<Option<Limit>, Fail> {
    match grounding(alloc, text)? {
        Ok(_) => Ok(None),
        Err(GroundRefused::TooLarge { limit }) => Ok(Some(limit)),
        Err(GroundRefused::OutOfMemory) => Err(Fail::new("out of memory")),
    }
}

// As many as there may be of something, and one more.
const UNITS: &str = "queries(1). simple f(d, d) [a].";

const ONE_UNIT_MORE: &str = "queries(1). simple f(d, d) [a]. simple g [a].";

const EVENTS: &str = "input e(d, d, d).";

const ONE_EVENT_MORE: &str = "input e(d, d, d). input g.";

const RULES: &str =
    "input e(d, d). simple on [a]. initiatedAt(on=a) :- happensAt(e(X, Y)), X \\= Y.";

const RULES_MORE: &str = "input e(d, d). input up. simple on [a].
initiatedAt(on=a) :- happensAt(e(X, Y)), X \\= Y.
initiatedAt(on=a) :- happensAt(up).";

const ALL_RULES: &str = "input e(d, d). simple on [a]. initiatedAt(on=a) :- happensAt(e(X, Y)).";

const ALL_RULES_MORE: &str = "input e(d, d). input up. simple on [a].
initiatedAt(on=a) :- happensAt(e(X, Y)).
initiatedAt(on=a) :- happensAt(up).";

const CELLS: &str = "simple f(d, d) [a].";

const ONE_ROW_MORE: &str = "simple f(d, d) [a]. simple g [a].";

const LEAVES: &str = "queries(1). input up. simple on [a]. simple g(d) [a]. static s(d, d) [a].\n";

const ONE_CONDITION_MORE: &str =
    "queries(1). input up. simple on [a]. simple g(d) [a]. static s(d, d) [a].
initiatedAt(on=a) :- happensAt(up).\n";

// How many entities there are, the statements over them, how many unions, and the limit that all
// this exceeds.
type Case = (u32, &'static str, u32, Option<Limit>);

// The statements of the first case that comes to another answer.
fn first_miss(alloc: Global, cases: &[Case]) -> Result<Option<&'static str>, Fail> {
    for (count, statements, unions, wanted) in cases {
        let text = text_over(alloc, *count, statements, *unions)?;
        if exceeded(alloc, text.as_str())? != *wanted {
            return Ok(Some(*statements));
        }
    }
    Ok(None)
}

#[test]
fn units_events_and_rows_are_kept_at_their_limits(rt: HostRuntime) -> Result<(), Fail> {
    let cases = [
        (256, UNITS, 0, None),
        (256, ONE_UNIT_MORE, 0, Some(Limit::Units)),
        (256, EVENTS, 0, None),
        (256, ONE_EVENT_MORE, 0, Some(Limit::Events)),
        (128, CELLS, 0, None),
        (128, ONE_ROW_MORE, 0, Some(Limit::Cells)),
    ];
    assert_eq!(rt; first_miss(rt.alloc(), cases.as_slice())?, None);
    Ok(())
}

#[test]
fn assignments_are_kept_at_their_limit(rt: HostRuntime) -> Result<(), Fail> {
    let cases = [
        (1024, RULES, 0, Some(Limit::Rules)),
        (1024, RULES_MORE, 0, Some(Limit::Assignments)),
    ];
    assert_eq!(rt; first_miss(rt.alloc(), cases.as_slice())?, None);
    Ok(())
}

#[test]
fn rules_are_kept_at_their_limit(rt: HostRuntime) -> Result<(), Fail> {
    let cases = [
        (512, ALL_RULES, 0, None),
        (512, ALL_RULES_MORE, 0, Some(Limit::Rules)),
    ];
    assert_eq!(rt; first_miss(rt.alloc(), cases.as_slice())?, None);
    Ok(())
}

#[test]
fn conditions_are_kept_at_their_limit(rt: HostRuntime) -> Result<(), Fail> {
    let cases = [
        (128, LEAVES, 2, None),
        (128, ONE_CONDITION_MORE, 2, Some(Limit::Conditions)),
    ];
    assert_eq!(rt; first_miss(rt.alloc(), cases.as_slice())?, None);
    Ok(())
}
