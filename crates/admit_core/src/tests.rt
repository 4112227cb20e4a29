// What no clause says: that `new` succeeds with ample memory, and the replies and refusals of
// worked examples.
ghost use Rattle.std.specs.Prelude.{◌≡◌};
ghost use Rattle.ground_types.specs.Windows.{IsSoundPlan};

use crate::AdmitState;
use ground_types::{Act, EventId, Plan, Point};
use std::alloc::Global;
use std::test::Fail;

// Windows of 10 points, each 5 points after the one before it.
const PLAN: Plan = Plan {
    window: 10,
    step: 5,
    from: 0,
    queries: 1024,
};

const UP: EventId = 0;

const DOWN: EventId = 1;

// The greatest point of a script.
const LAST: Point = 9_999_999_999_999_999;

// One call of a state.
#[derive(Clone, Copy)]
enum Call {
    Add(u8, EventId, Point),
    Revoke(u8, EventId, Point),
    Seal,
}

use Call::{Add, Revoke, Seal};

// What an add or a revoke of one of two events was answered.
fn fed(
    alloc: Global,
    state: &mut AdmitState,
    act: Act,
    feeder: u8,
    event: EventId,
    at: Point,
) -> Result<String, Fail>
    requires { state.old.events ≡ 2 }
    ensures { state.new.events ≡ 2 }
{
    if feeder < 1 || feeder > 8 || event > 1 {
        return Ok(format!(in alloc; "no such feed")?);
    }
    Ok(match state.admit(feeder, act, event, at) {
        Ok(reply) => format!(in alloc; "{reply:?} ")?,
        Err(refused) => format!(in alloc; "{refused:?} ")?,
    })
}

// What a seal was answered.
fn sealed(alloc: Global, state: &mut AdmitState) -> Result<String, Fail>
    requires { state.old.events ≡ 2 }
    ensures { state.new.events ≡ 2 }
{
    Ok(match state.seal() {
        Ok(number) => format!(in alloc; "{number} ")?,
        Err(refused) => format!(in alloc; "{refused:?} ")?,
    })
}

// What a call was answered.
fn answered(alloc: Global, state: &mut AdmitState, call: Call) -> Result<String, Fail>
    requires { state.old.events ≡ 2 }
    ensures { state.new.events ≡ 2 }
{
    match call {
        Add(feeder, event, at) => fed(alloc, state, Act::Add, feeder, event, at),
        Revoke(feeder, event, at) => fed(alloc, state, Act::Revoke, feeder, event, at),
        Seal => sealed(alloc, state),
    }
}

// What the calls were answered, one after another, and the front after them.
fn told(alloc: Global, plan: Plan, cap: u32, calls: &[Call]) -> Result<String, Fail>
    requires { IsSoundPlan plan }
{
    let mut state = AdmitState::new(alloc, plan, 2, cap)?;
    let mut text = String::new(alloc);
    for call in calls {
        text.push_str(answered(alloc, &mut state, *call)?.as_str())?;
    }
    let front = state.front();
    Ok(format!(in alloc; "{text}{} {} {:?}", front.entries, front.seals, front.fed)?)
}

#[test]
fn replies_are_those_of_the_worked_examples(rt: HostRuntime) -> Result<(), Fail> {
    let late_insertion = [
        Add(1, UP, 3),
        Add(1, DOWN, 7),
        Add(1, UP, 9),
        Seal,
        Add(2, UP, 5),
        Add(2, UP, 6),
        Seal,
    ];
    let late_revocation = [
        Add(1, UP, 3),
        Add(1, DOWN, 7),
        Add(1, UP, 9),
        Seal,
        Revoke(1, DOWN, 7),
        Seal,
    ];
    let already = [
        Add(1, UP, 3),
        Add(1, DOWN, 7),
        Add(1, UP, 9),
        Add(1, UP, 3),
        Seal,
    ];
    let revoked = [
        Add(1, UP, 3),
        Add(1, DOWN, 7),
        Add(1, UP, 9),
        Revoke(1, UP, 9),
        Seal,
    ];
    let unknown_and_forgotten = [Revoke(1, UP, 4), Seal, Revoke(1, UP, 5), Add(1, UP, 11)];
    let ahead = [Add(1, UP, 20), Seal, Seal, Seal];
    let rows = [
        (
            late_insertion.as_slice(),
            "Admitted Admitted Admitted 0 Forgotten Delayed 1 7 2 [3, 2, 0, 0, 0, 0, 0, 0]",
        ),
        (
            &late_revocation,
            "Admitted Admitted Admitted 0 DelayedRevoked 1 6 2 [4, 0, 0, 0, 0, 0, 0, 0]",
        ),
        (
            &already,
            "Admitted Admitted Admitted Already 0 5 1 [4, 0, 0, 0, 0, 0, 0, 0]",
        ),
        (
            &revoked,
            "Admitted Admitted Admitted Revoked 0 5 1 [4, 0, 0, 0, 0, 0, 0, 0]",
        ),
        (
            &unknown_and_forgotten,
            "Unknown 0 Forgotten Admitted 4 1 [3, 0, 0, 0, 0, 0, 0, 0]",
        ),
        (&ahead, "Admitted 0 1 2 4 3 [1, 0, 0, 0, 0, 0, 0, 0]"),
    ];
    for (calls, wanted) in rows {
        let found = told(rt.alloc(), PLAN, 100, calls)?;
        assert_eq!(rt; found.as_str(), wanted);
    }
    Ok(())
}

#[test]
fn the_last_entry_of_an_event_and_point_decides(rt: HostRuntime) -> Result<(), Fail> {
    let rows = [
        // Told twice, revoked twice, revoked and told again, by whatever feeder.
        (
            [Add(1, UP, 3), Add(8, UP, 3)].as_slice(),
            "Admitted Already 2 0 [1, 0, 0, 0, 0, 0, 0, 1]",
        ),
        (
            &[Add(2, UP, 3), Revoke(2, UP, 3), Revoke(2, UP, 3)],
            "Admitted Revoked Unknown 3 0 [0, 3, 0, 0, 0, 0, 0, 0]",
        ),
        (
            &[Add(3, UP, 3), Revoke(4, UP, 3), Add(5, UP, 3)],
            "Admitted Revoked Admitted 3 0 [0, 0, 1, 1, 1, 0, 0, 0]",
        ),
        // Another event at the point, and another point of the event.
        (
            &[Add(6, UP, 3), Revoke(6, DOWN, 3), Revoke(7, UP, 4)],
            "Admitted Unknown Unknown 3 0 [0, 0, 0, 0, 0, 2, 1, 0]",
        ),
        // No point up to the left border of the first window is taken, and the last one is.
        (
            &[Add(1, UP, 0), Revoke(1, UP, 0), Add(1, UP, 1)],
            "Forgotten Forgotten Admitted 3 0 [3, 0, 0, 0, 0, 0, 0, 0]",
        ),
        (
            &[Add(1, UP, LAST), Add(1, UP, LAST), Revoke(1, UP, LAST)],
            "Admitted Already Revoked 3 0 [3, 0, 0, 0, 0, 0, 0, 0]",
        ),
        // The borders of windows 0 and 1, after the seal of window 0.
        (
            &[
                Seal,
                Add(1, UP, 5),
                Add(1, UP, 6),
                Add(1, UP, 10),
                Add(1, UP, 11),
            ],
            "0 Forgotten Delayed Delayed Admitted 5 1 [4, 0, 0, 0, 0, 0, 0, 0]",
        ),
        (
            &[
                Add(1, UP, 10),
                Add(1, UP, 11),
                Seal,
                Revoke(1, UP, 10),
                Revoke(1, UP, 11),
            ],
            "Admitted Admitted 0 DelayedRevoked Revoked 5 1 [4, 0, 0, 0, 0, 0, 0, 0]",
        ),
    ];
    for (calls, wanted) in rows {
        let found = told(rt.alloc(), PLAN, 100, calls)?;
        assert_eq!(rt; found.as_str(), wanted);
    }
    Ok(())
}

#[test]
fn a_full_log_and_a_plan_that_is_done_refuse(rt: HostRuntime) -> Result<(), Fail> {
    let feed = [Add(1, UP, 3), Seal, Revoke(1, UP, 3)];
    let seals = [Seal, Seal, Seal];
    let seal_and_feed = [Seal, Add(1, UP, 20), Seal];
    // How many queries and entries there may be, and the calls.
    let rows = [
        (
            2,
            0,
            feed.as_slice(),
            "LogFull LogFull LogFull 0 0 [0, 0, 0, 0, 0, 0, 0, 0]",
        ),
        (
            2,
            1,
            &feed,
            "Admitted LogFull LogFull 1 0 [1, 0, 0, 0, 0, 0, 0, 0]",
        ),
        (
            2,
            2,
            &feed,
            "Admitted 0 LogFull 2 1 [1, 0, 0, 0, 0, 0, 0, 0]",
        ),
        // A full log refuses first.
        (
            0,
            0,
            &seals,
            "LogFull LogFull LogFull 0 0 [0, 0, 0, 0, 0, 0, 0, 0]",
        ),
        (
            1,
            1,
            &seals,
            "0 LogFull LogFull 1 1 [0, 0, 0, 0, 0, 0, 0, 0]",
        ),
        (
            0,
            1,
            &seals,
            "NoMoreQueries NoMoreQueries NoMoreQueries 0 0 [0, 0, 0, 0, 0, 0, 0, 0]",
        ),
        (
            2,
            5,
            &seals,
            "0 1 NoMoreQueries 2 2 [0, 0, 0, 0, 0, 0, 0, 0]",
        ),
        (
            1,
            5,
            &seal_and_feed,
            "0 Admitted NoMoreQueries 2 1 [1, 0, 0, 0, 0, 0, 0, 0]",
        ),
        (
            1,
            2,
            &seal_and_feed,
            "0 Admitted LogFull 2 1 [1, 0, 0, 0, 0, 0, 0, 0]",
        ),
    ];
    for (queries, cap, calls, wanted) in rows {
        let plan = Plan { queries, ..PLAN };
        let found = told(rt.alloc(), plan, cap, calls)?;
        assert_eq!(rt; found.as_str(), wanted, "{queries} {cap}");
    }
    Ok(())
}
