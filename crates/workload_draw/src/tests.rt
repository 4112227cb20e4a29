// What no clause says: that the call succeeds with ample memory, and workloads that another program
// drew.
ghost use Rattle.std.specs.Prelude.{◌≡◌, ◌≤◌, ◌+◌, [], IfOk};
ghost use Rattle.ground_types.specs.Windows.{IsSoundPlan};
ghost use Rattle.workload_draw.specs.Examples.{two_inputs};

use crate::workload;
use ground_types::{Command, Name, NameKind, Plan, Program};
use rt_base::{List, Word};
use std::alloc::Global;
use std::test::Fail;

// Windows of 10 points, each 5 points after the one before it.
const PLAN: Plan = Plan {
    window: 10,
    step: 5,
    from: 0,
    queries: 1,
};

// An input event without arguments.
fn input(alloc: Global, word: &str, event: u32) -> Result<Name, Fail>
    requires { event ≤ 1 }
    ensures { IfOk result (λ name. name ≡ record {
      word = word.now;
      kind = NameKind.Input;
      args = [];
      values = [];
      first = event;
      line = event + 5;
    }) }
{
    Ok(Name {
        word: Word::new(alloc, word)?,
        kind: NameKind::Input,
        args: List::of(Vec::new(alloc)),
        values: List::of(Vec::new(alloc)),
        first: event,
        line: event + 5,
    })
}

// Two input events, and nothing that they initiate.
fn program(alloc: Global, plan: Plan) -> Result<Program, Fail>
    ensures { IfOk result (λ program. program ≡ two_inputs plan) }
{
    let up = input(alloc, "up", 0)?;
    let down = input(alloc, "down", 1)?;
    Ok(Program {
        plan,
        domains: List::of(Vec::new(alloc)),
        names: List::of(vec![in alloc; up, down]?),
        units: List::of(Vec::new(alloc)),
        layers: List::of(Vec::new(alloc)),
        events: 2,
    })
}

// A command as a text.
fn text_of(alloc: Global, command: &Command) -> Result<String, Fail> {
    Ok(match command {
        Command::Feed {
            feeder,
            act,
            event,
            at,
        } => format!(in alloc; "{act:?} {feeder} {event} {at}, ")?,
        Command::Seal => format!(in alloc; "Seal, ")?,
        _other => format!(in alloc; "another, ")?,
    })
}

// How many commands there are, and those from a place on.
fn drawn(alloc: Global, plan: Plan, seed: u64, size: u32, from: usize) -> Result<String, Fail>
    requires sound { IsSoundPlan plan }
    requires queries { 1 ≤ plan.queries }
    requires some { 1 ≤ size }
{
    let program = program(alloc, plan)?;
    let commands = workload(alloc, &program, seed, size)?;
    let mut text = format!(in alloc; "{}: ", commands.len())?;
    for command in commands.iter().skip(from) {
        text.push_str(text_of(alloc, command)?.as_str())?;
    }
    Ok(text)
}

#[test]
fn workloads_are_those_of_another_program(rt: HostRuntime) -> Result<(), Fail> {
    let rows = [
        (
            2,
            11,
            5,
            0,
            "7: Add 8 0 0, Add 4 0 8, Revoke 6 0 0, Seal, Revoke 6 0 8, Add 6 0 5, Seal, ",
        ),
        (
            2,
            u64::MAX,
            3,
            0,
            "5: Add 1 1 0, Add 8 1 7, Seal, Add 1 0 6, Seal, ",
        ),
        (1024, 2, 1, 0, "2: Add 8 0 4, Seal, "),
        (
            1,
            104,
            4,
            0,
            "5: Add 6 0 5, Revoke 3 0 5, Revoke 8 0 5, Add 8 1 1, Seal, ",
        ),
        (1, 12, 70, 69, "71: Revoke 2 0 4, Seal, "),
        (
            3,
            1,
            300,
            297,
            "303: Add 1 1 15, Add 4 0 15, Add 5 0 17, Add 6 0 20, Add 2 0 7, Seal, ",
        ),
    ];
    for (queries, seed, size, from, wanted) in rows {
        let plan = Plan { queries, ..PLAN };
        let found = drawn(rt.alloc(), plan, seed, size, from)?;
        assert_eq!(rt; found.as_str(), wanted, "{seed}");
    }
    Ok(())
}
