// Adds and revokes, as they are drawn.
ghost use Rattle.std.specs.Prelude.{◌≡◌, ◌≤◌, ◌<◌, ◌+◌, ◌/◌, ◌++◌, ◌∷◌, [], slice_get};
ghost use Rattle.ground_types.specs.Windows.{IsSoundPlan};
ghost use Rattle.workload_draw.specs.Spaced.{AreSpaced};
ghost use Rattle.workload_draw.specs.Workload.{next_state, point_drawn, added, revoked};
ghost use Rattle.workload_draw.specs.Workload.{with_feed};

use crate::draws::Draws;
use ground_types::{Act, Command, Plan, Point, Program};

// A point of an add for query k.
fn point(plan: &Plan, k: u32, draws: &mut Draws) -> Point
    requires sound { IsSoundPlan plan.now }
    requires within { k ≤ plan.now.queries }
    ensures is { result ≡ point_drawn plan.now k draws.old.state }
    ensures next { draws.new.state ≡ next_state draws.old.state }
{
    let above = plan.left(k) + 1 + draws.draw(plan.window + plan.step);
    above.saturating_sub(plan.step)
}

// An add by a feeder, for query k.
fn add(program: &Program, feeder: u8, k: u32, draws: &mut Draws) -> Command
    requires sound { IsSoundPlan program.now.plan }
    requires within { k ≤ program.now.plan.queries }
    requires some { 1 ≤ program.now.events }
    ensures is { result ≡ added program.now feeder k draws.old.state }
    ensures next { draws.new.state ≡ next_state (next_state draws.old.state) }
{
    let event = draws.draw(u64::from(program.events)) as u32;
    let at = point(&program.plan, k, draws);
    Command::Feed {
        feeder,
        act: Act::Add,
        event,
        at,
    }
}

// The revoke by a feeder of what the command at a place names.
fn revoke(commands: &[Command], place: usize, feeder: u8) -> Command
    ensures { result ≡ revoked feeder (slice_get commands.now place) }
{
    match commands.get(place) {
        Some(Command::Feed { event, at, .. }) => Command::Feed {
            feeder,
            act: Act::Revoke,
            event: *event,
            at: *at,
        },
        _other => Command::Feed {
            feeder,
            act: Act::Revoke,
            event: 0,
            at: 0,
        },
    }
}

// Command i, behind those before it, with a seal behind each m of them.
pub(crate) fn feed(
    program: &Program,
    m: u32,
    i: u32,
    before: &[Command],
    draws: &mut Draws,
) -> Command
    requires sound { IsSoundPlan program.now.plan }
    requires some { 1 ≤ program.now.events }
    requires every { 1 ≤ m }
    requires within { i / m ≤ program.now.plan.queries }
    requires spaced { AreSpaced m i (i / m) before.now }
    ensures { record { state = draws.new.state; commands = before.now ++ result ∷ [] }
        ≡ with_feed program.now m i
        (record { state = draws.old.state; commands = before.now }) }
{
    let feeder = 1 + draws.draw(8) as u8;
    if draws.draw(10) == 0 && i > 0 {
        let back = draws.draw(u64::from(i.min(64))) as u32;
        let j = i - 1 - back;
        revoke(before, j as usize + (j / m) as usize, feeder)
    } else {
        add(program, feeder, i / m, draws)
    }
}
