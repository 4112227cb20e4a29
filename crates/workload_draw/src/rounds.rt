// Round after round: an add or a revoke, and a seal where one follows.
ghost use Rattle.std.specs.Prelude.{◌≡◌, ◌≤◌, ◌<◌, ◌/◌, [], IfOk};
ghost use Rattle.ground_types.specs.Sound.{IsSound};
ghost use Rattle.ground_types.specs.Windows.{IsSoundPlan};
ghost use Rattle.workload_draw.specs.Counts.{feed_count, seal_count};
ghost use Rattle.workload_draw.specs.Spaced.{AreSpaced};
ghost use Rattle.workload_draw.specs.Workload.{per_seal, with_feed, with_seal, with_round};
ghost use Rattle.workload_draw.specs.Workload.{workload_of, AreMade};

use crate::draws::Draws;
use crate::feeds::feed;
use ground_types::{Command, Program};
use rt_base::OutOfMemory;
use std::alloc::Global;
use std::marker::Model;

// A workload while it is drawn.
#[derive(Drop)]
struct Made {
    draws: Draws,
    commands: Vec<Command>,
}

impl Model for Made {
    ghost use Rattle.workload_draw.specs.Workload.{Drawing};

    ghost Value = { Drawing };

    ghost view = { λ made. record {
      state = made.draws.state;
      commands = made.commands.items;
    } };
}

impl Made {
    fn new(alloc: Global, seed: u64) -> Made
        ensures { result ≡ record { state = seed; commands = [] } }
    {
        Made {
            draws: Draws { state: seed },
            commands: Vec::new(alloc),
        }
    }

    // Adds command i, with a seal behind each `m` commands.
    fn add_feed(&mut self, program: &Program, m: u32, i: u32) -> Result<(), OutOfMemory>
        requires sound { IsSoundPlan program.now.plan }
        requires some { 1 ≤ program.now.events }
        requires every { 1 ≤ m }
        requires within { i / m ≤ program.now.plan.queries }
        requires spaced { AreSpaced m i (i / m) self.old.commands }
        ensures { IfOk result (λ done. self.new ≡ with_feed program.now m i self.old) }
    {
        let command = feed(program, m, i, &self.commands, &mut self.draws);
        self.commands.push(command)?;
        Ok(())
    }

    // Adds the seal that follows command i, if one does.
    fn add_seal(&mut self, size: u32, m: u32, i: u32) -> Result<(), OutOfMemory>
        requires every { 1 ≤ m }
        requires within { i < size }
        ensures { IfOk result (λ done. self.new ≡ with_seal size m i self.old) }
    {
        if (i + 1) % m == 0 || i + 1 == size {
            self.commands.push(Command::Seal)?;
        }
        Ok(())
    }

    fn into_commands(self) -> Vec<Command>
        ensures { result.items ≡ self.commands }
    {
        let Made { commands, .. } = self;
        commands
    }
}

/// The workload of a seed and a size: adds, revokes and seals, by which people try a description at
/// scale. It has at most `size` adds and revokes (none where the program has no input events), of
/// feeders from 1 to 8 and events of the program, and at most as many seals as queries. The one
/// error is want of memory. The scheme is our own, over the generator of Knuth's MMIX.
pub fn workload(
    alloc: Global,
    program: &Program,
    seed: u64,
    size: u32,
) -> Result<Vec<Command>, OutOfMemory>
    requires sound { IsSound program.now }
    requires some { 1 ≤ size }
    requires queries { 1 ≤ program.now.plan.queries }
    ensures is { IfOk result (λ commands. commands.items ≡ workload_of program.now seed size) }
    ensures made { IfOk result (λ commands. AreMade program.now commands.items) }
    ensures feeds { IfOk result (λ commands. feed_count commands.items ≤ size) }
    ensures seals { IfOk result (λ commands. seal_count commands.items
        ≤ program.now.plan.queries) }
{
    let m = size.div_ceil(program.plan.queries);
    let mut made = Made::new(alloc, seed);
    for i in 0..size {
        if program.events > 0 {
            made.add_feed(program, m, i)?;
        }
        made.add_seal(size, m, i)?;
    }
    Ok(made.into_commands())
}
