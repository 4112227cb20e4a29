// Scripts, and why they are not taken.
use ground_types::Command;
use rt_base::{List, OutOfMemory};

/// Whose records a script has.
#[derive(Clone, Copy, Debug, PartialEq, Eq)]
pub enum Shape {
    /// Adds and revokes of all feeders, seals and questions.
    Merged,
    /// The adds, revokes and waits of one feeder, 1 to 8.
    Feeder { number: u8 },
    /// Seals, and what they wait for.
    Clock,
    /// Questions and waits.
    Reader,
}

/// A command and the number of its record, counted from 1.
#[derive(Clone, Copy, Debug, PartialEq, Eq)]
pub struct Placed {
    pub place: u32,
    pub command: Command,
}

/// The commands of a script.
#[derive(Debug, Drop)]
pub struct Script {
    /// In the order of their records.
    pub commands: List<Placed>,
    /// How many adds and revokes name no ground input event. They make no command.
    pub ignored: u64,
}

/// Why a script is not taken.
#[derive(Clone, Copy, Debug, PartialEq, Eq)]
pub enum StreamRefused {
    /// The first record that has no form, counted from 1.
    BadRecord { number: u32 },
    /// There are more than 2,097,152 records, and each of the first 2,097,152 has a form.
    TooMany,
    /// Memory ran out. No clause ties this answer to a refused growth.
    OutOfMemory,
}

impl From<OutOfMemory> for StreamRefused {
    ghost use Rattle.std.specs.Prelude.{◌≡◌};
    ghost use Rattle.stream_read.specs.declared.script.StreamRefused.TheVariants.{OutOfMemory};

    ghost from_gives = { λ _ e. e ≡ OutOfMemory };

    fn from(_: OutOfMemory) -> StreamRefused {
        StreamRefused::OutOfMemory
    }
}
