// How a run ends, and what is printed of it on the standard error.
ghost use Rattle.std.specs.Prelude.{◌≡◌};

use rt_base::{Limit, OutOfMemory};
use std::fmt;
use thiserror::Error;

/// Why a description is refused, with the line of the fault, counted from 1.
#[derive(Clone, Copy, Debug, Error, PartialEq, Eq)]
pub enum DescFault {
    /// A byte outside comments is not permitted.
    #[error("description line {line}: bad byte")]
    BadByte { line: u32 },
    /// A statement has no form.
    #[error("description line {line}: bad statement")]
    BadStatement { line: u32 },
    /// A declaration or a rule has more of something than it may.
    #[error("description line {line}: too many")]
    TooMany { line: u32 },
    /// A name, a value or an entity is not declared.
    #[error("description line {line}: undeclared")]
    Undeclared { line: u32 },
    /// A word is declared twice.
    #[error("description line {line}: twice")]
    Twice { line: u32 },
    /// A rule does not begin with a positive `happensAt`.
    #[error("description line {line}: no trigger")]
    NoTrigger { line: u32 },
    /// A name is of another kind than its place wants.
    #[error("description line {line}: wrong kind")]
    WrongKind { line: u32 },
    /// An atom has another number of arguments than its declaration.
    #[error("description line {line}: arity")]
    Arity { line: u32 },
    /// A variable stands at places of two domains.
    #[error("description line {line}: clash")]
    Clash { line: u32 },
    /// A variable is bound nowhere.
    #[error("description line {line}: loose")]
    Loose { line: u32 },
    /// A name depends on itself.
    #[error("description line {line}: cyclic")]
    Cyclic { line: u32 },
    /// The windows are not given, or not as they may be.
    #[error("description: bad plan")]
    BadPlan,
}

/// Why a script or a report is refused.
#[derive(Clone, Copy, Debug, Error, PartialEq, Eq)]
pub enum ScriptFault {
    /// A record has no form.
    #[error("bad record")]
    BadRecord,
    /// No order of the scripts keeps every wait.
    #[error("stuck")]
    Stuck,
}

/// How a run ends. Inputs are numbered from 0 in the order of the words, the description first.
#[derive(Clone, Copy, Debug, PartialEq, Eq)]
pub enum Status {
    /// The text was written whole, and every input was read to its end.
    Done,
    /// The words are not those of a known command.
    BadWords,
    /// The description is not accepted.
    BadDescription(DescFault),
    /// A record of a script has no form, or the scripts wait for each other.
    BadScript {
        input: u8,
        place: u32,
        fault: ScriptFault,
    },
    /// A quantity exceeds its limit.
    TooLarge {
        limit: Limit,
    },
    /// The count of faults of this input rose.
    ReadFault {
        input: u8,
    },
    /// The count of faults of the sink rose.
    WriteFault,
    /// Memory ran out.
    OutOfMemory,
    /// A report is not the expected one.
    Differs {
        number: u32,
        line: u32,
    },
}

impl Status {
    ghost use Rattle.run_status.specs.Numbers.{number_of};

    /// The status with which the program ends.
    pub fn number(&self) -> u8
        ensures { result ≡ number_of self.now }
    {
        match self {
            Status::Done => 0,
            Status::BadWords => 2,
            Status::BadDescription(_) => 3,
            Status::BadScript { .. } => 4,
            Status::TooLarge { .. } => 5,
            Status::ReadFault { .. } => 6,
            Status::WriteFault => 7,
            Status::OutOfMemory => 8,
            Status::Differs { .. } => 9,
        }
    }
}

impl From<OutOfMemory> for Status {
    ghost use Rattle.run_status.specs.declared.status.Status.TheVariants as status;

    ghost from_gives = { λ _ s. s ≡ status.OutOfMemory };

    fn from(_: OutOfMemory) -> Status {
        Status::OutOfMemory
    }
}

// The word of a limit in a fault line.
fn word_of(limit: Limit) -> &'static str {
    match limit {
        Limit::Description => "description",
        Limit::Script => "script",
        Limit::Inputs => "inputs",
        Limit::Units => "units",
        Limit::Events => "events",
        Limit::Assignments => "assignments",
        Limit::Rules => "rules",
        Limit::Conditions => "conditions",
        Limit::Cells => "cells",
        Limit::Commands => "commands",
        Limit::Seals => "seals",
        Limit::Occurrences => "occurrences",
        Limit::Points => "points",
    }
}

/// The fault line, without the program's name. Done has none.
impl fmt::Display for Status {
    fn fmt<W: fmt::Write>(&self, f: &mut fmt::Formatter<W>) -> fmt::Result {
        match self {
            Status::Done => Ok(()),
            Status::BadWords => write!(f, "words are not of a known command"),
            Status::BadDescription(fault) => write!(f, "{fault}"),
            Status::BadScript {
                input,
                place,
                fault,
            } => write!(f, "input {input} record {place}: {fault}"),
            Status::TooLarge { limit } => {
                let word = word_of(*limit);
                write!(f, "too large: {word}")
            }
            Status::ReadFault { input } => write!(f, "input {input} could not be read"),
            Status::WriteFault => write!(f, "output could not be written"),
            Status::OutOfMemory => write!(f, "out of memory"),
            Status::Differs { line, .. } => write!(f, "report differs at line {line}"),
        }
    }
}

#[cfg(test)]
mod tests;
