// What is told, what is answered, and what a script asks for.
use crate::{EventId, Point, UnitId, Value};

/// A ground input event at a point.
#[derive(Clone, Copy, Debug, PartialEq, Eq)]
pub struct Occ {
    pub event: EventId,
    pub at: Point,
}

/// Whether an event is told or withdrawn.
#[derive(Clone, Copy, Debug, PartialEq, Eq)]
pub enum Act {
    Add,
    Revoke,
}

/// What an add or a revoke is answered.
#[derive(Clone, Copy, Debug, PartialEq, Eq)]
pub enum Reply {
    /// An add after the window sealed last, or before any seal.
    Admitted,
    /// An add into the window sealed last.
    Delayed,
    /// An add of what stands already.
    Already,
    /// A revoke after the window sealed last, or before any seal.
    Revoked,
    /// A revoke into the window sealed last.
    DelayedRevoked,
    /// A revoke of what does not stand.
    Unknown,
    /// At or before the left border of the next window: it changes nothing.
    Forgotten,
}

/// An entry of a history.
#[derive(Clone, Copy, Debug, PartialEq, Eq)]
pub enum Entry {
    /// A feeder, 1 to 8, told or withdrew an event at a point.
    Fed {
        feeder: u8,
        act: Act,
        event: EventId,
        at: Point,
        reply: Reply,
    },
    /// The seal of a query, counted from 0.
    Seal {
        number: u32,
    },
}

/// What a reader asks of the publications so far.
#[derive(Clone, Copy, Debug, PartialEq, Eq)]
pub enum Query {
    /// Whether a fluent has a value at a point.
    Holds {
        unit: UnitId,
        value: Value,
        at: Point,
    },
    /// How many publications there are.
    Count,
    /// What is published of a query.
    Block {
        number: u64,
    },
}

/// A command of a script.
#[derive(Clone, Copy, Debug, PartialEq, Eq)]
pub enum Command {
    /// An add or a revoke by a feeder, 1 to 8.
    Feed {
        feeder: u8,
        act: Act,
        event: EventId,
        at: Point,
    },
    /// The next query is sealed.
    Seal,
    /// A reader's question.
    Ask(Query),
    /// Wait until there are so many seals, or for a reader so many publications.
    Wait {
        count: u64,
    },
    /// Wait until a feeder has so many entries.
    After {
        feeder: u8,
        count: u64,
    },
}
