// Places that a run passes, so that a test can order its threads.

/// A place that a run passes.
#[derive(Clone, Copy, Debug, PartialEq, Eq)]
pub enum Place {
    /// A feeder, counted from 1, has got the reply to an entry.
    FeederAnswered { feeder: u8 },
    /// A reader, counted from 1, has got an answer.
    ReaderAnswered { reader: u8 },
    /// The seal of this query stands in the log.
    SealTaken { number: u32 },
    /// The revision of this query has begun.
    RevisionOpen { number: u32 },
    /// This query is published.
    Published { number: u32 },
    /// A worker is about to work this number of a layer.
    WorkOpen { number: u32 },
}

/// What a run passes at each of its places. It may hold a thread there, and changes no answer.
pub trait Gate: Sync {
    /// Passes a place.
    fn pass(&self, place: Place);
}

/// A gate that holds nobody.
#[derive(Clone, Copy, Debug, PartialEq, Eq)]
pub struct NoGate;

impl Gate for NoGate {
    fn pass(&self, _place: Place) {}
}
