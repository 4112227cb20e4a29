// The steps of the core, and what they are answered.
use ground_types::{Act, EventId, Point, Query, Reply, UnitId};
use query_ask::Answer;
use rt_base::OutOfMemory;

/// A step of the core.
#[derive(Clone, Copy, Debug, PartialEq, Eq)]
pub enum Step {
    /// A feeder, 1 to 8, adds or withdraws an event at a point.
    Feed {
        feeder: u8,
        act: Act,
        event: EventId,
        at: Point,
    },
    /// The next query is sealed, and its revision opens.
    Seal,
    /// A worker asks for a unit of the open layer.
    Claim,
    /// A worker is done with a unit.
    Finish {
        unit: UnitId,
    },
    /// The open layer ends.
    Turn,
    /// The open revision ends with its publication.
    Publish,
    /// A reader, from 0 on, asks of the publications so far.
    Read {
        reader: u8,
        query: Query,
    },
}

/// What a step is answered, and a refusal as the outcome of one of many steps.
#[derive(Clone, Copy, Debug, PartialEq, Eq)]
pub enum Outcome {
    /// To Feed: its reply.
    Replied(Reply),
    /// To Seal: the number of the query, from 0 on.
    Sealed { number: u32 },
    /// To Claim: the lowest unit of the open layer that was not claimed.
    Claimed { unit: UnitId },
    /// To Finish.
    Finished,
    /// To Turn.
    Turned,
    /// To Publish: the number of the query.
    Published { number: u32 },
    /// To Read: how many publications there are, and the answer by the last of them.
    Read { have: u32, answer: Answer },
    /// The step was refused, and changed nothing. It never has `OutOfMemory` here.
    Refused(StepRefused),
}

/// Why a step is refused.
#[derive(Clone, Copy, Debug, PartialEq, Eq)]
pub enum StepRefused {
    /// Feed and Seal: the history has as many entries as it may have.
    LogFull,
    /// Seal: a revision is open.
    Busy,
    /// Seal: each query of the plan is sealed.
    NoMoreQueries,
    /// Claim, Finish, Turn and Publish: no revision is open.
    Idle,
    /// Claim: each unit of the open layer is claimed, or all layers are turned.
    NoUnit,
    /// Finish: the unit is not claimed in the open layer, or it is finished.
    NotClaimed,
    /// Turn: all layers are turned.
    LayersDone,
    /// Turn: a unit of the open layer is not finished.
    LayerOpen,
    /// Publish: a layer is not turned.
    LayersLeft,
    /// There is no memory for the step.
    OutOfMemory,
}

impl From<OutOfMemory> for StepRefused {
    ghost use Rattle.std.specs.Prelude.{◌≡◌};
    ghost use Rattle.system_core.specs.declared.steps.StepRefused.TheVariants.{OutOfMemory};

    ghost from_gives = { λ _ e. e ≡ OutOfMemory };

    fn from(_: OutOfMemory) -> StepRefused {
        StepRefused::OutOfMemory
    }
}
