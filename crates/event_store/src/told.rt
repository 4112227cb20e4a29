// What is told of an event.
use ground_types::{EventId, Point};

/// One word on an event at a point: that it was added there, or that it was revoked.
#[derive(Clone, Copy, Debug, PartialEq, Eq)]
pub struct Told {
    pub event: EventId,
    pub at: Point,
    /// It was added; else it was revoked.
    pub stands: bool,
}
