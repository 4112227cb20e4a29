// The windows of a run.
ghost use Rattle.std.specs.Prelude.{◌≡◌, ◌≤◌};
ghost use Rattle.ground_types.specs.Windows.{left, right, IsSoundPlan};

use crate::Point;

/// The windows of a run. Query `k`, from 0 on and below `queries`, has the event points after `from
/// + k * step` and up to `from + k * step + window`, in whole points of time.
#[derive(Clone, Copy, Debug, PartialEq, Eq)]
pub struct Plan {
    /// How many event points a window has.
    pub window: u64,
    /// How far the next window begins after the one before it.
    pub step: u64,
    /// The left border of the first window.
    pub from: Point,
    /// How many queries there may be.
    pub queries: u32,
}

impl Plan {
    /// The left border of query `k`, which is no event point of it. It takes no memory.
    pub fn left(&self, k: u32) -> Point
        requires sound { IsSoundPlan self.now }
        requires within { k ≤ self.now.queries }
        ensures { result ≡ left self.now k }
    {
        self.from + u64::from(k) * self.step
    }

    /// The right border of query `k`, its last event point. It takes no memory.
    pub fn right(&self, k: u32) -> Point
        requires sound { IsSoundPlan self.now }
        requires within { k ≤ self.now.queries }
        ensures { result ≡ right self.now k }
    {
        self.left(k) + self.window
    }
}
