// Rising lists of points.
ghost use Rattle.std.specs.Prelude.{◌≡◌, ◌↔◌, ◌+◌, ◌<◌, ◌==◌, ◌||◌, ◌&&◌, not, nat_lt, nat_le, ℕ};
ghost use Rattle.std.specs.Prelude.{[], length, take, filter, IsTrue, OnOk, OnErr, IfOk, IfSome};
ghost use Rattle.std.specs.Prelude.{IfNone, IsOkUnless};
ghost use Rattle.span_algebra.specs.Normal.{IsRising, IsFirstBad, has};

use crate::{ListRefused, Point};
use rt_base::OutOfMemory;
use std::alloc::Global;
use std::marker::Model;

/// A rising list of points: each is above the one before it.
#[derive(Debug, Drop)]
pub struct Points {
    alloc: Global,
    points: Vec<Point>,
}

impl Model for Points {
    ghost use Rattle.std.specs.Prelude.{List, ℕ};
    ghost use Rattle.span_algebra.specs.Normal.{IsRising};

    ghost Value = { List ℕ };

    ghost view = { λ s. s.points.items };

    ghost invariant = { λ s. IsRising s.points.items };
}

// Whether the list rises up to and with this place, where it rises before it.
fn rises_with(list: &[Point], place: usize) -> bool
    requires within { place < length list.now }
    requires before { IsRising (take place list.now) }
    ensures { IsTrue result ↔ IsRising (take (place + 1) list.now) }
{
    place == 0 || list[place - 1] < list[place]
}

// The place of the first point that is not above the one before it.
fn first_not_rising(list: &[Point]) -> Option<usize>
    ensures bad { IfSome result (IsFirstBad IsRising list.now) }
    ensures rising { IfNone result (IsRising list.now) }
{
    for place in 0..list.len() {
        if !rises_with(list, place) {
            return Some(place);
        }
    }
    None
}

impl Points {
    /// No point. It keeps the allocator for copies, and takes no memory.
    pub fn new(alloc: Global) -> Points
        ensures { result ≡ [] }
    {
        Points {
            alloc,
            points: Vec::new(alloc),
        }
    }

    /// A copy of a list, if it rises. Another is refused as `NotNormal`, at its first point that is
    /// not above the one before it. A rising one is refused only as `OutOfMemory`.
    pub fn from_list(alloc: Global, list: &[Point]) -> Result<Points, ListRefused>
        ensures ok { IfOk result (λ points. points ≡ list.now) }
        ensures rising { OnOk result (IsRising list.now) }
        ensures taken { IsRising list.now → IsOkUnless result ListRefused.OutOfMemory }
        ensures not_normal { (place : ℕ) → (result ≡ Err (ListRefused.NotNormal place))
            ↔ IsFirstBad IsRising list.now place }
    {
        if let Some(place) = first_not_rising(list) {
            return Err(ListRefused::NotNormal { place });
        }
        match Vec::from_slice(alloc, list) {
            Ok(points) => Ok(Points { alloc, points }),
            Err(_) => Err(ListRefused::OutOfMemory),
        }
    }

    /// The points of a vector, which have to rise. Nothing is copied: it takes no memory.
    pub fn of(alloc: Global, points: Vec<Point>) -> Points
        requires { IsRising points.items }
        ensures { result ≡ points.items }
    {
        Points { alloc, points }
    }

    /// The same points again, or `OutOfMemory`.
    pub fn copy(&self) -> Result<Points, OutOfMemory>
        ensures { IfOk result (λ points. points ≡ self.now) }
    {
        let points = Vec::from_slice(self.alloc, self.points.as_slice())?;
        Ok(Points {
            alloc: self.alloc,
            points,
        })
    }

    /// The points, in rising order. It takes no memory.
    pub fn as_slice(&self) -> &[Point]
        ensures list { result.now ≡ self.now }
        ensures rising { IsRising self.now }
    {
        self.points.as_slice()
    }

    /// Whether the point is among them. The search goes by halves, and takes no memory.
    pub fn has(&self, at: Point) -> bool
        ensures { result ≡ has self.now at }
    {
        self.points.binary_search(&at).is_ok()
    }

    /// The points above `w`, up to and with `q`. Two searches by halves; it takes no memory.
    pub fn within(&self, w: Point, q: Point) -> &[Point]
        ensures list { result.now ≡ filter (λ t. nat_lt w t && nat_le t q) self.now }
        ensures rising { IsRising result.now }
    {
        let above = &self.points[self.points.partition_point(|point| *point <= w)..];
        &above[..above.partition_point(|point| *point <= q)]
    }

    /// Puts a point among them, and says whether it was not there. The search goes by halves, and
    /// the points above it move up by one place. `OutOfMemory` leaves the points as they were.
    pub fn insert(&mut self, at: Point) -> Result<bool, OutOfMemory>
        ensures added { IfOk result (λ added. added ≡ not (has self.old at)) }
        ensures points { OnOk result ((t : ℕ) → has self.new t ≡ (has self.old t || (t == at))) }
        ensures refused { OnErr result (self.new ≡ self.old) }
    {
        match self.points.binary_search(&at) {
            Ok(_) => Ok(false),
            Err(place) => {
                self.points.insert(place, at)?;
                Ok(true)
            }
        }
    }

    /// Takes a point away, and says whether it was there. The search goes by halves, and the points
    /// above it move down by one place. It takes no memory.
    pub fn remove(&mut self, at: Point) -> bool
        ensures removed { result ≡ has self.old at }
        ensures points { (t : ℕ) → has self.new t ≡ (has self.old t && not (t == at)) }
    {
        match self.points.binary_search(&at) {
            Ok(place) => {
                self.points.remove(place);
                true
            }
            Err(_) => false,
        }
    }

    /// Takes the points up to and with `w` away. One search by halves, and where some go those that
    /// stay move down in one piece; it takes no memory.
    pub fn drop_until(&mut self, w: Point)
        ensures { self.new ≡ filter (λ t. nat_lt w t) self.old }
    {
        let count = self.points.partition_point(|point| *point <= w);
        if count > 0 {
            self.points.drain(..count);
        }
    }
}
