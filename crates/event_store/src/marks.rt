// What is kept of one event.
ghost use Rattle.std.specs.Prelude.{◌≡◌, ◌==◌, ◌&&◌, ◌||◌, not, nat_lt, ℕ, false, [], filter, OnOk};
ghost use Rattle.std.specs.Prelude.{OnErr, IfOk};
ghost use Rattle.ground_types.specs.Touched.{differs};
ghost use Rattle.span_algebra.specs.Normal.{IsRising, has};
ghost use Rattle.event_store.specs.Left.{has_some};

use ground_types::Point;
use rt_base::OutOfMemory;
use span_algebra::Points;
use std::alloc::Global;
use std::marker::Model;

// The points at which an event stands, and those at which its standing is another than when the
// store was settled last. A point that is added or taken away turns its mark: it is changed where
// it was not, and is no longer where it was.
#[derive(Drop)]
pub(crate) struct Marks {
    pub(crate) points: Points,
    pub(crate) changed: Points,
}

impl Model for Marks {
    ghost use Rattle.event_store.specs.Standing.{Kept};

    ghost Value = { Kept };

    ghost view = { λ marks. record { points = marks.points; changed = marks.changed } };
}

// A list of points rises, so that it is known by the points that it has.
fn rises(points: &Points)
    ensures { IsRising points.now }
{
    points.as_slice();
}

// Puts a point that the first list lacks into both lists, or into neither.
fn insert_both(first: &mut Points, second: &mut Points, at: Point) -> Result<(), OutOfMemory>
    requires first { has first.old at ≡ false }
    ensures first { OnOk result ((t : ℕ) → has first.new t ≡ (has first.old t || (t == at))) }
    ensures second { OnOk result ((t : ℕ) → has second.new t ≡ (has second.old t || (t == at))) }
    ensures refused_first { OnErr result (first.new ≡ first.old) }
    ensures refused_second { OnErr result (second.new ≡ second.old) }
{
    rises(first);
    first.insert(at)?;
    if second.insert(at).is_err() {
        first.remove(at);
        rises(first);
        return Err(OutOfMemory);
    }
    Ok(())
}

impl Marks {
    // It stands nowhere, and did not.
    pub(crate) fn new(alloc: Global) -> Marks
        ensures { result ≡ record { points = []; changed = [] } }
    {
        Marks {
            points: Points::new(alloc),
            changed: Points::new(alloc),
        }
    }

    // Lets it stand at a point, and says whether it did not before.
    pub(crate) fn add(&mut self, at: Point) -> Result<bool, OutOfMemory>
        ensures changed { IfOk result (λ changed. changed ≡ not (has self.old.points at)) }
        ensures standing { OnOk result ((t : ℕ) → has self.new.points t
            ≡ (has self.old.points t || (t == at))) }
        ensures settled { OnOk result ((t : ℕ) → differs (has self.new.points t)
            (has self.new.changed t) ≡ differs (has self.old.points t) (has self.old.changed t)) }
        ensures refused { OnErr result (self.new ≡ self.old) }
    {
        if self.points.has(at) {
            return Ok(false);
        }
        if self.changed.has(at) {
            self.points.insert(at)?;
            self.changed.remove(at);
        } else {
            insert_both(&mut self.points, &mut self.changed, at)?;
        }
        Ok(true)
    }

    // Lets it stand no more at a point, and says whether it did.
    pub(crate) fn revoke(&mut self, at: Point) -> Result<bool, OutOfMemory>
        ensures changed { IfOk result (λ changed. changed ≡ has self.old.points at) }
        ensures standing { OnOk result ((t : ℕ) → has self.new.points t
            ≡ (has self.old.points t && not (t == at))) }
        ensures settled { OnOk result ((t : ℕ) → differs (has self.new.points t)
            (has self.new.changed t) ≡ differs (has self.old.points t) (has self.old.changed t)) }
        ensures refused { OnErr result (self.new ≡ self.old) }
    {
        if !self.points.has(at) {
            return Ok(false);
        }
        if self.changed.has(at) {
            self.changed.remove(at);
        } else {
            self.changed.insert(at)?;
        }
        self.points.remove(at);
        Ok(true)
    }

    // Forgets the points up to and with `w`, and says whether something is left.
    pub(crate) fn slide(&mut self, w: Point) -> bool
        ensures slid { self.new ≡ record {
          points = filter (λ t. nat_lt w t) self.old.points;
          changed =
              filter (λ t. nat_lt w t) self.old.changed;
        } }
        ensures left { result ≡ has_some self.new }
    {
        self.points.drop_until(w);
        self.changed.drop_until(w);
        !(self.points.as_slice().is_empty() && self.changed.as_slice().is_empty())
    }

    // Takes what stands now for what stood.
    pub(crate) fn settle(&mut self, alloc: Global)
        ensures { self.new ≡ record { points = self.old.points; changed = [] } }
    {
        self.changed = Points::new(alloc);
    }
}
