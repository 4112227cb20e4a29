// The store.
ghost use Rattle.std.specs.Prelude.{◌≡◌, ◌==◌, ◌&&◌, ◌||◌, not, nat_lt, ℕ, false, [], OnOk, OnErr};
ghost use Rattle.std.specs.Prelude.{IfOk, nat_eq};
ghost use Rattle.ground_types.specs.Touched.{differs};
ghost use Rattle.span_algebra.specs.Normal.{has};
ghost use Rattle.indexmap.specs.IndexMap.{IsUnique};
ghost use Rattle.event_store.specs.Standing.{standing, stood};

use crate::marks::Marks;
use ground_types::{EventId, Point};
use indexmap::IndexMap;
use rt_base::OutOfMemory;
use span_algebra::Points;
use std::alloc::Global;
use std::marker::Model;

/// The input events that stand, and what changed of it since the store was settled last. Contracts
/// see a list of events with the points at which each stands and those at which its standing has
/// changed, in the order in which they were first told.
#[derive(Drop)]
pub struct EventStore {
    pub(crate) alloc: Global,
    pub(crate) by_event: IndexMap<EventId, Marks>,
    // What an event has that was never told.
    none: Points,
}

impl Model for EventStore {
    ghost use Rattle.std.specs.Prelude.{◌≡◌, []};
    ghost use Rattle.event_store.specs.Standing.{Events};

    ghost Value = { Events };

    ghost view = { λ store. store.by_event.entries };

    ghost invariant = { λ store. store.none ≡ [] };
}

// No event is there twice.
fn is_unique(by_event: &IndexMap<EventId, Marks>)
    ensures { IsUnique nat_eq by_event.now }
{
    by_event.len();
}

impl EventStore {
    /// Nothing stands, and nothing did. It takes no memory.
    pub fn new(alloc: Global) -> EventStore
        ensures standing { (event : ℕ) → standing result event ≡ [] }
        ensures settled { (event t : ℕ) → stood result event t ≡ false }
    {
        EventStore {
            alloc,
            by_event: IndexMap::new(alloc),
            none: Points::new(alloc),
        }
    }

    /// Lets an event stand at `at`, a whole point of time, and says whether it did not before. One
    /// look-up by hash and a few searches by halves. `OutOfMemory` leaves the store as it was.
    pub fn add(&mut self, event: EventId, at: Point) -> Result<bool, OutOfMemory>
        ensures changed { IfOk result (λ changed. changed
            ≡ not (has (standing self.old event) at)) }
        ensures standing { OnOk result ((e t : ℕ) → has (standing self.new e) t
            ≡ (has (standing self.old e) t || ((e == event) && (t == at)))) }
        ensures settled { OnOk result ((e t : ℕ) → stood self.new e t ≡ stood self.old e t) }
        ensures refused { OnErr result (self.new ≡ self.old) }
    {
        if let Some(kept) = self.by_event.get_mut(&event) {
            return kept.add(at);
        }
        let mut kept = Marks::new(self.alloc);
        kept.add(at)?;
        self.by_event.insert(event, kept)?;
        Ok(true)
    }

    /// Lets an event stand no more at `at`, a whole point of time, and says whether it did. One
    /// look-up by hash and a few searches by halves. `OutOfMemory` leaves the store as it was.
    pub fn revoke(&mut self, event: EventId, at: Point) -> Result<bool, OutOfMemory>
        ensures changed { IfOk result (λ changed. changed ≡ has (standing self.old event) at) }
        ensures standing { OnOk result ((e t : ℕ) → has (standing self.new e) t
            ≡ (has (standing self.old e) t && not ((e == event) && (t == at)))) }
        ensures settled { OnOk result ((e t : ℕ) → stood self.new e t ≡ stood self.old e t) }
        ensures refused { OnErr result (self.new ≡ self.old) }
    {
        if let Some(kept) = self.by_event.get_mut(&event) {
            return kept.revoke(at);
        }
        Ok(false)
    }

    /// Forgets every point up to and with `w`, a whole point of time: at none of them does an event
    /// stand, and at none did one. An event of which no point is left is forgotten too, so what is
    /// kept is never more than what stands in the window or has changed of it. One walk over the
    /// events, with a search by halves in the points of each, of which those that stay move in one
    /// piece; it takes no memory.
    pub fn slide(&mut self, w: Point)
        ensures standing { (e t : ℕ) → has (standing self.new e) t
            ≡ (nat_lt w t && has (standing self.old e) t) }
        ensures settled { (e t : ℕ) → stood self.new e t ≡ (nat_lt w t && stood self.old e t) }
    {
        is_unique(&self.by_event);
        self.by_event.retain(|_, kept| kept.slide(w));
    }

    /// Takes what stands now for what stood: nothing has changed since. One walk over the events;
    /// it takes no memory.
    pub fn settle(&mut self)
        ensures standing { (e : ℕ) → standing self.new e ≡ standing self.old e }
        ensures settled { (e t : ℕ) → stood self.new e t ≡ has (standing self.old e) t }
    {
        let alloc = self.alloc;
        self.by_event.retain(|_, kept| {
            kept.settle(alloc);
            true
        });
    }

    /// The points at which an event stands. One look-up by hash; it takes no memory.
    pub fn points(&self, event: EventId) -> &Points
        ensures { result.now ≡ standing self.now event }
    {
        match self.by_event.get(&event) {
            Some(kept) => &kept.points,
            None => &self.none,
        }
    }

    /// The points at which an event stands and did not when the store was settled last, and those
    /// at which it stood and does no more. One look-up by hash; it takes no memory.
    pub fn changed(&self, event: EventId) -> &Points
        ensures { (t : ℕ) → has result.now t ≡ differs (has (standing self.now event) t)
            (stood self.now event t) }
    {
        match self.by_event.get(&event) {
            Some(kept) => &kept.changed,
            None => &self.none,
        }
    }
}
