// The events of a window, read out in order.
ghost use Rattle.std.specs.Prelude.{◌≡◌, ◌++◌, ℕ, ◌<◌, ◌≤◌, true, map, flat_map, nat_eq};
ghost use Rattle.std.specs.Prelude.{IfOk, OnOk};
ghost use Rattle.std.specs.List.{range_with_len, IsDistinct};
ghost use Rattle.std.specs.Map.{keys_of};
ghost use Rattle.span_algebra.specs.Normal.{IsRising, has};
ghost use Rattle.event_store.specs.Standing.{standing};
ghost use Rattle.event_store.specs.Occurring.{occurrences_of};

use crate::EventStore;
use ground_types::{EventId, Occ, Point};
use rt_base::OutOfMemory;

// Puts an event at some points behind the others.
fn put_points(found: &mut Vec<Occ>, event: EventId, points: &[Point]) -> Result<(), OutOfMemory>
    ensures { OnOk result (found.new.items ≡ found.old.items
        ++ map (λ t. record { event = event; at = t }) points.now) }
{
    for at in points {
        found.push(Occ { event, at: *at })?;
    }
    Ok(())
}

impl EventStore {
    // The events of which something is kept.
    fn keys(&self) -> Result<Vec<EventId>, OutOfMemory>
        ensures keys { IfOk result (λ events. events.items ≡ keys_of self.now) }
        ensures unique { IsDistinct nat_eq (keys_of self.now) }
    {
        let events = self.by_event.keys().copied().collect(self.alloc)?;
        Ok(events)
    }

    // The same in rising order.
    fn events(&self) -> Result<Vec<EventId>, OutOfMemory>
        ensures rising { IfOk result (λ events. IsRising events.items) }
        ensures all { IfOk result (λ events. (e t : ℕ) → has (standing self.now e) t ≡ true
            → has events.items e ≡ true) }
    {
        let mut events = self.keys()?;
        events.sort_unstable();
        Ok(events)
    }

    // Puts what stands of an event in a window behind the others.
    fn put_event(
        &self,
        found: &mut Vec<Occ>,
        event: EventId,
        w: Point,
        q: Point,
    ) -> Result<(), OutOfMemory>
        ensures { OnOk result (found.new.items ≡ found.old.items
            ++ occurrences_of self.now w q event) }
    {
        put_points(found, event, self.points(event).within(w, q))
    }

    // How many points of a window some events have.
    fn count(&self, events: &[EventId], w: Point, q: Point) -> usize {
        let mut count: usize = 0;
        for event in events {
            count = count.saturating_add(self.points(*event).within(w, q).len());
        }
        count
    }

    /// What stands in the window `(w, q]`, by event and then by point. The time is that of sorting
    /// the events of which something is kept, and of two searches and a copy for each.
    pub fn occurrences(&self, w: Point, q: Point) -> Result<Vec<Occ>, OutOfMemory>
        ensures { IfOk result (λ found. (events : ℕ)
            → ((e t : ℕ) → has (standing self.now e) t ≡ true → w < t → t ≤ q → e < events)
            → found.items ≡ flat_map (occurrences_of self.now w q) (range_with_len 0 events)) }
    {
        let events = self.events()?;
        let mut found = Vec::with_capacity(self.alloc, self.count(&events, w, q))?;
        for event in &events {
            self.put_event(&mut found, *event, w, q)?;
        }
        Ok(found)
    }
}
