// Many words at once.
ghost use Rattle.std.specs.Prelude.{◌≡◌, ℕ, [], if◌then◌else◌, IfOk, OnOk, OnErr};
ghost use Rattle.ground_types.specs.Touched.{differs};
ghost use Rattle.span_algebra.specs.Normal.{has};
ghost use Rattle.event_store.specs.Standing.{standing, stood};
ghost use Rattle.event_store.specs.Words.{is_on, last_word, after_words};
ghost use Rattle.event_store.specs.Turned.{AreTurned, kept_first};

use crate::marks::Marks;
use crate::{EventStore, Told};
use ground_types::EventId;
use indexmap::IndexMap;
use rt_base::OutOfMemory;
use span_algebra::{Points, symmetric_difference};
use std::alloc::Global;

// The words by event and then by point, so that the points of an event come in rising order; those
// on one event at one point stay in theirs.
fn in_order(alloc: Global, told: &[Told]) -> Result<Vec<Told>, OutOfMemory>
    ensures { IfOk result (λ words. (e t : ℕ) → last_word words.items e t
        ≡ last_word told.now e t) }
{
    let mut words = Vec::from_slice(alloc, told)?;
    words.sort_by_key(|word| (word.event, word.at))?;
    Ok(words)
}

// Puts what is kept of some events in the place of what was, or changes nothing. Of an event that
// is there twice the first counts.
fn put(
    by_event: &mut IndexMap<EventId, Marks>,
    mut fresh: Vec<(EventId, Marks)>,
) -> Result<(), OutOfMemory>
    ensures put { OnOk result ((e : ℕ) → kept_first [] by_event.new.entries e
        ≡ kept_first fresh.items by_event.old.entries e) }
    ensures refused { OnErr result (by_event.new.entries ≡ by_event.old.entries) }
{
    by_event.reserve(fresh.len())?;
    while let Some((event, kept)) = fresh.pop() {
        let _old = by_event.insert(event, kept).unwrap();
    }
    Ok(())
}

impl EventStore {
    // Turns the point of a word, in a store of the points at which words turn what stands here.
    fn turn(&self, turned: &mut EventStore, word: &Told) -> Result<(), OutOfMemory>
        ensures { OnOk result ((e t : ℕ) → has (standing turned.new e) t
            ≡ (if is_on e t word.now then differs (has (standing self.now e) t) word.now.stands
            else has (standing turned.old e) t)) }
    {
        if self.points(word.event).has(word.at) == word.stands {
            turned.revoke(word.event, word.at)?;
        } else {
            turned.add(word.event, word.at)?;
        }
        Ok(())
    }

    // The points at which words turn what stands. Each goes to the end of those of its event where
    // the words are in order.
    fn turned_by(&self, words: &[Told]) -> Result<EventStore, OutOfMemory>
        ensures { IfOk result (λ turned. (e t : ℕ) → has (standing turned e) t
            ≡ differs (has (standing self.now e) t) (after_words words.now e t
            (has (standing self.now e) t))) }
    {
        let mut turned = EventStore::new(self.alloc);
        for word in words {
            self.turn(&mut turned, word)?;
        }
        Ok(turned)
    }

    // What is kept of an event once it turns at some points: each of them turns its mark too.
    fn marks_of(&self, event: EventId, turned: &Points) -> Result<Marks, OutOfMemory>
        ensures standing { IfOk result (λ kept. (t : ℕ) → has kept.points t
            ≡ differs (has (standing self.now event) t) (has turned.now t)) }
        ensures settled { IfOk result (λ kept. (t : ℕ) → differs (has kept.points t)
            (has kept.changed t) ≡ stood self.now event t) }
    {
        let points = symmetric_difference(self.alloc, self.points(event), turned)?;
        let changed = symmetric_difference(self.alloc, self.changed(event), turned)?;
        Ok(Marks { points, changed })
    }

    // What is kept of each event that turns at some points.
    fn turned_marks(&self, turned: &EventStore) -> Result<Vec<(EventId, Marks)>, OutOfMemory>
        ensures { IfOk result (λ fresh. AreTurned self.now turned.now fresh.items) }
    {
        let mut fresh = Vec::with_capacity(self.alloc, turned.by_event.len())?;
        for (event, kept) in turned.by_event.iter() {
            fresh.push((*event, self.marks_of(*event, &kept.points)?))?;
        }
        Ok(fresh)
    }

    /// One word after the other, in their order: what stands is what the last word on an event at a
    /// point says, and what stood before where there is none. The time is that of sorting a copy of
    /// the words, and of one walk over what is kept of the events that are named, whatever the
    /// order of the words. `OutOfMemory` leaves the store as it was.
    pub fn tell_all(&mut self, told: &[Told]) -> Result<(), OutOfMemory>
        ensures standing { OnOk result ((e t : ℕ) → has (standing self.new e) t
            ≡ after_words told.now e t (has (standing self.old e) t)) }
        ensures settled { OnOk result ((e t : ℕ) → stood self.new e t ≡ stood self.old e t) }
        ensures refused { OnErr result (self.new ≡ self.old) }
    {
        let words = in_order(self.alloc, told)?;
        let turned = self.turned_by(&words)?;
        let fresh = self.turned_marks(&turned)?;
        put(&mut self.by_event, fresh)
    }
}
