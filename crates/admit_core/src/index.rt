// The index of a history: slots in which the last entry of an event and point that was not answered
// Forgotten is found by hash. A slot is 0 where it is empty, else one more than the place of an
// entry. The walk for an event and point begins at the slot that their hash gives, goes on from
// slot to slot, behind the last one with the first, and ends at an empty slot or at one that names
// an entry of theirs. A later entry takes that slot, and none is emptied. With two slots for each
// entry that there may be, at most half of them are in use, and a walk is a slot or two long, as
// long as few share one.
ghost use Rattle.std.specs.Prelude.{◌≡◌, ◌<◌, ◌≤◌, ℕ, length, slice_index, MatchOption, false};
ghost use Rattle.std.specs.Option.{option_copied};
ghost use Rattle.ground_types.specs.History.{counts_for};
ghost use Rattle.admit_core.specs.Index.{start, entry_at, stops, stops_at, IsFirst, EndsAt};
ghost use Rattle.admit_core.specs.Index.{IsIndex};

use ground_types::{Entry, EventId, Point, Reply};
use std::hash::{FoldHasher, Hasher};

// The slot at which the walk for an event and point starts: the high half of the product of their
// hash and the number of slots.
fn start_of(event: EventId, at: Point, count: usize) -> usize
    requires { 0 < count }
    ensures value { result ≡ start count event at }
    ensures within { result < count }
{
    let mut hasher = FoldHasher::default();
    hasher.write_u64(at);
    hasher.write_u32(event);
    let place = (u128::from(hasher.finish()) * count as u128) >> 64;
    (place as usize).min(count - 1)
}

// Whether an entry names this event and point, and was not answered Forgotten.
fn does_count(entry: &Entry, event: EventId, at: Point) -> bool
    ensures { result ≡ counts_for event at entry.now }
{
    match entry {
        Entry::Fed {
            event: named,
            at: point,
            reply,
            ..
        } => *named == event && *point == at && *reply != Reply::Forgotten,
        Entry::Seal { .. } => false,
    }
}

// The entry that a slot names; None where it is empty.
pub fn entry_of(history: &[Entry], slot: u32) -> Option<&Entry>
    requires { slot ≤ length history.now }
    ensures { option_copied result ≡ entry_at history.now slot }
{
    match slot {
        0 => None,
        next => Some(&history[next as usize - 1]),
    }
}

// Whether the walk for an event and point ends at a slot.
fn does_stop(history: &[Entry], slot: u32, event: EventId, at: Point) -> bool
    requires { slot ≤ length history.now }
    ensures { result ≡ stops event at (entry_at history.now slot) }
{
    match entry_of(history, slot) {
        None => true,
        Some(entry) => does_count(entry, event, at),
    }
}

// The first of some slots at which the walk for an event and point ends.
fn first_stop(history: &[Entry], slots: &[u32], event: EventId, at: Point) -> Option<usize>
    requires { (q : ℕ) → slice_index slots.now q ≤ length history.now }
    ensures { MatchOption result
        ((q : ℕ) → q < length slots.now → stops_at history.now slots.now event at q ≡ false)
        (λ p. IsFirst (length slots.now) (stops_at history.now slots.now event at) p) }
{
    for (place, slot) in slots.iter().enumerate() {
        if does_stop(history, *slot, event, at) {
            return Some(place);
        }
    }
    None
}

// The slot at which the walk for an event and point ends, where there are more slots than entries.
pub fn place_of(history: &[Entry], slots: &[u32], event: EventId, at: Point) -> usize
    requires index { IsIndex (length slots.now) slots.now history.now }
    requires free { length history.now < length slots.now }
    ensures { EndsAt (length slots.now) history.now slots.now event at result }
{
    let start = start_of(event, at, slots.len());
    let (before, behind) = slots.split_at(start);
    if let Some(skipped) = first_stop(history, behind, event, at) {
        return start + skipped;
    }
    match first_stop(history, before, event, at) {
        Some(place) => place,
        None => unreachable!(),
    }
}
