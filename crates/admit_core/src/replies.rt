// The replies to adds and revokes.
ghost use Rattle.std.specs.Prelude.{◌≡◌, ◌<◌, ◌≤◌, ℕ, ◌+◌, ◌^◌, ◌++◌, ◌∷◌, [], length, true};
ghost use Rattle.std.specs.Option.{option_copied};
ghost use Rattle.ground_types.specs.Windows.{IsSoundPlan};
ghost use Rattle.ground_types.specs.History.{counts_for, is_add, stands, seals, reply_to};
ghost use Rattle.ground_types.specs.declared.entries.Entry.{Entry};
ghost use Rattle.ground_types.specs.declared.entries.Entry.TheVariants.{Fed};
ghost use Rattle.admit_core.specs.Index.{IsIndex};

use crate::index::{entry_of, place_of};
use ground_types::{Act, Entry, EventId, Plan, Point, Reply};

// Whether the entry, if there is one, is an add.
fn is_add(entry: Option<&Entry>) -> bool
    ensures { result ≡ is_add (option_copied entry.entry) }
{
    match entry {
        Some(Entry::Fed { act: Act::Add, .. }) => true,
        _ => false,
    }
}

// Whether the event stands at the point. The index then names the next entry as the last one of the
// event and the point.
fn note(history: &[Entry], slots: &mut [u32], event: EventId, at: Point) -> bool
    requires index { IsIndex (length slots.old) slots.old history.now }
    requires free { length history.now < length slots.old }
    requires fits { length history.now + 1 < 2 ^ 32 }
    ensures stands { result ≡ stands history.now event at }
    ensures index { (entry : Entry) → counts_for event at entry ≡ true
        → IsIndex (length slots.new) slots.new (history.now ++ entry ∷ []) }
{
    let place = place_of(history, slots, event, at);
    let stands = is_add(entry_of(history, slots[place]));
    slots[place] = history.len() as u32 + 1;
    stands
}

// The reply to an add or a revoke after a history with so many seals. The index is then that of the
// history with this entry.
pub fn answer(
    plan: &Plan,
    sealed: u32,
    history: &[Entry],
    slots: &mut [u32],
    act: Act,
    event: EventId,
    at: Point,
) -> Reply
    requires sound { IsSoundPlan plan.now }
    requires sealed { sealed ≡ seals history.now }
    requires few { sealed ≤ plan.now.queries }
    requires index { IsIndex (length slots.old) slots.old history.now }
    requires free { length history.now < length slots.old }
    requires fits { length history.now + 1 < 2 ^ 32 }
    ensures reply { result ≡ reply_to plan.now history.now act event at }
    ensures index { (feeder : ℕ) → IsIndex (length slots.new) slots.new
        (history.now ++ Fed feeder act event at result ∷ []) }
{
    if at <= plan.left(sealed) {
        return Reply::Forgotten;
    }
    let stands = note(history, slots, event, at);
    let is_delayed = sealed > 0 && at <= plan.right(sealed - 1);
    match (act, stands, is_delayed) {
        (Act::Add, true, _) => Reply::Already,
        (Act::Add, false, true) => Reply::Delayed,
        (Act::Add, false, false) => Reply::Admitted,
        (Act::Revoke, false, _) => Reply::Unknown,
        (Act::Revoke, true, true) => Reply::DelayedRevoked,
        (Act::Revoke, true, false) => Reply::Revoked,
    }
}
