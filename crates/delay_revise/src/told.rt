// Words on events, brought to the first query that has their point, and from there to the store.
ghost use Rattle.std.specs.Prelude.{◌≡◌, ◌≤◌, ◌<◌, ◌+◌, ◌-◌, ◌*◌, ◌++◌, ◌∷◌, ℕ, suc, List, []};
ghost use Rattle.std.specs.Prelude.{true, false, length, take, OnOk, OnErr, IfSome, IfNone, Some};
ghost use Rattle.std.specs.List.{list_all};
ghost use Rattle.ground_types.specs.History.{stands, counts_for, is_add};
ghost use Rattle.ground_types.specs.Windows.{left, right, IsSoundPlan};
ghost use Rattle.ground_types.specs.declared.entries.Entry.{Entry};
ghost use Rattle.span_algebra.specs.Normal.{has};
ghost use Rattle.event_store.specs.Standing.{Events, standing, stood};
ghost use Rattle.event_store.specs.Words.{is_on};
ghost use Rattle.delay_revise.specs.Revising.{is_of};
ghost use Rattle.delay_revise.specs.Going.{IsDue, AreTold};

use event_store::{Ahead, EventStore, Told};
use ground_types::{Act, Entry, Plan, Point, Program, Reply};
use rt_base::OutOfMemory;

// How many whole steps fit into a distance.
fn whole_steps(distance: u64, step: u64) -> u64
    requires { 1 ≤ step }
    ensures down { result * step ≤ distance }
    ensures up { distance < (result + 1) * step }
    ensures most { result ≤ distance }
{
    distance / step
}

// The first query from query k on whose window does not end before the point, if it is one of the
// plan's.
pub(crate) fn first_query(plan: &Plan, k: u32, at: Point) -> Option<u32>
    requires sound { IsSoundPlan plan.now }
    requires within { k ≤ plan.now.queries }
    ensures some { IfSome result (λ q. (q < plan.now.queries) × IsDue plan.now k q at) }
    ensures none { IfNone result ((q : ℕ) → q < plan.now.queries → IsDue plan.now k q at → ⊥) }
{
    let right = plan.right(k);
    if at <= right {
        return if k < plan.queries { Some(k) } else { None };
    }
    let beyond = whole_steps(at - right - 1, plan.step);
    if beyond < u64::from(plan.queries - k).saturating_sub(1) {
        Some(k + 1 + beyond as u32)
    } else {
        None
    }
}

// The word that an entry is. A seal is none, and neither is what was forgotten.
fn word_of(entry: &Entry) -> Option<Told>
    ensures on { IfSome result (λ word. (event t : ℕ) → counts_for event t entry.now
        ≡ is_on event t word) }
    ensures says { IfSome result (λ word. is_add (Some entry.now) ≡ word.stands) }
    ensures known { IfSome result (λ word. (events : ℕ) → is_of events entry.now ≡ true
        → word.event < events) }
    ensures none { IfNone result ((event t : ℕ) → counts_for event t entry.now ≡ false) }
{
    match *entry {
        Entry::Seal { .. } => None,
        Entry::Fed {
            reply: Reply::Forgotten,
            ..
        } => None,
        Entry::Fed { act, event, at, .. } => Some(Told {
            event,
            at,
            stands: act == Act::Add,
        }),
    }
}

// Brings one entry to the words that wait: a word for the first query that has its point. Forgotten
// ones, seals, points up to the left border and points after the last window are passed over.
fn place(program: &Program, k: u32, entry: &Entry, ahead: &mut Ahead) -> Result<(), OutOfMemory>
    requires sound { IsSoundPlan program.now.plan }
    requires within { k ≤ program.now.plan.queries }
    requires known { is_of program.now.events entry.now ≡ true }
    requires size { length ahead.old ≡ program.now.plan.queries }
    ensures size { length ahead.new ≡ program.now.plan.queries }
    ensures told { OnOk result ((entries : List Entry) (store : Events) → AreTold program.now
        entries k store ahead.old → AreTold program.now (entries ++ entry.now ∷ []) k store
        ahead.new) }
    ensures refused { OnErr result (ahead.new ≡ ahead.old) }
{
    let Some(word) = word_of(entry) else {
        return Ok(());
    };
    if word.at <= program.plan.left(k) {
        return Ok(());
    }
    match first_query(&program.plan, k, word.at) {
        Some(query) => ahead.put(query, word),
        None => Ok(()),
    }
}

// Brings all entries from `placed` on; after want of memory it is known how far it came.
pub(crate) fn place_all(
    program: &Program,
    k: u32,
    history: &[Entry],
    placed: &mut usize,
    ahead: &mut Ahead,
) -> Result<(), OutOfMemory>
    requires sound { IsSoundPlan program.now.plan }
    requires within { k ≤ program.now.plan.queries }
    requires known { list_all (is_of program.now.events) history.now ≡ true }
    requires size { length ahead.old ≡ program.now.plan.queries }
    requires placed { placed.old ≤ length history.now }
    ensures told { (store : Events) → AreTold program.now (take placed.old history.now) k store
        ahead.old → AreTold program.now (take placed.new history.now) k store ahead.new }
    ensures all { OnOk result (placed.new ≡ length history.now) }
    ensures most { placed.new ≤ length history.now }
{
    while *placed < history.len() {
        place(program, k, &history[*placed], ahead)?;
        *placed += 1;
    }
    Ok(())
}

// Brings the words of query k to the store, and forgets what lies at or before its left border.
pub(crate) fn bring(
    program: &Program,
    k: u32,
    store: &mut EventStore,
    ahead: &mut Ahead,
) -> Result<(), OutOfMemory>
    requires sound { IsSoundPlan program.now.plan }
    requires within { k < program.now.plan.queries }
    requires size { length ahead.old ≡ program.now.plan.queries }
    ensures told { OnOk result ((entries : List Entry) → AreTold program.now entries k store.old
        ahead.old → AreTold program.now entries k store.new ahead.new) }
    ensures next { OnOk result ((entries : List Entry) → AreTold program.now entries k store.old
        ahead.old → AreTold program.now entries (suc k) store.new ahead.new) }
    ensures events { OnOk result ((entries : List Entry) → AreTold program.now entries k store.old
        ahead.old → (event t : ℕ) → left program.now.plan k < t → t ≤ right program.now.plan k
        → has (standing store.new event) t ≡ stands entries event t) }
    ensures stood { OnOk result ((event t : ℕ) → left program.now.plan k < t
        → stood store.new event t ≡ stood store.old event t) }
    ensures refused { OnErr result (store.new ≡ store.old) }
    ensures refused_ahead { OnErr result (ahead.new ≡ ahead.old) }
{
    store.tell_all(ahead.told(k))?;
    store.slide(program.plan.left(k));
    ahead.clear(k);
    Ok(())
}
