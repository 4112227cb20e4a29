// What was told and answered.
ghost use Rattle.std.specs.Prelude.{◌≡◌, ◌≢◌, ◌<◌, ◌≤◌, ◌++◌, ◌∷◌, [], length, IfOk, OnErr, IsErr};
ghost use Rattle.std.specs.Prelude.{◌↔◌, Err};
ghost use Rattle.ground_types.specs.Windows.{IsSoundPlan};
ghost use Rattle.ground_types.specs.History.{seals, reply_to};
ghost use Rattle.ground_types.specs.declared.entries.Entry.TheVariants.{Fed, Seal};
ghost use Rattle.admit_core.specs.declared.state.SealRefused.TheVariants as refused;
ghost use Rattle.admit_core.specs.Log.{IsKept, AreCounts};

use crate::front::Front;
use crate::replies::answer;
use ground_types::{Act, Entry, EventId, Plan, Point, Reply};
use rt_base::OutOfMemory;
use std::alloc::Global;
use std::marker::Model;

/// An add or a revoke is not taken: the history has as many entries as it may have.
#[derive(Clone, Copy, Debug, PartialEq, Eq)]
pub struct LogFull;

/// A seal is not taken.
#[derive(Clone, Copy, Debug, PartialEq, Eq)]
pub enum SealRefused {
    /// The history has as many entries as it may have.
    LogFull,
    /// The history may have more entries, but each query of the plan is sealed.
    NoMoreQueries,
}

/// A history that grows: what was told, and what was answered. Contracts see the plan, how many
/// events there are, how many entries there may be (`cap`), and the history. By its type the plan
/// is sound, the history is legal and has at most `cap` entries, and what is fed is of a feeder
/// from 1 to 8 and of an event that there is. An entry takes 24 bytes, and 8 more in the index by
/// which the last entry of an event and point is found; `new` makes the room for all of them.
#[derive(Drop)]
pub struct AdmitState {
    plan: Plan,
    events: u32,
    cap: u32,
    history: Vec<Entry>,
    // Two for each entry that there may be.
    slots: Vec<u32>,
    front: Front,
}

impl Model for AdmitState {
    ghost use Rattle.std.specs.Prelude.{vec_capacity};
    ghost use Rattle.admit_core.specs.Log.{Log};
    ghost use Rattle.admit_core.specs.Held.{IsHeld};

    ghost Value = { Log };

    ghost view = { λ s. record {
      plan = s.plan;
      events = s.events;
      cap = s.cap;
      history = s.history.items;
    } };

    ghost invariant = { λ s. IsHeld (record {
      plan = s.plan;
      events = s.events;
      cap = s.cap;
      history = s.history.items;
    }) s.front s.slots.items (vec_capacity s.history) };
}

impl AdmitState {
    /// An empty history, for a sound plan, events with the numbers below `events` and at most `cap`
    /// entries. No later call takes memory. The one error is want of memory.
    pub fn new(alloc: Global, plan: Plan, events: u32, cap: u32) -> Result<AdmitState, OutOfMemory>
        requires { IsSoundPlan plan }
        ensures { IfOk result (λ state. state ≡ record {
          plan = plan;
          events = events;
          cap = cap;
          history = [];
        }) }
    {
        let history = Vec::with_capacity(alloc, cap as usize)?;
        let slots = vec![in alloc; 0; 2 * cap as usize]?;
        Ok(AdmitState {
            plan,
            events,
            cap,
            history,
            slots,
            front: Front::new(),
        })
    }

    /// Appends an add or a revoke of an event at `at`, a whole point of time, with its reply. A
    /// feeder is a number from 1 to 8. `LogFull` comes exactly where the history has `cap` entries,
    /// and changes nothing. One look-up by hash; it takes no memory. The replies are our own.
    pub fn admit(
        &mut self,
        feeder: u8,
        act: Act,
        event: EventId,
        at: Point,
    ) -> Result<Reply, LogFull>
        requires feeder { (1 ≤ feeder) × (feeder ≤ 8) }
        requires event { event < self.old.events }
        ensures reply { IfOk result (λ reply. reply
            ≡ reply_to self.old.plan self.old.history act event at) }
        ensures ok { IfOk result (λ reply. self.new ≡ record self.old {
          history = self.old.history ++ Fed feeder act event at reply ∷ [];
        }) }
        ensures full { IsErr result ↔ (length self.old.history ≡ self.old.cap) }
        ensures err { OnErr result (self.new ≡ self.old) }
    {
        if self.history.len() == self.cap as usize {
            return Err(LogFull);
        }
        let reply = answer(
            &self.plan,
            self.front.seals,
            &self.history,
            &mut self.slots,
            act,
            event,
            at,
        );
        self.front.count_feed(feeder);
        let entry = Entry::Fed {
            feeder,
            act,
            event,
            at,
            reply,
        };
        match self.history.push(entry) {
            Ok(()) => Ok(reply),
            Err(_) => unreachable!(),
        }
    }

    /// Appends the seal of the next query, and answers its number, from 0 on. `LogFull` comes
    /// exactly where the history has `cap` entries; else `NoMoreQueries` exactly where each query
    /// of the plan is sealed. Both change nothing. It takes no memory. The numbers are our own.
    pub fn seal(&mut self) -> Result<u32, SealRefused>
        ensures number { IfOk result (λ number. number ≡ seals self.old.history) }
        ensures ok { IfOk result (λ number. self.new ≡ record self.old {
          history = self.old.history ++ Seal number ∷ [];
        }) }
        ensures full { (result ≡ Err refused.LogFull) ↔ (length self.old.history ≡ self.old.cap) }
        ensures no_more { (result ≡ Err refused.NoMoreQueries)
            ↔ ((length self.old.history ≢ self.old.cap)
            × (seals self.old.history ≡ self.old.plan.queries)) }
        ensures err { OnErr result (self.new ≡ self.old) }
    {
        if self.history.len() == self.cap as usize {
            return Err(SealRefused::LogFull);
        }
        let number = self.front.seals;
        if number == self.plan.queries {
            return Err(SealRefused::NoMoreQueries);
        }
        self.front.count_seal();
        match self.history.push(Entry::Seal { number }) {
            Ok(()) => Ok(number),
            Err(_) => unreachable!(),
        }
    }

    /// The history, and what the type keeps of it. It takes no memory.
    pub fn history(&self) -> &[Entry]
        ensures list { result.now ≡ self.now.history }
        ensures kept { IsKept self.now }
    {
        self.history.as_slice()
    }

    /// How many entries there are, how many seals, and how many entries of each feeder. No entry is
    /// looked at; it takes no memory.
    pub fn front(&self) -> Front
        ensures { AreCounts result self.now.history }
    {
        self.front
    }
}
