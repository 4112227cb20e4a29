// A counter of steps that contracts alone see. It takes no bytes.
ghost use Rattle.std.specs.Prelude.{◌≡◌, ◌+◌, ◌-◌, ◌<◌};
ghost use Rattle.rt_base.specs.Tally.{counted};

use std::marker::{Brand, Model, PhantomData};
use std::mem;
use std::snapshot::Snapshot;
use std::sync::ledger::Ledger;

// What was done to a counter since it was made. No memory holds a whole one: a counter has a
// snapshot of its tally, and a turn has one of the tally before it. Only contracts see what a
// snapshot is of.
#[cycle(tally)]
#[derive(Drop)]
struct Tally {
    last: Turn,
}

// What was done last to a counter.
#[cycle(tally)]
#[derive(Drop)]
enum Turn {
    First,
    Tick(Snapshot<Tally>),
    Part(Snapshot<Tally>),
    Add(Snapshot<Tally>, Snapshot<Tally>),
}

impl Model for Tally {
    ghost use Rattle.std.specs.Prelude.{◌≤◌, ℕ};
    ghost use Rattle.std.proofs.Common.{arith};
    ghost use Rattle.rt_base.specs.Counted.{Counted};

    ghost Value = { Counted × ℕ };

    ghost use Rattle.rt_base.specs.Tally.{counted, age};

    ghost view = { λ h. (counted h.last, age h.last) };

    ghost size = { λ v. v.1 };

    ghost size_decreases = { λ a h. Prim.grind (arith) };
}

impl Turn {
    // A snapshot of the tally that ends with this turn.
    fn noted(self) -> Snapshot<Tally>
        ensures { result.value.0 ≡ counted self }
    {
        Snapshot::of(&Tally { last: self })
    }
}

/// A counter of steps. Contracts alone see its count, and how many of its parts are out.
///
/// It can't be dropped, so that a part that is let go can't hide its steps. A part is used up by
/// `add`, and the first counter by `end`, once no part is out. So no closure can own one either: a
/// thread borrows its part, as by `join_mut`, where `L` is `Send`.
pub struct Steps<L: Ledger> {
    tally: Snapshot<Tally>,
    marker: PhantomData<L>,
}

impl<L: Ledger> Model for Steps<L> {
    ghost use Rattle.rt_base.specs.Counted.{Counted};

    ghost Value = { Counted };

    ghost view = { λ s. s.tally.value.0 };
}

impl Steps<Brand> {
    /// A counter that has counted nothing.
    pub fn first() -> Steps<Brand>
        ensures { result ≡ record { count = 0; out = 0 } }
    {
        Steps::new()
    }

    /// Ends the counter.
    pub fn end(self)
        requires { self.out ≡ 0 }
    {
        self.into_tally();
    }
}

impl<L: Ledger> Steps<L> {
    // A counter that has counted nothing.
    fn new() -> Steps<L>
        ensures { result ≡ record { count = 0; out = 0 } }
    {
        Steps {
            tally: Turn::First.noted(),
            marker: PhantomData,
        }
    }

    /// Counts one step.
    pub fn tick(&mut self)
        ensures { self.new ≡ record { count = self.old.count + 1; out = self.old.out } }
    {
        self.tally = Turn::Tick(self.take_tally()).noted();
    }

    /// Gives out a part, which counts from nothing.
    pub fn part(&mut self) -> Steps<L>
        ensures part { result ≡ record { count = 0; out = 0 } }
        ensures out { self.new ≡ record { count = self.old.count; out = self.old.out + 1 } }
    {
        self.tally = Turn::Part(self.take_tally()).noted();
        Steps::new()
    }

    /// Takes a part back, and adds its count.
    pub fn add(&mut self, part: Steps<L>)
        requires out { 0 < self.old.out }
        requires whole { part.out ≡ 0 }
        ensures { self.new ≡ record {
          count = self.old.count + part.count;
          out = self.old.out - 1;
        } }
    {
        self.tally = Turn::Add(self.take_tally(), part.into_tally()).noted();
    }

    // The caller writes the next tally in the place of the one that is taken.
    fn take_tally(&mut self) -> Snapshot<Tally>
        ensures { result.value.0 ≡ self.old }
    {
        mem::replace(&mut self.tally, Turn::First.noted())
    }

    // The tally of a counter that is used up.
    fn into_tally(self) -> Snapshot<Tally>
        ensures { result.value.0 ≡ self }
    {
        let Steps { tally, marker: _ } = self;
        tally
    }
}

const _: () = prove!(mem::size_of::<Steps<Brand>>() == 0);
