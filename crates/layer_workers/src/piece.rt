// Work that comes in numbers.
ghost use Rattle.std.specs.Prelude.{◌≡◌, ◌≤◌, ◌+◌, ℕ, IfOk, OnOk};

use rt_base::{OutOfMemory, Steps};
use std::alloc::Global;
use std::sync::ledger::Ledger;

/// Work that comes in numbers, each of which is worked by itself. Threads may share it. The form is
/// our own.
pub trait Piece: Sync {
    /// What a number is answered with.
    type Out: Send + Drop;

    /// The number may be worked.
    ghost may_work: { Self → ℕ → Type 0 };

    /// It is an answer for the number.
    ghost answers: { Self → ℕ → Self.Out → Type 0 };

    /// How many steps the number takes.
    ghost cost: { Self → ℕ → ℕ };

    /// Works a number that may be worked: gives an answer for it, and counts as many steps as it
    /// costs. The one error is want of memory, and counts at most as many.
    fn work<L: Ledger>(
        &self,
        alloc: Global,
        number: u32,
        steps: &mut Steps<L>,
    ) -> Result<Self::Out, OutOfMemory>
        requires { may_work self.now number }
        ensures answer { IfOk result (λ out. answers self.now number out) }
        ensures ok { OnOk result (steps.new.count ≡ steps.old.count + cost self.now number) }
        ensures least { steps.old.count ≤ steps.new.count }
        ensures most { steps.new.count ≤ steps.old.count + cost self.now number }
        ensures out { steps.new.out ≡ steps.old.out };
}
