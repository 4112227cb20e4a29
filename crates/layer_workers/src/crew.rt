// Those who do the work.
ghost use Rattle.std.specs.Prelude.{◌≡◌, ◌≤◌, ◌<◌, ◌+◌, ℕ, IfOk, OnOk};
ghost use Rattle.layer_workers.specs.Answers.{cost_below, AreAnswers};

use crate::Piece;
use rt_base::{OutOfMemory, Steps};
use std::alloc::Global;
use std::sync::ledger::Ledger;
use std::thread::Threads;

/// How a crew goes about its numbers. A further way to work is a further variant.
#[derive(Clone, Copy, Debug, PartialEq, Eq)]
pub enum Way {
    /// One after the other, in the thread of the caller.
    OneByOne,
}

/// Those who do numbered work. A crew says how it goes about it, and `all` has it done. The form is
/// our own.
pub trait Crew: Sync {
    /// How the numbers are worked.
    fn plan(&self) -> Way;

    /// What is done before a number is worked, by the thread that works it: nothing, unless a crew
    /// says otherwise. Whatever it does, `all` keeps its promise.
    fn before_work(&self, _number: u32) {}

    /// Has the numbers below `n` worked, all of which may be: the answer has `n` items, each an
    /// answer for the number at whose place it stands, and as many steps are counted as these
    /// numbers cost. The one error is want of memory, and counts at most as many.
    final fn all<R: Threads + Sync, P: Piece, L: Ledger + Send>(
        &self,
        rt: &R,
        alloc: Global,
        n: u32,
        piece: &P,
        steps: &mut Steps<L>,
    ) -> Result<Vec<P::Out>, OutOfMemory>
        requires { (number : ℕ) → number < n → P.may_work piece.now number }
        ensures all { IfOk result (λ outs. AreAnswers (P.answers piece.now) n outs.items) }
        ensures ok { OnOk result (
            steps.new.count ≡ steps.old.count + cost_below (P.cost piece.now) n) }
        ensures least { steps.old.count ≤ steps.new.count }
        ensures most { steps.new.count ≤ steps.old.count + cost_below (P.cost piece.now) n }
        ensures out { steps.new.out ≡ steps.old.out }
    {
        match self.plan() {
            Way::OneByOne => in_turn(self, alloc, n, piece, steps),
        }
    }
}

/// A crew of the caller alone, who works the numbers in order.
#[derive(Clone, Copy, Debug, PartialEq, Eq)]
pub struct OneByOne;

impl Crew for OneByOne {
    fn plan(&self) -> Way {
        Way::OneByOne
    }
}

// Works the numbers below `n` in order, in this thread.
fn in_turn<C: Crew, P: Piece, L: Ledger>(
    crew: &C,
    alloc: Global,
    n: u32,
    piece: &P,
    steps: &mut Steps<L>,
) -> Result<Vec<P::Out>, OutOfMemory>
    requires { (number : ℕ) → number < n → P.may_work piece.now number }
    ensures all { IfOk result (λ outs. AreAnswers (P.answers piece.now) n outs.items) }
    ensures ok { OnOk result (
        steps.new.count ≡ steps.old.count + cost_below (P.cost piece.now) n) }
    ensures least { steps.old.count ≤ steps.new.count }
    ensures most { steps.new.count ≤ steps.old.count + cost_below (P.cost piece.now) n }
    ensures out { steps.new.out ≡ steps.old.out }
{
    let mut outs = Vec::with_capacity(alloc, n as usize)?;
    for number in 0..n {
        crew.before_work(number);
        let out = piece.work(alloc, number, steps)?;
        outs.push(out)?;
    }
    Ok(outs)
}
