// What no clause says: that numbers are worked with ample memory, in which order, and what is done
// before each. And small sums that the contracts come to.
ghost use Rattle.std.specs.Prelude.{◌≡◌, ◌+◌, ◌*◌, ◌%◌, OnOk};

use crate::{Crew, OneByOne, Piece, Way};
use rt_base::{OutOfMemory, Steps};
use std::alloc::Global;
use std::sync::atomic::{AtomicU64, Ordering};
use std::sync::ledger::Ledger;
use std::test::Fail;
use std::thread::Threads;

// What was done, in order, as the digits of a number behind a first 1.
#[derive(Drop)]
struct Trace {
    digits: AtomicU64,
}

impl Trace {
    fn new() -> Trace {
        Trace {
            digits: AtomicU64::new(1),
        }
    }

    // Puts a digit behind those before.
    fn note(&self, digit: u32) {
        let before = self.digits.load(Ordering::SeqCst);
        let digits = before.wrapping_mul(10).wrapping_add(u64::from(digit));
        self.digits.store(digits, Ordering::SeqCst);
    }
}

// The squares of numbers, of which one may be refused. An even number takes a step and an odd one
// two. Each notes a 9.
#[derive(Clone, Copy)]
struct Squares<'a> {
    trace: &'a Trace,
    refused: Option<u32>,
}

impl Piece for Squares<'_> {
    type Out = u64;

    ghost may_work = { λ s number. Unit {0} };

    ghost answers = { λ s number out. out ≡ number * number };

    ghost cost = { λ s number. 1 + number % 2 };

    fn work<L: Ledger>(
        &self,
        _alloc: Global,
        number: u32,
        steps: &mut Steps<L>,
    ) -> Result<u64, OutOfMemory> {
        self.trace.note(9);
        if self.refused == Some(number) {
            return Err(OutOfMemory);
        }
        steps.tick();
        if number % 2 == 1 {
            steps.tick();
        }
        Ok(u64::from(number) * u64::from(number))
    }
}

// Works in turn, and notes each number before it is worked.
#[derive(Clone, Copy)]
struct Noting<'a> {
    trace: &'a Trace,
}

impl Crew for Noting<'_> {
    fn plan(&self) -> Way {
        Way::OneByOne
    }

    fn before_work(&self, number: u32) {
        self.trace.note(number);
    }
}

// What contracts alone see: the numbers below 5 take 7 steps, whatever the crew.
fn five<C: Crew, R: Threads + Sync, L: Ledger + Send>(
    rt: &R,
    alloc: Global,
    crew: &C,
    trace: &Trace,
    steps: &mut Steps<L>,
) -> Result<Vec<u64>, OutOfMemory>
    ensures ok { OnOk result (steps.new.count ≡ steps.old.count + 7) }
    ensures out { steps.new.out ≡ steps.old.out }
{
    let refused = None;
    crew.all(rt, alloc, 5, &Squares { trace, refused }, steps)
}

// What a crew answers to some numbers, and what was done.
fn told<C: Crew, R: Threads + Sync>(
    rt: &R,
    alloc: Global,
    crew: &C,
    squares: &Squares,
    n: u32,
) -> Result<String, Fail> {
    let mut steps = Steps::first();
    let answer = crew.all(rt, alloc, n, squares, &mut steps);
    steps.end();
    let digits = squares.trace.digits.load(Ordering::SeqCst);
    Ok(format!(in alloc; "{answer:?} {digits}")?)
}

// The same by the caller alone, and by a crew that notes each number.
fn both_told<R: Threads + Sync>(
    rt: &R,
    alloc: Global,
    n: u32,
    refused: Option<u32>,
) -> Result<String, Fail> {
    let trace = &Trace::new();
    let alone = told(rt, alloc, &OneByOne, &Squares { trace, refused }, n)?;
    let trace = &Trace::new();
    let noting = told(rt, alloc, &Noting { trace }, &Squares { trace, refused }, n)?;
    Ok(format!(in alloc; "{alone}; {noting}")?)
}

#[test]
fn numbers_are_worked_in_turn(rt: HostRuntime) -> Result<(), Fail> {
    // A count, the number that is refused: what is answered and done.
    for (n, refused, wanted) in [
        (0, None, "Ok([]) 1; Ok([]) 1"),
        (1, None, "Ok([0]) 19; Ok([0]) 109"),
        (3, Some(3), "Ok([0, 1, 4]) 1999; Ok([0, 1, 4]) 1091929"),
        (
            5,
            None,
            "Ok([0, 1, 4, 9, 16]) 199999; Ok([0, 1, 4, 9, 16]) 10919293949",
        ),
        (
            5,
            Some(2),
            "Err(OutOfMemory) 1999; Err(OutOfMemory) 1091929",
        ),
    ] {
        let told = both_told(&rt, rt.alloc(), n, refused)?;
        assert_eq!(rt; told.as_str(), wanted, "{n} {refused:?}");
    }
    Ok(())
}

#[test]
fn five_numbers_are_worked(rt: HostRuntime) -> Result<(), Fail> {
    let mut steps = Steps::first();
    let answer = five(&rt, rt.alloc(), &OneByOne, &Trace::new(), &mut steps);
    steps.end();
    assert_eq!(rt; answer?.as_slice(), [0, 1, 4, 9, 16].as_slice());
    Ok(())
}
