// Where bytes come from and where they go.
ghost use Rattle.std.specs.Prelude.{◌≡◌, ◌≤◌, ℕ, List, take, IfOk, IfSome, OnOk, OnErr, Option};
ghost use Rattle.rt_base.specs.Outside.{HasCause, FillsFront, ReadsAt, TakesFront, with_bytes};

/// A read or a write failed.
#[derive(Clone, Copy, Debug, PartialEq, Eq)]
pub struct Failed;

/// Named inputs, whose bytes do not change while a run reads them.
pub trait Inputs {
    /// The bytes of a name, where they are told.
    ghost bytes: { Self → List ℕ → Option (List ℕ) };

    /// How often a read of a name has failed. It never falls, and stays at the greatest u64 once it
    /// stands there.
    ghost faults: { Self → List ℕ → ℕ };

    /// Reads bytes of a name from an offset on into the front of a buffer, and answers how many.
    /// With a buffer that has room, 0 means that the offset is at the end or past it. `Failed`
    /// comes only where the count of faults of this name rose, and leaves the buffer as it was.
    fn read_at(&mut self, name: &str, at: u64, into: &mut [u8]) -> Result<usize, Failed>
        ensures front { IfOk result (λ n. FillsFront n into.old into.new) }
        ensures told { IfOk result (λ n. IfSome (bytes self.old name.now) (ReadsAt at n into.new)) }
        ensures err { OnErr result (into.new ≡ into.old) }
        ensures same { (other : List ℕ) → bytes self.new other ≡ bytes self.old other }
        ensures later { (other : List ℕ) → faults self.old other ≤ faults self.new other }
        ensures none { OnOk result ((other : List ℕ) → faults self.new other ≡ faults self.old
            other) }
        ensures cause { HasCause (faults self.old name.now) (faults self.new name.now) result };
}

/// Where the text of a run goes.
pub trait Sink {
    /// The bytes taken so far, where they are told.
    ghost taken: { Self → Option (List ℕ) };

    /// How often a write has failed. It never falls, and stays at the greatest u64 once it stands
    /// there.
    ghost faults: { Self → ℕ };

    /// Takes some bytes from the front of a piece, and answers how many: at least one, unless the
    /// piece is empty. `Failed` comes only where the count of faults rose, and nothing was taken.
    fn write(&mut self, bytes: &[u8]) -> Result<usize, Failed>
        ensures front { IfOk result (λ n. TakesFront n bytes.now) }
        ensures ok { IfOk result (λ n. taken self.new ≡ with_bytes (take n bytes.now)
            (taken self.old)) }
        ensures err { OnErr result (taken self.new ≡ taken self.old) }
        ensures none { OnOk result (faults self.new ≡ faults self.old) }
        ensures cause { HasCause (faults self.old) (faults self.new) result };
}
