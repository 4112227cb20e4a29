// How far a history has come.
ghost use Rattle.std.specs.Prelude.{◌≡◌, ◌<◌, ◌≤◌, ◌+◌, ◌-◌, ◌^◌, ◌∷◌, [], slice_index, slice_set};

/// How many entries a history has, how many of them are seals, and how many are adds and revokes of
/// each feeder. The numbers are our own.
#[derive(Clone, Copy, Debug, PartialEq, Eq)]
pub struct Front {
    /// How many adds, revokes and seals there are.
    pub entries: u32,
    /// How many seals there are, which is the number of the next one.
    pub seals: u32,
    /// How many adds and revokes each feeder has told: feeder 1 at place 0, feeder 8 at place 7.
    pub fed: [u32; 8],
}

impl Front {
    // The front of an empty history.
    pub(crate) const fn new() -> Front
        ensures { result ≡ record {
          entries = 0;
          seals = 0;
          fed = 0 ∷ 0 ∷ 0 ∷ 0 ∷ 0 ∷ 0 ∷ 0 ∷ 0 ∷ [];
        } }
    {
        Front {
            entries: 0,
            seals: 0,
            fed: [0; 8],
        }
    }

    // Counts an add or a revoke of a feeder from 1 to 8.
    pub(crate) fn count_feed(&mut self, feeder: u8)
        requires feeder { (1 ≤ feeder) × (feeder ≤ 8) }
        requires entries { self.old.entries + 1 < 2 ^ 32 }
        requires fed { slice_index self.old.fed (feeder - 1) + 1 < 2 ^ 32 }
        ensures { self.new ≡ record self.old {
          entries = self.old.entries + 1;
          fed = slice_set self.old.fed (feeder - 1)
              (slice_index self.old.fed (feeder - 1) + 1);
        } }
    {
        self.entries += 1;
        self.fed[feeder as usize - 1] += 1;
    }

    // Counts a seal.
    pub(crate) fn count_seal(&mut self)
        requires entries { self.old.entries + 1 < 2 ^ 32 }
        requires seals { self.old.seals + 1 < 2 ^ 32 }
        ensures { self.new ≡ record self.old {
          entries = self.old.entries + 1;
          seals = self.old.seals + 1;
        } }
    {
        self.entries += 1;
        self.seals += 1;
    }
}
