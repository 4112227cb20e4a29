// Why a description is not grounded.
use rt_base::{Limit, OutOfMemory};

/// Why a checked description has no program.
#[derive(Clone, Copy, Debug, PartialEq, Eq)]
pub enum GroundRefused {
    /// The first limit that the counts of the description exceed: units, events, assignments,
    /// rules, conditions, cells.
    TooLarge { limit: Limit },
    /// Memory ran out. No clause ties this answer to a refused growth.
    OutOfMemory,
}

impl From<OutOfMemory> for GroundRefused {
    ghost use Rattle.std.specs.Prelude.{◌≡◌};
    ghost use Rattle.ground_rules.specs.declared.refused.GroundRefused.TheVariants.{OutOfMemory};

    ghost from_gives = { λ _ e. e ≡ OutOfMemory };

    fn from(_: OutOfMemory) -> GroundRefused {
        GroundRefused::OutOfMemory
    }
}
