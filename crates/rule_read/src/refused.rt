// Why a text is not read.
use std::alloc::{AllocError, AllocFailed};

/// Why a text is not read.
#[derive(Clone, Copy, Debug, PartialEq, Eq)]
pub enum ReadRefused {
    /// It has more than 1,048,576 bytes.
    TooLong,
    /// The first byte outside comments that may not stand there is on this line.
    BadByte { line: u32 },
    /// The first statement that has no form begins on this line.
    BadStatement { line: u32 },
    /// Memory ran out. No clause ties this answer to a refused growth.
    OutOfMemory,
}

impl From<AllocError> for ReadRefused {
    ghost use Rattle.std.specs.Prelude.{◌≡◌};
    ghost use Rattle.rule_read.specs.declared.refused.ReadRefused.TheVariants.{OutOfMemory};

    ghost from_gives = { λ _ e. e ≡ OutOfMemory };

    fn from(_: AllocError) -> ReadRefused {
        ReadRefused::OutOfMemory
    }
}

impl<T: Drop> From<AllocFailed<T>> for ReadRefused {
    ghost use Rattle.std.specs.Prelude.{◌≡◌};
    ghost use Rattle.rule_read.specs.declared.refused.ReadRefused.TheVariants.{OutOfMemory};

    ghost from_gives = { λ _ e. e ≡ OutOfMemory };

    fn from(_: AllocFailed<T>) -> ReadRefused {
        ReadRefused::OutOfMemory
    }
}
