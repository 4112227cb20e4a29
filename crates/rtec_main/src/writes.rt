// Writing a text, whole or as it grows.
ghost use Rattle.std.specs.Prelude.{◌≡◌, ℕ, true, [], take, OnOk, OnErr};
ghost use Rattle.rt_base.specs.Outside.{HasCause, with_bytes};
ghost use Rattle.rtec_main.specs.Writes.{IsOnWay, IsCut, IsBlamed};

use rt_base::{Failed, OutOfMemory, Sink};
use run_status::Status;

/// Why a text is not written whole.
#[derive(Clone, Copy, Debug, PartialEq, Eq)]
pub enum Unwritten {
    /// The count of the sink's faults rose.
    Fault,
    /// Memory ran out.
    OutOfMemory,
}

impl From<Failed> for Unwritten {
    ghost use Rattle.rtec_main.specs.declared.writes.Unwritten.TheVariants.{Fault};

    ghost from_gives = { λ _ u. u ≡ Fault };

    fn from(_: Failed) -> Unwritten {
        Unwritten::Fault
    }
}

impl From<OutOfMemory> for Unwritten {
    ghost use Rattle.rtec_main.specs.declared.writes.Unwritten.TheVariants as unwritten;

    ghost from_gives = { λ _ u. u ≡ unwritten.OutOfMemory };

    fn from(_: OutOfMemory) -> Unwritten {
        Unwritten::OutOfMemory
    }
}

impl From<Unwritten> for Status {
    ghost use Rattle.rtec_main.specs.Writes.{unwritten_status};

    ghost from_gives = { λ unwritten status. status ≡ unwritten_status unwritten };

    fn from(unwritten: Unwritten) -> Status {
        match unwritten {
            Unwritten::Fault => Status::WriteFault,
            Unwritten::OutOfMemory => Status::OutOfMemory,
        }
    }
}

/// Writes all of a text. Each write offers all that the sink has not taken. After a failed one a
/// beginning of the text is written.
pub fn write_all<K: Sink>(out: &mut K, text: &[u8]) -> Result<(), Failed>
    ensures ok { OnOk result (K.taken out.new ≡ with_bytes text.now (K.taken out.old)) }
    ensures err { OnErr result ((n : ℕ) × (K.taken out.new ≡ with_bytes (take n text.now)
        (K.taken out.old))) }
    ensures none { OnOk result (K.faults out.new ≡ K.faults out.old) }
    ensures cause { HasCause (K.faults out.old) (K.faults out.new) result }
{
    let mut rest = text;
    'write: while !rest.is_empty() {
        let count = out.write(rest)?;
        rest = &rest[count..];
    }
    Ok(())
}

/// Writes what there is of a text, and leaves none of it; or only if it is time, and else all is
/// left.
pub fn hand_on<K: Sink>(out: &mut K, text: &mut Vec<u8>, is_time: bool) -> Result<(), Unwritten>
    ensures ok { OnOk result (IsOnWay (K.taken out.old) (K.taken out.new) text.new.items
        text.old.items) }
    ensures all { is_time ≡ true → OnOk result (text.new.items ≡ []) }
    ensures err { OnErr result (IsCut (K.taken out.old) (K.taken out.new) text.old.items) }
    ensures blame { IsBlamed (K.faults out.old) (K.faults out.new) result }
{
    if is_time {
        write_all(out, text)?;
        text.clear();
    }
    Ok(())
}
