// Reading a whole input.
ghost use Rattle.std.specs.Prelude.{◌≡◌, ◌≤◌, ◌<◌, ◌+◌, ◌-◌, ◌^◌, ℕ, List, length, vec_len, IfOk};
ghost use Rattle.std.specs.Prelude.{IfErr, IfSome};
ghost use Rattle.rt_base.specs.Outside.{Rose};
ghost use Rattle.rtec_main.specs.Reads.{Reads, Continues, IsFaultOnlyIf};

use rt_base::Inputs;
use std::alloc::Global;

// The most bytes of one read.
const PIECE: usize = 65_536;

/// Why an input was not read.
#[derive(Clone, Copy, Debug, PartialEq, Eq)]
pub enum Unread {
    /// The count of its faults rose.
    Fault,
    /// It is longer than its limit.
    TooLong,
    /// Memory ran out.
    OutOfMemory,
}

// Reads a piece of an input, as long as the buffer at most, to the end of a text.
fn read_piece<I: Inputs>(
    inputs: &mut I,
    name: &str,
    text: &mut Vec<u8>,
    buffer: &mut [u8],
) -> Result<usize, Unread>
    requires { vec_len text.old < 2 ^ 62 }
    ensures room { IfOk result (λ n. n ≤ length buffer.old) }
    ensures len { IfOk result (λ n. vec_len text.new ≡ vec_len text.old + n) }
    ensures told { IfOk result (λ n. IfSome (I.bytes inputs.old name.now)
        (Continues n (length buffer.old) text.old.items text.new.items)) }
    ensures same { (other : List ℕ) → I.bytes inputs.new other ≡ I.bytes inputs.old other }
    ensures later { (other : List ℕ) → I.faults inputs.old other ≤ I.faults inputs.new other }
    ensures fault { IfErr result (IsFaultOnlyIf (Rose (I.faults inputs.old name.now)
        (I.faults inputs.new name.now))) }
{
    let Ok(count) = inputs.read_at(name, text.len() as u64, buffer) else {
        return Err(Unread::Fault);
    };
    let Ok(()) = text.extend_from_slice(&buffer[..count]) else {
        return Err(Unread::OutOfMemory);
    };
    Ok(count)
}

/// Reads an input to its end, and no more than a byte past the limit.
pub fn read_all<I: Inputs>(
    alloc: Global,
    inputs: &mut I,
    name: &str,
    limit: usize,
) -> Result<Vec<u8>, Unread>
    requires { limit < 2 ^ 62 - 1 }
    ensures few { IfOk result (λ text. vec_len text ≤ limit) }
    ensures told { Reads (I.bytes inputs.old name.now) limit (I.faults inputs.old name.now)
        (I.faults inputs.new name.now) result }
    ensures same { (other : List ℕ) → I.bytes inputs.new other ≡ I.bytes inputs.old other }
    ensures later { (other : List ℕ) → I.faults inputs.old other ≤ I.faults inputs.new other }
{
    let mut text = Vec::new(alloc);
    let mut buffer = [0; PIECE];
    'read: while text.len() <= limit {
        let room = buffer.len().min(limit + 1 - text.len());
        let count = match read_piece(inputs, name, &mut text, &mut buffer[..room]) {
            Ok(count) => count,
            Err(unread) => return Err(unread),
        };
        if count == 0 {
            return Ok(text);
        }
    }
    Err(Unread::TooLong)
}
