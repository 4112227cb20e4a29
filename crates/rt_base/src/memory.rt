// Inputs and a sink in memory: what tests run on, and what contracts that speak of bytes are tried
// with.
ghost use Rattle.std.specs.Prelude.{◌≡◌, ◌≤◌, ◌<◌, ◌+◌, [], ℕ, List, length, take, IfOk, IfSome};
ghost use Rattle.std.specs.Prelude.{OnErr, OnOk, Option, Some, None, is_err};
ghost use Rattle.std.specs.Option.{option_copied};
ghost use Rattle.rt_base.specs.Outside.{HasCause, FillsFront, ReadsAt, TakesFront, with_bytes};
ghost use Rattle.rt_base.specs.Memory.{bytes_of, is_chosen, read_fails, after_read, write_fails};
ghost use Rattle.rt_base.specs.Memory.{taken_of, after_write};

use crate::{Failed, Inputs, OutOfMemory, Sink, Word};
use std::alloc::Global;
use std::marker::Model;

/// Named files in memory, which tell their bytes. Chosen calls fail.
#[derive(Drop)]
pub struct MemoryInputs {
    files: Vec<(Word, Vec<u8>)>,
    failing: Vec<u64>,
    calls: u64,
    faults: u64,
}

impl Model for MemoryInputs {
    ghost use Rattle.rt_base.specs.Memory.{FilesInMemory};

    ghost Value = { FilesInMemory };

    ghost view = { λ m. record {
      files = m.files.items;
      failing = m.failing.items;
      calls = m.calls;
      faults = m.faults;
    } };
}

// Whether the call of this number is one that fails.
fn is_chosen(failing: &[u64], number: u64) -> bool
    ensures { result ≡ is_chosen failing.now number }
{
    failing.contains(&number)
}

// The bytes of the first file of this name.
fn find<'a>(files: &'a [(Word, Vec<u8>)], name: &str) -> Option<&'a [u8]>
    ensures { option_copied result ≡ bytes_of files.now name.now }
{
    for file in files {
        if file.0.as_str() == name {
            return Some(file.1.as_slice());
        }
    }
    None
}

// Copies bytes from an offset on to the front of a buffer, as many as there are and have room.
fn copy_at(bytes: &[u8], at: u64, into: &mut [u8]) -> usize
    ensures front { FillsFront result into.old into.new }
    ensures bytes { ReadsAt at result into.new bytes.now }
{
    if at >= bytes.len() as u64 {
        return 0;
    }
    let from = at as usize;
    let count = (bytes.len() - from).min(into.len());
    into[..count].copy_from_slice(&bytes[from..from + count]);
    count
}

impl MemoryInputs {
    /// Inputs with these files and no fault yet. Of two files with one name the first counts. The
    /// calls of `read_at` whose numbers, counted from 0, are in `failing` fail, and so does a call
    /// for a name that is not there.
    pub fn new(files: Vec<(Word, Vec<u8>)>, failing: Vec<u64>) -> MemoryInputs
        ensures { result ≡ record {
          files = files.items;
          failing = failing.items;
          calls = 0;
          faults = 0;
        } }
    {
        MemoryInputs {
            files,
            failing,
            calls: 0,
            faults: 0,
        }
    }
}

impl Inputs for MemoryInputs {
    ghost bytes = { λ m name. bytes_of m.files name };

    ghost faults = { λ m name. m.faults };

    fn read_at(&mut self, name: &str, at: u64, into: &mut [u8]) -> Result<usize, Failed>
        ensures front { IfOk result (λ n. FillsFront n into.old into.new) }
        ensures told { IfOk result (λ n. IfSome (bytes_of self.old.files name.now)
            (ReadsAt at n into.new)) }
        ensures err { OnErr result (into.new ≡ into.old) }
        ensures same { (other : List ℕ) → bytes_of self.new.files other ≡ bytes_of self.old.files
            other }
        ensures later { (other : List ℕ) → self.old.faults ≤ self.new.faults }
        ensures none { OnOk result ((other : List ℕ) → self.new.faults ≡ self.old.faults) }
        ensures cause { HasCause self.old.faults self.new.faults result }

        // It fails exactly at the calls chosen and at unknown names, and a call changes the counts
        // alone.
        ensures fails { is_err result ≡ read_fails self.old name.now }
        ensures held { self.new ≡ after_read (read_fails self.old name.now) self.old }
    {
        let number = self.calls;
        self.calls = self.calls.saturating_add(1);
        let fails = is_chosen(&self.failing, number);
        match find(&self.files, name) {
            Some(bytes) if !fails => Ok(copy_at(bytes, at, into)),
            _ => {
                self.faults = self.faults.saturating_add(1);
                Err(Failed)
            }
        }
    }
}

/// A sink in memory, which tells its bytes. It takes pieces of a bounded length into a bounded
/// room, and chosen calls fail.
#[derive(Drop)]
pub struct MemorySink {
    piece: usize,
    room: Vec<u8>,
    len: usize,
    failing: Vec<u64>,
    calls: u64,
    faults: u64,
}

impl Model for MemorySink {
    ghost use Rattle.std.specs.Prelude.{◌≤◌, ◌<◌, take, vec_len};
    ghost use Rattle.rt_base.specs.Memory.{SinkInMemory};

    ghost Value = { SinkInMemory };

    ghost view = { λ m. record {
      bytes = take m.len m.room.items;
      piece = m.piece;
      room = vec_len m.room;
      failing = m.failing.items;
      calls = m.calls;
      faults = m.faults;
    } };

    ghost invariant = { λ m. (m.len ≤ vec_len m.room) × (0 < m.piece) };
}

impl MemorySink {
    /// An empty sink with no fault yet, which takes at most `piece` bytes a call and `room` bytes
    /// in all; its room is made here. The calls of `write` whose numbers, counted from 0, are in
    /// `failing` fail.
    pub fn new(
        alloc: Global,
        piece: usize,
        room: usize,
        failing: Vec<u64>,
    ) -> Result<MemorySink, OutOfMemory>
        requires { 0 < piece }
        ensures { IfOk result (λ sink. sink ≡ record {
          bytes = [];
          piece = piece;
          room = room;
          failing = failing.items;
          calls = 0;
          faults = 0;
        }) }
    {
        let room = vec![in alloc; 0; room]?;
        Ok(MemorySink {
            piece,
            room,
            len: 0,
            failing,
            calls: 0,
            faults: 0,
        })
    }

    /// The bytes taken.
    pub fn bytes(&self) -> &[u8]
        ensures { result.now ≡ self.now.bytes }
    {
        &self.room[..self.len]
    }
}

impl Sink for MemorySink {
    ghost taken = { λ m. Some m.bytes };

    ghost faults = { λ m. m.faults };

    fn write(&mut self, bytes: &[u8]) -> Result<usize, Failed>
        ensures front { IfOk result (λ n. TakesFront n bytes.now) }
        ensures ok { IfOk result (λ n. Some self.new.bytes ≡ with_bytes (take n bytes.now)
            (Some self.old.bytes)) }
        ensures err { OnErr result (Some self.new.bytes ≡ Some self.old.bytes) }
        ensures none { OnOk result (self.new.faults ≡ self.old.faults) }
        ensures cause { HasCause self.old.faults self.new.faults result }

        // It fails exactly at the calls chosen and where the room is full, and takes as much as
        // piece and room allow.
        ensures fails { is_err result ≡ write_fails self.old bytes.now }
        ensures count { IfOk result (λ n. n ≡ taken_of self.old bytes.now) }
        ensures held { self.new ≡ after_write (write_fails self.old bytes.now) self.new.bytes
            self.old }
    {
        let number = self.calls;
        self.calls = self.calls.saturating_add(1);
        let fails = is_chosen(&self.failing, number);
        let left = self.room.len() - self.len;
        if fails || (!bytes.is_empty() && left == 0) {
            self.faults = self.faults.saturating_add(1);
            return Err(Failed);
        }
        let count = self.piece.min(left).min(bytes.len());
        let end = self.len + count;
        self.room[self.len..end].copy_from_slice(&bytes[..count]);
        self.len = end;
        Ok(count)
    }
}
