// The trusted edges: real files and the real standard output.
ghost use Rattle.std.specs.Prelude.{◌≡◌, IfSome, IfNone, None};
ghost use Rattle.rt_base.specs.Outside.{FillsFront};

use crate::{Failed, Inputs, Sink};
use std::fs;
use std::io::{Read, Seek, SeekFrom};
use std::marker::Model;
use std::rt::Files;

// A name that is kept without memory: it is short enough.
#[derive(Clone, Copy, PartialEq, Eq)]
struct ShortName {
    bytes: [u8; 255],
    len: usize,
}

impl ShortName {
    // The name, if it is short enough.
    fn of(name: &str) -> Option<ShortName> {
        let name = name.as_bytes();
        let mut bytes = [0; 255];
        if name.len() > bytes.len() {
            return None;
        }
        bytes[..name.len()].copy_from_slice(name);
        Some(ShortName {
            bytes,
            len: name.len(),
        })
    }
}

// A file that is open, its name where that is short, and the place of its next byte.
#[derive(Drop)]
struct OpenFile<F> {
    name: Option<ShortName>,
    at: u64,
    file: F,
}

impl<F: Read + Seek> OpenFile<F> {
    // Goes to a place.
    fn seek(&mut self, at: u64) -> Option<()> {
        if self.at != at {
            let _at = self.file.seek(SeekFrom::Start(at)).ok()?;
            self.at = at;
        }
        Some(())
    }

    // Reads on. A reader may leave anything behind the bytes that it read, so they are copied from
    // a buffer of its own.
    fn read(&mut self, buffer: &mut [u8], into: &mut [u8]) -> Option<usize>
        ensures some { IfSome result (λ n. FillsFront n into.old into.new) }
        ensures none { IfNone result (into.new ≡ into.old) }
    {
        let most = into.len().min(buffer.len());
        let count = self.file.read(&mut buffer[..most]).ok()?;
        into[..count].copy_from_slice(&buffer[..count]);
        self.at = self.at.saturating_add(count as u64);
        Some(count)
    }
}

/// Real files, by their paths. What they hold is not told. One counter, which is all that contracts
/// see of it, is the count of faults of every name.
///
/// The file that was read last stays open, unless its name is longer than 255 bytes: to read on in
/// it takes one call of the system. A read gives 64 KiB at most, by way of a buffer that lies in
/// the value itself, so that no memory can be refused.
#[derive(Drop)]
pub struct FileInputs<R: Files + Clone + Drop> {
    rt: R,
    last: Option<OpenFile<R::File>>,
    buffer: [u8; 65536],
    faults: u64,
}

impl<R: Files + Clone + Drop> Model for FileInputs<R> {
    ghost use Rattle.std.specs.Prelude.{ℕ};

    ghost Value = { ℕ };

    ghost view = { λ inputs. inputs.faults };
}

impl<R: Files + Clone + Drop> FileInputs<R> {
    /// Inputs over the file system, with no fault yet.
    pub fn new(rt: R) -> FileInputs<R>
        ensures { result ≡ 0 }
    {
        FileInputs {
            rt,
            last: None,
            buffer: [0; 65536],
            faults: 0,
        }
    }
}

// The last file, if it has this name, or the file of this name, opened anew.
fn open<R: Files>(
    rt: &R,
    last: Option<OpenFile<R::File>>,
    name: &str,
) -> Option<OpenFile<R::File>> {
    let short = ShortName::of(name);
    match last {
        Some(last) if short.is_some() && last.name == short => Some(last),
        _last => {
            let file = fs::open(rt, name).ok()?;
            Some(OpenFile {
                name: short,
                at: 0,
                file,
            })
        }
    }
}

// Reads bytes of a file from a place on, and keeps it open for those that come after them.
fn read_file<R: Files>(
    rt: &R,
    last: &mut Option<OpenFile<R::File>>,
    buffer: &mut [u8],
    name: &str,
    at: u64,
    into: &mut [u8],
) -> Option<usize>
    ensures some { IfSome result (λ n. FillsFront n into.old into.new) }
    ensures none { IfNone result (into.new ≡ into.old) }
{
    let mut file = open(rt, last.take(), name)?;
    file.seek(at)?;
    let count = file.read(buffer, into)?;
    *last = Some(file);
    Some(count)
}

impl<R: Files + Clone + Drop> Inputs for FileInputs<R> {
    ghost bytes = { λ s name. None };

    ghost faults = { λ faults name. faults };

    fn read_at(&mut self, name: &str, at: u64, into: &mut [u8]) -> Result<usize, Failed> {
        match read_file(&self.rt, &mut self.last, &mut self.buffer, name, at, into) {
            Some(count) => Ok(count),
            None => {
                self.faults = self.faults.saturating_add(1);
                Err(Failed)
            }
        }
    }
}

/// The real standard output. What it holds is not told, and contracts see its count of faults
/// alone. A write that takes nothing of a piece that is not empty is a fault.
#[derive(Drop)]
pub struct StdSink<R: Print + Clone + Drop> {
    rt: R,
    faults: u64,
}

impl<R: Print + Clone + Drop> Model for StdSink<R> {
    ghost use Rattle.std.specs.Prelude.{ℕ};

    ghost Value = { ℕ };

    ghost view = { λ sink. sink.faults };
}

impl<R: Print + Clone + Drop> StdSink<R> {
    /// A sink over the standard output, with no fault yet.
    pub fn new(rt: R) -> StdSink<R>
        ensures { result ≡ 0 }
    {
        StdSink { rt, faults: 0 }
    }
}

impl<R: Print + Clone + Drop> Sink for StdSink<R> {
    ghost taken = { λ s. None };

    ghost faults = { λ faults. faults };

    fn write(&mut self, bytes: &[u8]) -> Result<usize, Failed> {
        match self.rt.write_some(bytes) {
            Ok(count) if count > 0 || bytes.is_empty() => Ok(count),
            _ => {
                self.faults = self.faults.saturating_add(1);
                Err(Failed)
            }
        }
    }
}
