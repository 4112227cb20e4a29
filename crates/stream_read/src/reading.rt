// The commands of a script.
ghost use Rattle.std.specs.Prelude.{◌≡◌, ◌<◌, ◌≤◌, [], Some, None, IfOk, if◌then◌else◌};
ghost use Rattle.ground_types.specs.Sound.{IsSound};
ghost use Rattle.stream_read.specs.Gathering.{added, Gathers, Ends};
ghost use Rattle.stream_read.specs.Left.{left, IsReading};
ghost use Rattle.stream_read.specs.Scripts.{most, records_of, script_of, Answers, IsShape};
ghost use Rattle.stream_read.specs.Scripts.{AreOfProgram};

use crate::names::Names;
use crate::records::{Meaning, meaning_of};
use crate::rows::{next_row, reader_of};
use crate::script::{Placed, Script, Shape, StreamRefused};
use csv::{ByteRecord, Reader};
use ground_types::Program;
use rt_base::{List, OutOfMemory};
use std::alloc::Global;
use std::marker::Model;

// The most records of a script.
const MOST_RECORDS: u32 = 2_097_152;

// What the records so far come to.
#[derive(Drop)]
struct Gathered {
    commands: Vec<Placed>,
    ignored: u64,
}

impl Model for Gathered {
    ghost use Rattle.stream_read.specs.Gathering.{Gathered as Parts};

    ghost Value = { Parts };

    ghost view = { λ gathered. record {
      commands = gathered.commands.items;
      ignored =
          gathered.ignored;
    } };
}

impl Gathered {
    fn new(alloc: Global) -> Gathered
        ensures { result ≡ record { commands = []; ignored = 0 } }
    {
        Gathered {
            commands: Vec::new(alloc),
            ignored: 0,
        }
    }

    // Adds the record of a number, if it has a form, and says whether it has one. Records are
    // counted from 1.
    fn add(&mut self, number: u32, meaning: Meaning) -> Result<bool, OutOfMemory>
        requires { self.old.ignored < number }
        ensures { IfOk result (λ has_form. added meaning number self.old
            ≡ (if has_form then Some self.new else None)) }
    {
        match meaning {
            Meaning::Means(command) => self.commands.push(Placed {
                place: number,
                command,
            })?,
            Meaning::Ignored => self.ignored += 1,
            Meaning::NoForm => return Ok(false),
        }
        Ok(true)
    }

    fn into_script(self) -> Script
        ensures { result ≡ record { commands = self.commands; ignored = self.ignored } }
    {
        Script {
            commands: List::of(self.commands),
            ignored: self.ignored,
        }
    }
}

// Gathers the next record of a text, behind so many others, and says whether there was one.
fn gather_next(
    reader: &mut Reader<&[u8]>,
    row: &mut ByteRecord,
    names: &Names,
    shape: Shape,
    count: u32,
    gathered: &mut Gathered,
) -> Result<bool, StreamRefused>
    requires sound { IsSound names.now.program.now }
    requires reading { IsReading reader.old }
    requires few { count < most }
    requires counted { gathered.old.ignored ≤ count }
    ensures { Gathers names.now.program.now shape count gathered.old gathered.new (left reader.old)
        reader.new result }
{
    if !next_row(reader, row)? {
        return Ok(false);
    }
    let number = count + 1;
    if !gathered.add(number, meaning_of(names, shape, row))? {
        return Err(StreamRefused::BadRecord { number });
    }
    Ok(true)
}

// Sees that no record of a text is left.
fn at_end(reader: &mut Reader<&[u8]>, row: &mut ByteRecord) -> Result<(), StreamRefused>
    requires { IsReading reader.old }
    ensures { Ends (left reader.old) result }
{
    if next_row(reader, row)? {
        return Err(StreamRefused::TooMany);
    }
    Ok(())
}

// What the records of a text come to.
fn gather_all(
    alloc: Global,
    text: &[u8],
    program: &Program,
    shape: Shape,
) -> Result<Script, StreamRefused>
    requires sound { IsSound program.now }
    ensures exact { Answers result (script_of program.now shape (records_of text.now)) }
{
    let names = Names::new(alloc, program)?;
    let mut reader = reader_of(alloc, text);
    let mut row = ByteRecord::new(alloc);
    let mut gathered = Gathered::new(alloc);
    for count in 0..MOST_RECORDS {
        if !gather_next(&mut reader, &mut row, &names, shape, count, &mut gathered)? {
            return Ok(gathered.into_script());
        }
    }
    at_end(&mut reader, &mut row)?;
    Ok(gathered.into_script())
}

/// The commands of a script for this program, each with the number of its record, and how many
/// records are ignored.
///
/// Records are those that CSV readers read with commas and double quotes, without a header row,
/// with any number of fields; empty lines hold none, fields are not trimmed, and a byte order mark
/// at the start is taken off. BadRecord comes exactly where one of the first 2,097,152 records has
/// no form of the shape, at the first such record, counted from 1; else TooMany exactly where there
/// is a further record. An `add` or `revoke` of its form that names no ground input event is
/// counted and ignored; an `ask,holds` that names no ground fluent-value has no form. The program
/// has to be sound, and the number of a feeder 1 to 8. Each add and revoke is of a feeder of 1 to 8
/// and of an event of the program. The forms and the limit are this project's own.
///
/// Hash tables of the names and the entities are made once, and each word of a record is looked up
/// in them once: as long as few words share a hash, the time is linear in the length of the text
/// and in the numbers of names and entities.
pub fn commands(
    alloc: Global,
    text: &[u8],
    program: &Program,
    shape: Shape,
) -> Result<Script, StreamRefused>
    requires sound { IsSound program.now }
    requires shape { IsShape shape }
    ensures exact { Answers result (script_of program.now shape (records_of text.now)) }
    ensures of_program { IfOk result (λ script. AreOfProgram program.now script.commands) }
{
    gather_all(alloc, text, program, shape)
}
