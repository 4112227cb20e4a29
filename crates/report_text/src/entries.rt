// The lines of adds and revokes.
ghost use Rattle.std.specs.Prelude.{◌≡◌, ◌++◌, OnOk, OnErr};
ghost use Rattle.text_pieces.specs.Lines.{text_of_lines};
ghost use Rattle.report_text.specs.Report.{act_word, reply_word, event_atom};
ghost use Rattle.report_text.specs.Printed.{feed_lines};

use crate::whole::append;
use ground_names::EventNames;
use ground_types::{Act, Entry, EventId, Reply};
use rt_base::OutOfMemory;
use std::alloc::Global;
use text_pieces::{Piece, put_all, put_atom};

/// Room in which the line of an entry is made, and which serves for the next one too.
#[derive(Drop)]
pub struct EntryLine {
    text: Vec<u8>,
    args: Vec<u32>,
}

impl EntryLine {
    /// Room for a line. It takes memory only when a line is made.
    pub fn new(alloc: Global) -> EntryLine {
        EntryLine {
            text: Vec::new(alloc),
            args: Vec::new(alloc),
        }
    }
}

// The word of an act.
fn act_word(act: Act) -> &'static str
    ensures { result.now ≡ act_word act }
{
    match act {
        Act::Add => "add",
        Act::Revoke => "revoke",
    }
}

// The word of a reply.
pub(crate) fn reply_word(reply: Reply) -> &'static str
    ensures { result.now ≡ reply_word reply }
{
    match reply {
        Reply::Admitted => "admitted",
        Reply::Delayed => "delayed",
        Reply::Already => "already",
        Reply::Revoked => "revoked",
        Reply::DelayedRevoked => "delayed-revoked",
        Reply::Unknown => "unknown",
        Reply::Forgotten => "forgotten",
    }
}

// Adds the atom of a ground input event, with a list in which its arguments are made.
fn put_event_atom(
    text: &mut Vec<u8>,
    names: &EventNames,
    event: EventId,
    args: &mut Vec<u32>,
) -> Result<(), OutOfMemory>
    ensures { OnOk result (text.new.items ≡ text.old.items ++ event_atom names.now event) }
{
    match names.event_at(event, args)? {
        Some(name) => {
            let domains = names.program().domains.as_slice();
            put_atom(text, domains, name, args.as_slice())
        }
        None => Ok(()),
    }
}

// Adds the line of an add or a revoke, and nothing for a seal, with a list in which arguments are
// made.
fn put_feed(
    text: &mut Vec<u8>,
    names: &EventNames,
    entry: Entry,
    args: &mut Vec<u32>,
) -> Result<(), OutOfMemory>
    ensures { OnOk result (text.new.items ≡ text.old.items ++ text_of_lines
        (feed_lines names.now entry)) }
{
    let Entry::Fed {
        feeder,
        act,
        event,
        at,
        reply,
    } = entry
    else {
        return Ok(());
    };
    let feeder = Piece::Number(feeder as u64);
    let act = Piece::Text(act_word(act));
    let reply = Piece::Text(reply_word(reply));
    let space = Piece::Text(" ");
    put_all(text, &[feeder, space, act, space])?;
    put_event_atom(text, names, event, args)?;
    put_all(
        text,
        &[space, Piece::Number(at), space, reply, Piece::Text("\n")],
    )
}

/// Adds the line of an add or a revoke, and nothing for a seal, over the names of the events'
/// program. The name is found by halves, and the line takes no memory where the room has enough.
/// `OutOfMemory` leaves the text as it was.
pub fn put_entry(
    names: &EventNames,
    line: &mut EntryLine,
    entry: Entry,
    out: &mut Vec<u8>,
) -> Result<(), OutOfMemory>
    ensures added { OnOk result (out.new.items ≡ out.old.items ++ text_of_lines
        (feed_lines names.now entry)) }
    ensures refused { OnErr result (out.new.items ≡ out.old.items) }
{
    line.text.clear();
    put_feed(&mut line.text, names, entry, &mut line.args)?;
    append(out, line.text.as_slice())
}
