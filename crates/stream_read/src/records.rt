// What a record says.
ghost use Rattle.std.specs.Prelude.{◌≡◌};
ghost use Rattle.csv.specs.Records.{fields_of};
ghost use Rattle.ground_types.specs.Sound.{IsSound};
ghost use Rattle.ground_names.specs.Found.{event_named};
ghost use Rattle.stream_read.specs.Fields.{only_number};
ghost use Rattle.stream_read.specs.Records.{fed, feed, feed_of_feeder, seal, holds_of, ask_holds};
ghost use Rattle.stream_read.specs.Records.{ask_count, ask_block, ask, wait, after, or_no_form};
ghost use Rattle.stream_read.specs.Records.{meaning_by, meaning_of};

use crate::fields::{Fields, feeder, number};
use crate::names::Names;
use crate::script::Shape;
use crate::verbs::{Verb, verb_of};
use csv::ByteRecord;
use ground_names::value_of;
use ground_types::{Act, Command, Query};

// What a record says in a script.
#[derive(Clone, Copy)]
pub(crate) enum Meaning {
    // It is a command.
    Means(Command),
    // It names no ground input event: it is counted, and makes no command.
    Ignored,
    // It has no form of the script.
    NoForm,
}

// A command, or no form.
fn or_no_form(command: Option<Command>) -> Meaning
    ensures { result ≡ or_no_form command }
{
    match command {
        Some(command) => Meaning::Means(command),
        None => Meaning::NoForm,
    }
}

fn seal(fields: &mut Fields) -> Meaning
    ensures { result ≡ seal fields.old }
{
    match fields.next() {
        Some(_) => Meaning::NoForm,
        None => Meaning::Means(Command::Seal),
    }
}

// A number that is the only field.
fn only_number(fields: &mut Fields) -> Option<u64>
    ensures { result ≡ only_number fields.old }
{
    let field = fields.next()?;
    match fields.next() {
        Some(_) => None,
        None => number(field),
    }
}

fn ask_count(fields: &mut Fields) -> Option<Command>
    ensures { result ≡ ask_count fields.old }
{
    match fields.next() {
        Some(_) => None,
        None => Some(Command::Ask(Query::Count)),
    }
}

fn ask_block(fields: &mut Fields) -> Option<Command>
    ensures { result ≡ ask_block fields.old }
{
    let number = only_number(fields)?;
    Some(Command::Ask(Query::Block { number }))
}

fn wait(fields: &mut Fields) -> Option<Command>
    ensures { result ≡ wait fields.old }
{
    let count = only_number(fields)?;
    Some(Command::Wait { count })
}

fn after(fields: &mut Fields) -> Option<Command>
    ensures { result ≡ after fields.old }
{
    let feeder_field = fields.next()?;
    let count = only_number(fields)?;
    let feeder = feeder(feeder_field)?;
    Some(Command::After { feeder, count })
}

// An act at a point on what a name and its arguments name.
fn fed(names: &Names, feeder: u8, act: Act, at: u64, name: &[u8], fields: &mut Fields) -> Meaning
    requires { IsSound names.now.program.now }
    ensures { result ≡ fed feeder act at (event_named (record {
      program = names.now.program.now;
      word = name.now;
      args = fields.old;
    })) }
{
    match names.event(name, fields) {
        Some(event) => Meaning::Means(Command::Feed {
            feeder,
            act,
            event,
            at,
        }),
        None => Meaning::Ignored,
    }
}

// A point, a name that is not empty, and its arguments.
fn feed(names: &Names, act: Act, feeder: u8, fields: &mut Fields) -> Meaning
    requires { IsSound names.now.program.now }
    ensures { result ≡ feed names.now.program.now act feeder fields.old }
{
    let Some(at) = fields.next() else {
        return Meaning::NoForm;
    };
    let Some(name) = fields.next() else {
        return Meaning::NoForm;
    };
    if name.is_empty() {
        return Meaning::NoForm;
    }
    match number(at) {
        Some(at) => fed(names, feeder, act, at, name, fields),
        None => Meaning::NoForm,
    }
}

// The same behind the number of a feeder.
fn feed_of_feeder(names: &Names, act: Act, fields: &mut Fields) -> Meaning
    requires { IsSound names.now.program.now }
    ensures { result ≡ feed_of_feeder names.now.program.now act fields.old }
{
    let Some(field) = fields.next() else {
        return Meaning::NoForm;
    };
    match feeder(field) {
        Some(feeder) => feed(names, act, feeder, fields),
        None => Meaning::NoForm,
    }
}

// A question for a value of what a name and its arguments name, at a point.
fn holds_of(
    names: &Names,
    at: &[u8],
    value: &[u8],
    name: &[u8],
    fields: &mut Fields,
) -> Option<Command>
    requires { IsSound names.now.program.now }
    ensures { result ≡ holds_of names.now.program.now at.now value.now name.now fields.old }
{
    let at = number(at)?;
    let unit = names.unit(name, fields)?;
    let value = value_of(names.program, unit, value)?;
    Some(Command::Ask(Query::Holds { unit, value, at }))
}

fn ask_holds(names: &Names, fields: &mut Fields) -> Option<Command>
    requires { IsSound names.now.program.now }
    ensures { result ≡ ask_holds names.now.program.now fields.old }
{
    let at = fields.next()?;
    let value = fields.next()?;
    let name = fields.next()?;
    holds_of(names, at, value, name, fields)
}

fn ask(names: &Names, fields: &mut Fields) -> Option<Command>
    requires { IsSound names.now.program.now }
    ensures { result ≡ ask names.now.program.now fields.old }
{
    let what = fields.next()?;
    if what == b"holds".as_slice() {
        ask_holds(names, fields)
    } else if what == b"count".as_slice() {
        ask_count(fields)
    } else if what == b"block".as_slice() {
        ask_block(fields)
    } else {
        None
    }
}

fn meaning_by(names: &Names, shape: Shape, verb: Verb, fields: &mut Fields) -> Meaning
    requires { IsSound names.now.program.now }
    ensures { result ≡ meaning_by names.now.program.now shape verb fields.old }
{
    match (shape, verb) {
        (Shape::Merged, Verb::Adds) => feed_of_feeder(names, Act::Add, fields),
        (Shape::Merged, Verb::Revokes) => feed_of_feeder(names, Act::Revoke, fields),
        (Shape::Feeder { number }, Verb::Adds) => feed(names, Act::Add, number, fields),
        (Shape::Feeder { number }, Verb::Revokes) => feed(names, Act::Revoke, number, fields),
        (Shape::Merged | Shape::Clock, Verb::Seals) => seal(fields),
        (Shape::Merged | Shape::Reader, Verb::Asks) => or_no_form(ask(names, fields)),
        (Shape::Feeder { .. } | Shape::Reader, Verb::Waits) => or_no_form(wait(fields)),
        (Shape::Clock, Verb::Follows) => or_no_form(after(fields)),
        _ => Meaning::NoForm,
    }
}

// What a record says in a script of a shape.
pub(crate) fn meaning_of(names: &Names, shape: Shape, row: &ByteRecord) -> Meaning
    requires { IsSound names.now.program.now }
    ensures { result ≡ meaning_of names.now.program.now shape (fields_of row.now) }
{
    let mut fields = Fields::of(row);
    match fields.next() {
        Some(field) => meaning_by(names, shape, verb_of(field), &mut fields),
        None => Meaning::NoForm,
    }
}
