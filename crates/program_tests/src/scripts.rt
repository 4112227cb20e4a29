// Scripts of each shape over a small program.
ghost use Rattle.ground_types.specs.Sound.{IsSound};
ghost use Rattle.stream_read.specs.Scripts.{IsShape};

use crate::descriptions::program_of;
use ground_types::Program;
use std::alloc::{AllocError, Global};
use std::fmt::Write;
use std::test::Fail;
use stream_read::{Placed, Script, Shape, StreamRefused, commands};

// Ground events 0 to 3 are moves from r1 to r1, from r1 to r2 and so on, and 4 is a tick; units 0
// and 1 are r1 and r2 open.
const ROOMS: &str = "window(10). step(5).
domain room [r1, r2].
input move(room, room).
input tick.
simple open(room) [no, yes].
initiatedAt(open(R)=yes) :- happensAt(move(R, S)).";

// How many records are ignored, and each command behind the number of its record.
fn script_text(alloc: Global, script: &Script) -> Result<String, AllocError> {
    let ignored = script.ignored;
    let mut out = format!(in alloc; "{ignored} ignored")?;
    for Placed { place, command } in script.commands.as_slice() {
        write!(out, "\n{place} {command:?}")?;
    }
    Ok(out)
}

// The script of a text, or why there is none.
fn commands_told(
    alloc: Global,
    program: &Program,
    shape: Shape,
    text: &[u8],
) -> Result<String, AllocError>
    requires sound { IsSound program.now }
    requires shape { IsShape shape }
{
    match commands(alloc, text, program, shape) {
        Ok(script) => script_text(alloc, &script),
        Err(refused) => format!(in alloc; "{refused:?}"),
    }
}

const MERGED: &str = "add,3,5,move,r2,r1
revoke,8,0000000000000007,tick
add,1,9999999999999999,move,r1
revoke,1,5,open,r1
seal
ask,holds,2,yes,open,r2
ask,count
ask,block,12
add,1,6,move,r2,r3
add,1,6,move,r1,r2,r1
";

const MERGED_TOLD: &str = "4 ignored
1 Feed { feeder: 3, act: Add, event: 2, at: 5 }
2 Feed { feeder: 8, act: Revoke, event: 4, at: 7 }
5 Seal
6 Ask(Holds { unit: 1, value: 1, at: 2 })
7 Ask(Count)
8 Ask(Block { number: 12 })";

#[test]
fn records_are_commands(rt: HostRuntime) -> Result<(), Fail> {
    let program = program_of(rt.alloc(), ROOMS)?;
    let feeder = Shape::Feeder { number: 2 };
    let rows = [
        (Shape::Merged, MERGED, MERGED_TOLD),
        (
            feeder,
            "add,5,tick",
            "0 ignored\n1 Feed { feeder: 2, act: Add, event: 4, at: 5 }",
        ),
        (
            feeder,
            "revoke,5,move,r1,r2",
            "0 ignored\n1 Feed { feeder: 2, act: Revoke, event: 1, at: 5 }",
        ),
        (feeder, "wait,3", "0 ignored\n1 Wait { count: 3 }"),
        (Shape::Clock, "seal", "0 ignored\n1 Seal"),
        (
            Shape::Clock,
            "after,8,40",
            "0 ignored\n1 After { feeder: 8, count: 40 }",
        ),
        (Shape::Reader, "wait,0", "0 ignored\n1 Wait { count: 0 }"),
        (Shape::Reader, "ask,count", "0 ignored\n1 Ask(Count)"),
    ];
    for (shape, text, wanted) in rows {
        let found = commands_told(rt.alloc(), &program, shape, text.as_bytes())?;
        assert_eq!(rt; found.as_str(), wanted);
    }
    Ok(())
}

#[test]
fn records_are_those_of_csv(rt: HostRuntime) -> Result<(), Fail> {
    let program = program_of(rt.alloc(), ROOMS)?;
    // A byte order mark, quotes, line ends of each kind, empty lines, and a last record without a
    // line end.
    let marked =
        b"\xEF\xBB\xBF\"add\",1,5,\"tick\"\r\n\r\n\nadd,1,6,\"ti\"\"ck\"\radd,2,7,t\0ck\n\n\
add,2,8,\xFF\nadd,2,9,\"a\nb\"\nseal";
    let rows = [
        (
            marked.as_slice(),
            "4 ignored\n1 Feed { feeder: 1, act: Add, event: 4, at: 5 }\n6 Seal",
        ),
        (b"".as_slice(), "0 ignored"),
        (b"\xEF\xBB\xBF\n\r\n".as_slice(), "0 ignored"),
        (
            b"seal\n\nseal\r\n seal\nunknown".as_slice(),
            "BadRecord { number: 3 }",
        ),
    ];
    for (text, wanted) in rows {
        let found = commands_told(rt.alloc(), &program, Shape::Merged, text)?;
        assert_eq!(rt; found.as_str(), wanted);
    }
    Ok(())
}

// The first of these records, parted by bars, that has a form of the shape.
fn with_a_form<'a>(
    alloc: Global,
    program: &Program,
    shape: Shape,
    records: &'a str,
) -> Option<&'a str>
    requires sound { IsSound program.now }
    requires shape { IsShape shape }
{
    for record in records.split('|') {
        match commands(alloc, record.as_bytes(), program, shape) {
            Err(StreamRefused::BadRecord { number: 1 }) => {}
            _ => return Some(record),
        }
    }
    None
}

#[test]
fn near_misses_have_no_form(rt: HostRuntime) -> Result<(), Fail> {
    let program = program_of(rt.alloc(), ROOMS)?;
    let rows = [
        (
            Shape::Merged,
            "add,0,5,tick|add,9,5,tick|add,01,5,tick|add,,5,tick|add,1,,tick|add,1,-5,tick|\
add,1,00000000000000005,tick",
        ),
        (
            Shape::Merged,
            "add,1,5,|add,1,5|add,1|add|Add,1,5,tick| add,1,5,tick|add,1,5 ,tick|wait,1|\
after,1,1|\"\"",
        ),
        (
            Shape::Merged,
            "seal,|seal,1|ask|ask,all|ask,holds,2,yes|ask,holds,2,maybe,open,r1|\
ask,holds,2,yes,open|ask,holds,2,yes,tick",
        ),
        (
            Shape::Merged,
            "ask,holds,,yes,open,r1|ask,holds,2,yes,open,r1,|ask,count,|ask,block|ask,block,x|\
ask,block,1,1",
        ),
        (
            Shape::Feeder { number: 2 },
            "add,x,tick|add,5,|add,5|seal|wait|wait,x|wait,1,2|ask,count|after,1,1",
        ),
        (
            Shape::Clock,
            "seal,1|seal,|after,1|after,0,1|after,1,1,1|wait,1|add,1,5,tick|ask,count",
        ),
        (
            Shape::Reader,
            "seal|add,1,5,tick|revoke,5,tick|wait|wait,1,|after,1,1|ask,count,1",
        ),
    ];
    for (shape, records) in rows {
        let found = with_a_form(rt.alloc(), &program, shape, records);
        assert_eq!(rt; found, None);
    }
    Ok(())
}
