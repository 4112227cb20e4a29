use crate::{
    FileInputs, Gate, Inputs, List, MemoryInputs, MemorySink, NoGate, Place, Raw, Sink, StdSink,
    Steps, Word, is_name, is_reserved, word_of,
};
use std::alloc::Global;
use std::fs;
use std::test::Fail;

// Files of these names and bytes.
fn files_of(alloc: Global, rows: &[(&str, &[u8])]) -> Result<Vec<(Word, Vec<u8>)>, Fail> {
    let mut files = Vec::new(alloc);
    for (name, bytes) in rows {
        let name = Word::new(alloc, name)?;
        files.push((name, Vec::from_slice(alloc, bytes)?))?;
    }
    Ok(files)
}

#[test]
fn inputs_tell_the_first_file_and_fail_where_chosen(rt: HostRuntime) -> Result<(), Fail> {
    let alloc = rt.alloc();
    let files = files_of(alloc, &[("a", b"first"), ("a", b"second")])?;
    let mut inputs = MemoryInputs::new(files, Vec::from_slice(alloc, &[2])?);
    let mut buffer = [b'.'; 4];

    // Call, name, offset: how many bytes, and the buffer after it.
    let calls = [
        ("a", 0, Some(4), *b"firs"),
        ("a", 4, Some(1), *b"tirs"),
        ("a", 0, None, *b"tirs"),
        ("a", 5, Some(0), *b"tirs"),
        ("b", 0, None, *b"tirs"),
    ];
    for (name, at, count, after) in calls {
        let read = inputs.read_at(name, at, &mut buffer).ok();
        assert_eq!(rt; (read, buffer), (count, after), "{name} at {at}");
    }
    Ok(())
}

#[test]
fn a_sink_takes_pieces_until_its_room_is_full(rt: HostRuntime) -> Result<(), Fail> {
    let alloc = rt.alloc();
    let mut sink = MemorySink::new(alloc, 3, 5, Vec::from_slice(alloc, &[1])?)?;
    let calls = [
        (b"abcd".as_slice(), Some(3)),
        (b"d".as_slice(), None),
        (b"de".as_slice(), Some(2)),
        (b"".as_slice(), Some(0)),
        (b"f".as_slice(), None),
    ];
    for (piece, count) in calls {
        assert_eq!(rt; sink.write(piece).ok(), count, "{piece:?}");
    }
    assert_eq!(rt; sink.bytes(), b"abcde".as_slice());
    Ok(())
}

// Two files: a short one, and one of more than a piece, whose bytes count up to 250 and begin anew.
const NAMES: [&str; 2] = ["rt_base_short.txt", "rt_base_long.txt"];

// What the long file has.
fn long_bytes(alloc: Global) -> Result<Vec<u8>, Fail> {
    let mut bytes = Vec::new(alloc);
    for place in 0..70000u32 {
        bytes.push((place % 251) as u8)?;
    }
    Ok(bytes)
}

// Writes both.
fn write_files(rt: &HostRuntime) -> Result<(), Fail> {
    let bytes = long_bytes(rt.alloc())?;
    fs::write(rt, NAMES[0], b"edge")?;
    fs::write(rt, NAMES[1], bytes.as_slice())?;
    Ok(())
}

// Takes both away again.
fn remove_files(rt: &HostRuntime) -> Result<(), Fail> {
    for name in NAMES {
        fs::remove_file(rt, name)?;
    }
    Ok(())
}

#[test]
fn real_files_are_read_at_any_place(rt: HostRuntime) -> Result<(), Fail> {
    write_files(&rt)?;
    let mut inputs = FileInputs::new(rt.clone()?);
    let mut buffer = [0; 70000];
    let bytes = long_bytes(rt.alloc())?;
    let all = bytes.as_slice();

    // Name, place: the bytes that are read.
    let [short, long] = NAMES;
    let calls = [
        (short, 1, Some(b"dge".as_slice())),
        (long, 0, all.get(..65536)),
        (long, 65536, all.get(65536..)),
        (long, 0, all.get(..65536)),
        ("rt_base_none.txt", 0, None),
        (long, 252, all.get(252..65788)),
        (short, 3, Some(b"e".as_slice())),
    ];
    for (name, place, wanted) in calls {
        let read = inputs.read_at(name, place, &mut buffer).ok();
        let told = read.map(|count| &buffer[..count]);
        assert!(rt; told == wanted, "{name} at {place}");
    }
    remove_files(&rt)
}

#[test]
fn the_real_output_takes_bytes(rt: HostRuntime) -> Result<(), Fail> {
    let mut out = StdSink::new(rt.clone()?);
    for (piece, taken) in [(b"".as_slice(), Some(0)), (b"\n".as_slice(), Some(1))] {
        assert_eq!(rt; out.write(piece).ok(), taken, "{piece:?}");
    }
    Ok(())
}

// A word, bytes and a list, as they are told.
fn made(alloc: Global) -> Result<String, Fail> {
    let word = Word::new(alloc, "up")?;
    let raw = Raw::new(alloc, &[255])?;
    let list = List::of(Vec::from_slice(alloc, &[1, 2])?);
    let count = list.as_slice().len();
    let (text, bytes) = (word.as_str(), raw.as_slice());
    let items = list.into_vec();
    Ok(format!(in alloc; "{text} {bytes:?} {count} {items:?}")?)
}

#[test]
fn words_and_lists_are_made(rt: HostRuntime) -> Result<(), Fail> {
    let made = made(rt.alloc())?;
    assert_eq!(rt; made.as_str(), "up [255] 2 [1, 2]");
    Ok(())
}

#[test]
fn steps_are_counted() {
    NoGate.pass(Place::Published { number: 0 });
    let mut whole = Steps::first();
    let mut part = whole.part();
    part.tick();
    whole.tick();
    whole.add(part);
    whole.end();
}

#[test]
fn kinds_of_words_are_told_apart(rt: HostRuntime) -> Result<(), Fail> {
    let long = [b'a'; 65];
    for (word, wanted) in [
        (b"up".as_slice(), true),
        (b"low_on2".as_slice(), true),
        (&long[..64], true),
        (&long, false),
        (b"".as_slice(), false),
        (b"Up".as_slice(), false),
        (b"2up".as_slice(), false),
        (b"end".as_slice(), false),
        (b"on-off".as_slice(), false),
    ] {
        assert_eq!(rt; is_name(word), wanted, "{word:?}");
    }
    assert!(rt; is_reserved(b"expires"));
    assert_eq!(rt; word_of(rt.alloc(), b"up")?.as_str(), "up");
    Ok(())
}
