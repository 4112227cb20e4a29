// What no clause says: reports, ground texts and fault lines as worked by hand, what a fault of a
// file or the sink comes to, and that runs succeed with ample memory.
use super::run;
use rt_base::{MemoryInputs, MemorySink, NoGate, Word};
use run_status::Status;
use std::alloc::Global;
use std::test::Fail;
use std::thread::Threads;

mod asks;
mod descriptions;
mod faults;
mod histories;
mod reports;
mod rows;
mod scripts;
mod workloads;

// A lamp that is switched up and down.
const LAMP: &str = "window(10).\nstep(5).\nfrom(0).\ninput up.\ninput down.\nsimple on [true].\n\
initiatedAt(on=true) :- happensAt(up).\nterminatedAt(on=true) :- happensAt(down).\n";

// The words of `recognise`.
const REPORT: &str = "recognise|desc|script";

// Two who meet where they differ, over a domain of one.
const MEETING: &str = "window(10).\nstep(5).\ndomain v [x].\ninput near(v, v).\n\
simple met(v, v) [true].\ninitiatedAt(met(X, Y)=true) :- happensAt(near(X, Y)), X \\= Y.\n";

// The lamp goes up, down and up again.
const FIRST_RUN: &str = "add,1,3,up\nadd,1,7,down\nadd,1,9,up\nseal\n";

// What a run says of the lamp and the script above.
const FIRST_REPORT: &str = "0 \n\
1 add up 3 admitted\n1 add down 7 admitted\n1 add up 9 admitted\n\
query 0 window (0,10] evaluations 3\n  on=true (3,7] (9,open)\nignored 0\n\
entries 3 admitted 3 delayed 0 already 0 revoked 0 delayed-revoked 0 unknown 0 forgotten 0\n\
queries 1 spans 2 points 0 evaluations 3\n";

// A run: its words, parted by bars, its two files where they are there, the reads and writes that
// fail, and the most bytes that the sink takes at once.
#[derive(Clone, Copy)]
struct Run<'a> {
    words: &'a str,
    description: Option<&'a str>,
    script: Option<&'a str>,
    failing_reads: &'a [u64],
    failing_writes: &'a [u64],
    piece: usize,
}

// The words of a line, parted by bars; of an empty line there are none.
fn words(alloc: Global, line: &str) -> Result<Vec<Word>, Fail> {
    let mut words = Vec::new(alloc);
    if !line.is_empty() {
        for text in line.split('|') {
            words.push(Word::new(alloc, text)?)?;
        }
    }
    Ok(words)
}

// A file of this name.
fn file(alloc: Global, name: &str, text: &str) -> Result<(Word, Vec<u8>), Fail> {
    let bytes = Vec::from_slice(alloc, text.as_bytes())?;
    Ok((Word::new(alloc, name)?, bytes))
}

// The files of a run.
fn inputs(alloc: Global, case: Run) -> Result<MemoryInputs, Fail> {
    let mut files = Vec::new(alloc);
    if let Some(text) = case.description {
        files.push(file(alloc, "desc", text)?)?;
    }
    if let Some(text) = case.script {
        files.push(file(alloc, "script", text)?)?;
    }
    let failing = Vec::from_slice(alloc, case.failing_reads)?;
    Ok(MemoryInputs::new(files, failing))
}

// The sink of a run.
fn sink(alloc: Global, case: Run) -> Result<MemorySink, Fail> {
    let failing = Vec::from_slice(alloc, case.failing_writes)?;
    Ok(MemorySink::new(alloc, case.piece.max(1), 400_000, failing)?)
}

// The number and the fault line of a status, and on the next lines what was written.
fn told(alloc: Global, status: Status, written: &[u8]) -> Result<String, Fail> {
    let number = status.number();
    let text = str::from_utf8(written)?;
    Ok(format!(in alloc; "{number} {status}\n{text}")?)
}

// What a run says.
fn said(rt: &(impl Threads + Sync + AllocGlobal), case: Run) -> Result<String, Fail> {
    let alloc = rt.alloc();
    let words = words(alloc, case.words)?;
    let mut inputs = inputs(alloc, case)?;
    let mut out = sink(alloc, case)?;
    let status = run(rt, alloc, &words, &mut inputs, &mut out, &NoGate);
    told(alloc, status, out.bytes())
}

// What a run of these words over these two files says.
fn of_files(
    rt: &(impl Threads + Sync + AllocGlobal),
    words: &str,
    description: &str,
    script: &str,
) -> Result<String, Fail> {
    let case = Run {
        words,
        description: Some(description),
        script: Some(script),
        failing_reads: &[],
        failing_writes: &[],
        piece: 1000,
    };
    said(rt, case)
}

// What `recognise` says.
fn recognised(
    rt: &(impl Threads + Sync + AllocGlobal),
    description: &str,
    script: &str,
) -> Result<String, Fail> {
    of_files(rt, REPORT, description, script)
}

// The text with one part of it changed.
fn changed(alloc: Global, text: &str, from: &str, to: &str) -> Result<String, Fail> {
    let (front, back) = text.split_once(from).ok_or("the part is not there")?;
    Ok(format!(in alloc; "{front}{to}{back}")?)
}

// What `recognise` says of the lamp with one part of its description changed.
fn of_changed_lamp(
    rt: &(impl Threads + Sync + AllocGlobal),
    from: &str,
    to: &str,
    script: &str,
) -> Result<String, Fail> {
    let description = changed(rt.alloc(), LAMP, from, to)?;
    recognised(rt, description.as_str(), script)
}

// What `recognise` says of the lamp where one part of its first run is changed.
fn of_changed_run(
    rt: &(impl Threads + Sync + AllocGlobal),
    from: &str,
    to: &str,
) -> Result<String, Fail> {
    let script = changed(rt.alloc(), FIRST_RUN, from, to)?;
    recognised(rt, LAMP, script.as_str())
}

// The first line of a text.
fn first_line(text: &str) -> &str {
    text.split_once('\n').map_or(text, |parts| parts.0)
}

// A long text: the front, the piece for each number from 2 to the last one, with the number in
// place of `#` and the one before in place of `@`, and the back.
#[derive(Clone, Copy)]
struct Long<'a> {
    front: &'a str,
    piece: &'a str,
    last: u32,
    back: &'a str,
}

// The piece of a number.
fn numbered(alloc: Global, piece: &str, number: u32) -> Result<String, Fail> {
    let before = number.saturating_sub(1).to_string(alloc)?;
    let piece = piece.replace(alloc, '@', before.as_str())?;
    let number = number.to_string(alloc)?;
    Ok(piece.replace(alloc, '#', number.as_str())?)
}

// A long text, written out.
fn written_out(alloc: Global, long: Long) -> Result<String, Fail> {
    let mut text = long.front.to_string(alloc)?;
    for number in 2..=long.last {
        let piece = numbered(alloc, long.piece, number)?;
        text.push_str(piece.as_str())?;
    }
    text.push_str(long.back)?;
    Ok(text)
}
