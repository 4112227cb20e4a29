//! `rtec`, a recogniser of composite activities over streams of events, after the Run-Time Event
//! Calculus. Its promise is the contract of `run`: what is written is the report of a script or of
//! a made workload under a description, or the ground text of a description, and each other status
//! but want of memory names its cause. Inputs and the course of a run are private parts. `main`
//! calls `run` with the real inputs, the real standard output and a gate that holds nobody. It
//! stands on nearly all other crates.
#![tactic(auto)]

mod commanded;
mod course;
mod inputs;
mod job;
mod laws;
mod reads;
mod report;
mod run;
mod script;
mod simulate;
mod writes;

use crate::run::run;
use rt_base::{FileInputs, NoGate, StdSink, Word};
pub use run_status::{DescFault, ScriptFault, Status};
use std::alloc::AllocError;
use std::env::Env;
use std::process::ExitCode;
use std::rt::Files;
use std::thread::Threads;
use std::{env, io};

// Words that are not text name no command; want of memory is an answer of its own.
fn words_fault(error: io::Error) -> Status {
    match error.kind() {
        io::ErrorKind::OutOfMemory => Status::OutOfMemory,
        _ => Status::BadWords,
    }
}

// The words of the command line, without the program's own name.
fn command_words<R: Env + AllocGlobal>(rt: &R) -> Result<Vec<Word>, Status> {
    let mut args = env::args(rt).map_err(words_fault)?;
    let _program = args.next();
    let mut words = Vec::new(rt.alloc());
    for arg in args {
        let word = Word::new(rt.alloc(), &arg).map_err(|_| Status::OutOfMemory)?;
        words.push(word).map_err(|_| Status::OutOfMemory)?;
    }
    Ok(words)
}

// Runs the words over the real inputs and the real standard output.
fn run_words<R: Files + Print + Env + AllocGlobal + Threads + Clone + Drop + Sync>(
    rt: &R,
) -> Result<Status, AllocError> {
    let words = match command_words(rt) {
        Ok(words) => words,
        Err(status) => return Ok(status),
    };
    let mut inputs = FileInputs::new(rt.clone()?);
    let mut out = StdSink::new(rt.clone()?);
    Ok(run(rt, rt.alloc(), &words, &mut inputs, &mut out, &NoGate))
}

fn main(rt: HostRuntime) -> ExitCode {
    let status = run_words(&rt).unwrap_or(Status::OutOfMemory);
    if status != Status::Done {
        let _ = eprintln!(rt; "rtec: {status}");
    }
    ExitCode::from(status.number())
}
