// The top call.
ghost use Rattle.std.specs.Prelude.{◌≡◌, ◌≤◌, ℕ, List, Some, option_map};
ghost use Rattle.command_words.specs.Words.{Recognise, Ground, plain_task, task_of};
ghost use Rattle.rtec_main.specs.Run.{Means, MeansOfWords, Completes};
ghost use Rattle.rtec_main.specs.Tasks.{world_of, IsSized, Answers, ConcludesAny};

use crate::inputs::read_description;
use crate::job::{Job, read_job};
use crate::report::write_report;
use crate::simulate::simulate;
use crate::writes::write_all;
use command_words::{Task, task_of, texts_of};
use ground_text::ground_text;
use rt_base::{Failed, Gate, Inputs, OutOfMemory, Sink, Word};
use run_status::Status;
use std::alloc::Global;
use std::thread::Threads;

// The ground text of a description.
fn grounding_of<I: Inputs>(
    alloc: Global,
    inputs: &mut I,
    description: &str,
) -> Result<Vec<u8>, Status>
    ensures answer { Answers (λ text. text.items) (I.bytes inputs.old) (I.faults inputs.old)
        (I.faults inputs.new) (Ground description.now) result }
    ensures complete { ConcludesAny (I.bytes inputs.old) (I.faults inputs.old)
        (I.faults inputs.new) (Ground description.now) result }
    ensures same { (name : List ℕ) → I.bytes inputs.new name ≡ I.bytes inputs.old name }
    ensures later { (name : List ℕ) → I.faults inputs.old name ≤ I.faults inputs.new name }
{
    let described = read_description(alloc, inputs, description)?;
    Ok(ground_text(
        alloc,
        &described.syntax,
        &described.checked,
        &described.program,
    )?)
}

// Writes the report of a script under a description.
fn recognise<R: Threads + Sync, I: Inputs, K: Sink>(
    rt: &R,
    alloc: Global,
    description: &str,
    script: &str,
    inputs: &mut I,
    out: &mut K,
) -> Status
    ensures means { (workers : ℕ) → Means
        (world_of (I.bytes inputs.old) (I.faults inputs.old) (K.taken out.old)
        (K.faults out.old))
        (world_of (I.bytes inputs.new) (I.faults inputs.new) (K.taken out.new)
        (K.faults out.new))
        (Recognise description.now script.now workers) result }
    ensures complete { (workers : ℕ) → Completes
        (world_of (I.bytes inputs.old) (I.faults inputs.old) (K.taken out.old)
        (K.faults out.old))
        (world_of (I.bytes inputs.new) (I.faults inputs.new) (K.taken out.new)
        (K.faults out.new))
        (Some (Recognise description.now script.now workers)) result }
    ensures same { (name : List ℕ) → I.bytes inputs.new name ≡ I.bytes inputs.old name }
    ensures later { (name : List ℕ) → I.faults inputs.old name ≤ I.faults inputs.new name }
    ensures later_writes { K.faults out.old ≤ K.faults out.new }
{
    let job = match read_job(alloc, inputs, description, script) {
        Ok(job) => job,
        Err(status) => return status,
    };
    let Job { program, script } = job;
    let commands = script.commands.as_slice();
    match write_report(rt, alloc, program, commands, script.ignored, true, out) {
        Ok(()) => Status::Done,
        Err(unwritten) => Status::from(unwritten),
    }
}

// Writes the ground text of a description.
fn ground<I: Inputs, K: Sink>(
    alloc: Global,
    description: &str,
    inputs: &mut I,
    out: &mut K,
) -> Status
    ensures means { Means
        (world_of (I.bytes inputs.old) (I.faults inputs.old) (K.taken out.old)
        (K.faults out.old))
        (world_of (I.bytes inputs.new) (I.faults inputs.new) (K.taken out.new)
        (K.faults out.new))
        (Ground description.now) result }
    ensures complete { Completes
        (world_of (I.bytes inputs.old) (I.faults inputs.old) (K.taken out.old)
        (K.faults out.old))
        (world_of (I.bytes inputs.new) (I.faults inputs.new) (K.taken out.new)
        (K.faults out.new))
        (Some (Ground description.now)) result }
    ensures same { (name : List ℕ) → I.bytes inputs.new name ≡ I.bytes inputs.old name }
    ensures later { (name : List ℕ) → I.faults inputs.old name ≤ I.faults inputs.new name }
    ensures later_writes { K.faults out.old ≤ K.faults out.new }
{
    let text = match grounding_of(alloc, inputs, description) {
        Ok(text) => text,
        Err(status) => return status,
    };
    match write_all(out, &text) {
        Ok(()) => Status::Done,
        Err(Failed) => Status::WriteFault,
    }
}

// Does what is asked for, which by `live` is nothing yet.
fn perform<R: Threads + Sync, I: Inputs, K: Sink>(
    rt: &R,
    alloc: Global,
    asked: &Option<Task>,
    inputs: &mut I,
    out: &mut K,
) -> Status
    requires sized { IsSized (option_map plain_task asked.now) }
    ensures status { MeansOfWords
        (world_of (I.bytes inputs.old) (I.faults inputs.old) (K.taken out.old)
        (K.faults out.old))
        (world_of (I.bytes inputs.new) (I.faults inputs.new) (K.taken out.new)
        (K.faults out.new))
        (option_map plain_task asked.now) result }
    ensures complete { Completes
        (world_of (I.bytes inputs.old) (I.faults inputs.old) (K.taken out.old)
        (K.faults out.old))
        (world_of (I.bytes inputs.new) (I.faults inputs.new) (K.taken out.new)
        (K.faults out.new))
        (option_map plain_task asked.now) result }
    ensures same { (name : List ℕ) → I.bytes inputs.new name ≡ I.bytes inputs.old name }
    ensures later { (name : List ℕ) → I.faults inputs.old name ≤ I.faults inputs.new name }
    ensures later_writes { K.faults out.old ≤ K.faults out.new }
{
    match asked {
        Some(
            Task::Recognise {
                description,
                script,
                ..
            },
        ) => recognise(rt, alloc, description, script, inputs, out),
        Some(Task::Ground { description }) => ground(alloc, description, inputs, out),
        Some(
            Task::Simulate {
                description,
                seed,
                size,
                is_full,
                ..
            },
        ) => simulate(rt, alloc, description, *seed, *size, *is_full, inputs, out),
        Some(Task::Live { .. }) => Status::BadWords,
        None => Status::BadWords,
    }
}

/// Does what the words say, over these inputs and this sink. It passes its gate at no place yet,
/// and `recognise` and `simulate` ask for workers that change nothing yet.
///
/// BadWords comes exactly where the words are of no command, or of `live`. Otherwise `status` says
/// what each status means, as far as inputs and sink tell their bytes. Done: the sink has its old
/// bytes and the report of a script, a ground text, or the report of a workload or its last three
/// lines. BadDescription: reading the description's statements, checking them or ordering them in
/// layers refuses, with the fault. TooLarge: a counted quantity exceeds its limit, with the first
/// that does: the bytes of the description, then units, events, assignments, rules, conditions and
/// cells, then the bytes and the records of the script, then its seals and its occurrences, or
/// those of the size of a workload. BadScript: a record has no form, with the first. ReadFault and
/// WriteFault: the count of faults rose in this call. Each comes only where what is tested before
/// it passed: the description before the script or the size, and of each file its faults of
/// reading, its length, its content. All but Done, WriteFault and want of memory write nothing. A
/// report is written as it is made, so after WriteFault and want of memory the sink has a beginning
/// of it. Want of memory alone has no cause. `complete` says it the other way round: what the
/// status is where nothing failed.
pub fn run<R: Threads + Sync, I: Inputs, K: Sink, G: Gate>(
    rt: &R,
    alloc: Global,
    words: &[Word],
    inputs: &mut I,
    out: &mut K,
    _gate: &G,
) -> Status
    ensures status { MeansOfWords
        (record {
          bytes = I.bytes inputs.old;
          faults = I.faults inputs.old;
          taken = K.taken out.old;
          write_faults = K.faults out.old;
        })
        (record {
          bytes = I.bytes inputs.new;
          faults = I.faults inputs.new;
          taken = K.taken out.new;
          write_faults = K.faults out.new;
        })
        (task_of words.now) result }
    ensures complete { Completes
        (record {
          bytes = I.bytes inputs.old;
          faults = I.faults inputs.old;
          taken = K.taken out.old;
          write_faults = K.faults out.old;
        })
        (record {
          bytes = I.bytes inputs.new;
          faults = I.faults inputs.new;
          taken = K.taken out.new;
          write_faults = K.faults out.new;
        })
        (task_of words.now) result }
    ensures same { (name : List ℕ) → I.bytes inputs.new name ≡ I.bytes inputs.old name }
    ensures later { (name : List ℕ) → I.faults inputs.old name ≤ I.faults inputs.new name }
    ensures later_writes { K.faults out.old ≤ K.faults out.new }
{
    let words = match texts_of(alloc, words) {
        Ok(words) => words,
        Err(OutOfMemory) => return Status::OutOfMemory,
    };
    match task_of(alloc, words.as_slice()) {
        Ok(asked) => perform(rt, alloc, &asked, inputs, out),
        Err(OutOfMemory) => Status::OutOfMemory,
    }
}

#[cfg(test)]
mod tests;
