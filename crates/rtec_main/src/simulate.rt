// What `simulate` runs: a description, and the workload of a seed and a size.
ghost use Rattle.std.specs.Prelude.{◌≡◌, ◌<◌, ◌≤◌, ◌^◌, ℕ, Bool, true, List, IfOk, Some};
ghost use Rattle.std.specs.List.{list_all};
ghost use Rattle.decl_known.specs.Sound.{is_sound_domain};
ghost use Rattle.report_text.specs.Printed.{IsCounted};
ghost use Rattle.command_words.specs.Words.{Simulate};
ghost use Rattle.rtec_main.specs.Coursing.{AreCommandsOf};
ghost use Rattle.rtec_main.specs.Run.{Means, Completes};
ghost use Rattle.rtec_main.specs.Script.{entry_count, DoRun};
ghost use Rattle.rtec_main.specs.Tasks.{world_of, simulated_by, Answers, ConcludesAny};

use crate::inputs::read_description;
use crate::report::write_report;
use crate::script::are_too_many;
use ground_types::{Command, Program};
use rt_base::{Inputs, Limit, Sink};
use run_status::Status;
use std::alloc::Global;
use std::thread::Threads;
use workload_draw::workload;

/// A program, and commands that run under it.
#[derive(Drop)]
pub struct Workload {
    pub program: Program,
    pub commands: Vec<Command>,
}

// The program of a description, which is read to its end, and its workload of this seed and size.
fn read_workload<I: Inputs>(
    alloc: Global,
    inputs: &mut I,
    description: &str,
    seed: u64,
    size: u32,
) -> Result<Workload, Status>
    requires { 1 ≤ size }
    ensures counted { IfOk result (λ workload. IsCounted workload.program) }
    ensures domains { IfOk result (λ workload.
        list_all is_sound_domain workload.program.domains ≡ true) }
    ensures of_program { IfOk result (λ workload. AreCommandsOf workload.program
        workload.commands.items) }
    ensures few { IfOk result (λ workload. entry_count workload.commands.items < 2 ^ 32) }
    ensures do_run { IfOk result (λ workload. DoRun workload.program.plan
        workload.commands.items) }
    ensures answer { (workers : ℕ) (is_full : Bool) → Answers (simulated_by is_full)
        (I.bytes inputs.old) (I.faults inputs.old) (I.faults inputs.new)
        (Simulate description.now seed size workers is_full) result }
    ensures complete { (workers : ℕ) (is_full : Bool) → ConcludesAny (I.bytes inputs.old)
        (I.faults inputs.old) (I.faults inputs.new)
        (Simulate description.now seed size workers is_full) result }
    ensures same { (name : List ℕ) → I.bytes inputs.new name ≡ I.bytes inputs.old name }
    ensures later { (name : List ℕ) → I.faults inputs.old name ≤ I.faults inputs.new name }
{
    let described = read_description(alloc, inputs, description)?;
    let program = described.into_program();
    if are_too_many(&program.plan, u64::from(size)) {
        return Err(Status::TooLarge {
            limit: Limit::Occurrences,
        });
    }
    let commands = workload(alloc, &program, seed, size)?;
    Ok(Workload { program, commands })
}

/// Writes the report of the workload of a seed and a size under a description, or the end of it
/// alone, where it is not asked for in full.
pub fn simulate<R: Threads + Sync, I: Inputs, K: Sink>(
    rt: &R,
    alloc: Global,
    description: &str,
    seed: u64,
    size: u32,
    is_full: bool,
    inputs: &mut I,
    out: &mut K,
) -> Status
    requires { 1 ≤ size }
    ensures means { (workers : ℕ) → Means
        (world_of (I.bytes inputs.old) (I.faults inputs.old) (K.taken out.old)
        (K.faults out.old))
        (world_of (I.bytes inputs.new) (I.faults inputs.new) (K.taken out.new)
        (K.faults out.new))
        (Simulate description.now seed size workers is_full) result }
    ensures complete { (workers : ℕ) → Completes
        (world_of (I.bytes inputs.old) (I.faults inputs.old) (K.taken out.old)
        (K.faults out.old))
        (world_of (I.bytes inputs.new) (I.faults inputs.new) (K.taken out.new)
        (K.faults out.new))
        (Some (Simulate description.now seed size workers is_full)) result }
    ensures same { (name : List ℕ) → I.bytes inputs.new name ≡ I.bytes inputs.old name }
    ensures later { (name : List ℕ) → I.faults inputs.old name ≤ I.faults inputs.new name }
    ensures later_writes { K.faults out.old ≤ K.faults out.new }
{
    let workload = match read_workload(alloc, inputs, description, seed, size) {
        Ok(workload) => workload,
        Err(status) => return status,
    };
    let Workload { program, commands } = workload;
    match write_report(rt, alloc, program, commands.as_slice(), 0, is_full, out) {
        Ok(()) => Status::Done,
        Err(unwritten) => Status::from(unwritten),
    }
}
