// What `recognise` reads: a description and a script.
ghost use Rattle.std.specs.Prelude.{◌≡◌, ◌<◌, ◌≤◌, ◌^◌, ℕ, true, List, IfOk};
ghost use Rattle.std.specs.List.{list_all};
ghost use Rattle.decl_known.specs.Sound.{is_sound_domain};
ghost use Rattle.report_text.specs.Printed.{IsCounted};
ghost use Rattle.command_words.specs.Words.{Recognise};
ghost use Rattle.rtec_main.specs.Coursing.{AreCommandsOf};
ghost use Rattle.rtec_main.specs.Script.{commands_of, entry_count, DoRun};
ghost use Rattle.rtec_main.specs.Tasks.{report_by, Answers, ConcludesAny};

use crate::inputs::read_description;
use crate::script::read_script;
use ground_types::Program;
use rt_base::Inputs;
use run_status::Status;
use std::alloc::Global;
use stream_read::Script;

/// A program, and a script that runs under it.
#[derive(Drop)]
pub struct Job {
    pub program: Program,
    pub script: Script,
}

/// The program of a description and the script that it runs, both read to their ends.
pub fn read_job<I: Inputs>(
    alloc: Global,
    inputs: &mut I,
    description: &str,
    script: &str,
) -> Result<Job, Status>
    ensures counted { IfOk result (λ job. IsCounted job.program) }
    ensures domains { IfOk result (λ job. list_all is_sound_domain job.program.domains ≡ true) }
    ensures of_program { IfOk result (λ job. AreCommandsOf job.program
        (commands_of job.script.commands)) }
    ensures few { IfOk result (λ job. entry_count (commands_of job.script.commands) < 2 ^ 32) }
    ensures do_run { IfOk result (λ job. DoRun job.program.plan
        (commands_of job.script.commands)) }
    ensures answer { (workers : ℕ) → Answers report_by (I.bytes inputs.old)
        (I.faults inputs.old) (I.faults inputs.new)
        (Recognise description.now script.now workers) result }
    ensures complete { (workers : ℕ) → ConcludesAny (I.bytes inputs.old)
        (I.faults inputs.old) (I.faults inputs.new)
        (Recognise description.now script.now workers) result }
    ensures same { (name : List ℕ) → I.bytes inputs.new name ≡ I.bytes inputs.old name }
    ensures later { (name : List ℕ) → I.faults inputs.old name ≤ I.faults inputs.new name }
{
    let described = read_description(alloc, inputs, description)?;
    let program = described.into_program();
    let script = read_script(alloc, inputs, script, &program)?;
    Ok(Job { program, script })
}
