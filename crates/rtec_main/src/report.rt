// The text of commands that run, whole or its end alone.
ghost use Rattle.std.specs.Prelude.{◌≡◌, ◌<◌, ◌≤◌, ◌^◌, ℕ, [], true, map, OnOk, OnErr, IfOk};
ghost use Rattle.std.specs.List.{list_all};
ghost use Rattle.std.specs.Arc.{arc_value};
ghost use Rattle.rt_base.specs.Outside.{with_bytes};
ghost use Rattle.decl_known.specs.Sound.{is_sound_domain};
ghost use Rattle.text_pieces.specs.Lines.{text_of_lines};
ghost use Rattle.report_text.specs.Report.{command_lines, history_of};
ghost use Rattle.report_text.specs.Printed.{IsCounted};
ghost use Rattle.rtec_main.specs.Coursing.{IsAbreast, AreCommandsOf, lead_text};
ghost use Rattle.workload_draw.specs.Counts.{seal_count};
ghost use Rattle.rtec_main.specs.Script.{entry_count, DoRun};
ghost use Rattle.rtec_main.specs.Simulated.{asked_text};
ghost use Rattle.rtec_main.specs.Writes.{IsOnWay, IsCut, IsBlamed};

use crate::commanded::Commanded;
use crate::course::{Course, put_command, take_command};
use crate::script::entry_count;
use crate::writes::{Unwritten, hand_on};
use ground_types::{Command, Program};
use publish_shelf::Board;
use report_text::put_end;
use rt_base::{OutOfMemory, Sink, Steps};
use std::alloc::Global;
use std::marker::Brand;
use std::sync::Arc;
use std::thread::Threads;

// The text is handed on when it is longer than this, in bytes.
const LONG: usize = 65_536;

// Whether it is time to hand a text on: a block was added, or the text is long.
fn is_time(command: Command, text: &Vec<u8>) -> bool {
    matches!(command, Command::Seal) || text.len() > LONG
}

// Adds what each command adds to a report. What is made of it is written as it grows.
fn put_commands<R: Threads + Sync, T: Commanded, K: Sink>(
    rt: &R,
    course: &mut Course,
    steps: &mut Steps<Brand>,
    commands: &[T],
    out: &mut K,
    text: &mut Vec<u8>,
) -> Result<(), Unwritten>
    requires counted { IsCounted course.old.names }
    requires abreast { IsAbreast course.old }
    requires none { course.old.log.history ≡ [] }
    requires of_program { AreCommandsOf course.old.names (map T.command_of commands.now) }
    requires room { entry_count (map T.command_of commands.now) ≤ course.old.log.cap }
    requires queries { seal_count (map T.command_of commands.now)
        ≤ course.old.names.plan.queries }
    requires empty { text.old.items ≡ [] }
    ensures abreast { OnOk result (IsAbreast course.new) }
    ensures names { OnOk result (course.new.names ≡ course.old.names) }
    ensures history { OnOk result (course.new.log.history
        ≡ history_of course.old.names.plan (map T.command_of commands.now)) }
    ensures ok { OnOk result (IsOnWay (K.taken out.old) (K.taken out.new) text.new.items
        (text_of_lines (command_lines course.old.names [] (map T.command_of commands.now)))) }
    ensures err { OnErr result (IsCut (K.taken out.old) (K.taken out.new)
        (text_of_lines (command_lines course.old.names [] (map T.command_of commands.now)))) }
    ensures blame { IsBlamed (K.faults out.old) (K.faults out.new) result }
    ensures parts { steps.new.out ≡ steps.old.out }
{
    for item in commands {
        let command = item.command();
        put_command(rt, course, steps, command, text)?;
        hand_on(out, text, is_time(command, text))?;
    }
    Ok(())
}

// Takes all commands, and makes no text.
fn take_commands<R: Threads + Sync, T: Commanded>(
    rt: &R,
    course: &mut Course,
    steps: &mut Steps<Brand>,
    commands: &[T],
) -> Result<(), OutOfMemory>
    requires counted { IsCounted course.old.names }
    requires abreast { IsAbreast course.old }
    requires none { course.old.log.history ≡ [] }
    requires of_program { AreCommandsOf course.old.names (map T.command_of commands.now) }
    requires room { entry_count (map T.command_of commands.now) ≤ course.old.log.cap }
    requires queries { seal_count (map T.command_of commands.now)
        ≤ course.old.names.plan.queries }
    ensures abreast { OnOk result (IsAbreast course.new) }
    ensures names { OnOk result (course.new.names ≡ course.old.names) }
    ensures history { OnOk result (course.new.log.history
        ≡ history_of course.old.names.plan (map T.command_of commands.now)) }
    ensures parts { steps.new.out ≡ steps.old.out }
{
    for item in commands {
        take_command(rt, course, steps, item.command())?;
    }
    Ok(())
}

// Takes all commands. What each adds to a report is written as it grows, where all is asked for.
fn run_commands<R: Threads + Sync, T: Commanded, K: Sink>(
    rt: &R,
    course: &mut Course,
    steps: &mut Steps<Brand>,
    commands: &[T],
    is_full: bool,
    out: &mut K,
    text: &mut Vec<u8>,
) -> Result<(), Unwritten>
    requires counted { IsCounted course.old.names }
    requires abreast { IsAbreast course.old }
    requires none { course.old.log.history ≡ [] }
    requires of_program { AreCommandsOf course.old.names (map T.command_of commands.now) }
    requires room { entry_count (map T.command_of commands.now) ≤ course.old.log.cap }
    requires queries { seal_count (map T.command_of commands.now)
        ≤ course.old.names.plan.queries }
    requires empty { text.old.items ≡ [] }
    ensures abreast { OnOk result (IsAbreast course.new) }
    ensures names { OnOk result (course.new.names ≡ course.old.names) }
    ensures history { OnOk result (course.new.log.history
        ≡ history_of course.old.names.plan (map T.command_of commands.now)) }
    ensures ok { OnOk result (IsOnWay (K.taken out.old) (K.taken out.new) text.new.items
        (lead_text is_full course.old.names (map T.command_of commands.now))) }
    ensures err { OnErr result (IsCut (K.taken out.old) (K.taken out.new)
        (lead_text is_full course.old.names (map T.command_of commands.now))) }
    ensures blame { IsBlamed (K.faults out.old) (K.faults out.new) result }
    ensures parts { steps.new.out ≡ steps.old.out }
{
    if is_full {
        return put_commands(rt, course, steps, commands, out, text);
    }
    take_commands(rt, course, steps, commands)?;
    Ok(())
}

// Adds all that is asked for and writes it.
fn put_asked<R: Threads + Sync, T: Commanded, K: Sink>(
    rt: &R,
    course: &mut Course,
    steps: &mut Steps<Brand>,
    commands: &[T],
    ignored: u64,
    is_full: bool,
    out: &mut K,
    text: &mut Vec<u8>,
) -> Result<(), Unwritten>
    requires counted { IsCounted course.old.names }
    requires abreast { IsAbreast course.old }
    requires none { course.old.log.history ≡ [] }
    requires of_program { AreCommandsOf course.old.names (map T.command_of commands.now) }
    requires room { entry_count (map T.command_of commands.now) ≤ course.old.log.cap }
    requires do_run { DoRun course.old.names.plan (map T.command_of commands.now) }
    requires empty { text.old.items ≡ [] }
    ensures ok { OnOk result (K.taken out.new ≡ with_bytes (asked_text is_full course.old.names
        (map T.command_of commands.now) ignored) (K.taken out.old)) }
    ensures err { OnErr result (IsCut (K.taken out.old) (K.taken out.new)
        (asked_text is_full course.old.names (map T.command_of commands.now) ignored)) }
    ensures blame { IsBlamed (K.faults out.old) (K.faults out.new) result }
    ensures parts { steps.new.out ≡ steps.old.out }
{
    run_commands(rt, course, steps, commands, is_full, out, text)?;
    let history = course.log.history();
    put_end(ignored, history, course.board.list(), text)?;
    hand_on(out, text, true)
}

// The program, which log, names and publications share.
fn shared(alloc: Global, program: Program) -> Result<Arc<Program>, OutOfMemory>
    ensures { IfOk result (λ shared. arc_value shared ≡ program) }
{
    Ok(Arc::new(alloc, program)?)
}

/// Writes the report of commands that run, block by block as it is made, or its end alone, where it
/// is not asked for in full. Of what is not asked for no text is made. After a fault of the sink,
/// or where memory runs out, a beginning of the text is written.
pub fn write_report<R: Threads + Sync, T: Commanded, K: Sink>(
    rt: &R,
    alloc: Global,
    program: Program,
    commands: &[T],
    ignored: u64,
    is_full: bool,
    out: &mut K,
) -> Result<(), Unwritten>
    requires counted { IsCounted program }
    requires domains { list_all is_sound_domain program.domains ≡ true }
    requires of_program { AreCommandsOf program (map T.command_of commands.now) }
    requires few { entry_count (map T.command_of commands.now) < 2 ^ 32 }
    requires do_run { DoRun program.plan (map T.command_of commands.now) }
    ensures ok { OnOk result (K.taken out.new ≡ with_bytes (asked_text is_full program
        (map T.command_of commands.now) ignored) (K.taken out.old)) }
    ensures err { OnErr result (IsCut (K.taken out.old) (K.taken out.new)
        (asked_text is_full program (map T.command_of commands.now) ignored)) }
    ensures blame { IsBlamed (K.faults out.old) (K.faults out.new) result }
{
    let program = shared(alloc, program)?;
    let cap = entry_count(commands);
    let mut course = Course::new(alloc, &program, cap)?;
    let mut text = Vec::new(alloc);
    let mut steps = Steps::first();
    let written = put_asked(
        rt,
        &mut course,
        &mut steps,
        commands,
        ignored,
        is_full,
        out,
        &mut text,
    );
    steps.end();
    written
}
