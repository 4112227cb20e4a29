// The script: it is read to its end, and it runs or is refused by one answer.
ghost use Rattle.std.specs.Prelude.{◌≡◌, ◌<◌, ◌≤◌, ◌^◌, ℕ, List, length, map, OnOk, IfOk, IfErr};
ghost use Rattle.std.specs.Prelude.{IfSome};
ghost use Rattle.ground_types.specs.Sound.{IsSound};
ghost use Rattle.ground_types.specs.Windows.{IsSoundPlan};
ghost use Rattle.workload_draw.specs.Counts.{is_seal, is_feed, seal_count, feed_count};
ghost use Rattle.rtec_main.specs.Script.{commands_of, entry_count, windows_of_event};
ghost use Rattle.rtec_main.specs.Script.{exceeds_seals, are_too_many, exceeds_occurrences, DoRun};
ghost use Rattle.rtec_main.specs.Script.{IsScriptOf};
ghost use Rattle.rtec_main.specs.Reads.{DoNotRun, IsScriptRefused, IsWhyNoScript};
ghost use Rattle.stream_read.specs.Scripts.{AreOfProgram};

use crate::commanded::Commanded;
use crate::reads::{Unread, read_all};
use ground_types::{Command, Plan, Program};
use rt_base::{Inputs, Limit};
use run_status::{ScriptFault, Status};
use std::alloc::Global;
use stream_read::{Placed, Script, Shape, StreamRefused, commands};

// The most bytes of a script.
const LONGEST_SCRIPT: usize = 67_108_864;

// The most adds and revokes, times the windows that one event may lie in.
const MOST_OCCURRENCES: u64 = 16_777_216;

/// Why a script is not taken.
#[derive(Clone, Copy, Debug, PartialEq, Eq)]
pub enum ScriptRefused {
    /// The count of its faults rose.
    Fault,
    /// It has more than 67,108,864 bytes.
    TooLong,
    /// The record of this number, counted from 1, is the first that has no form.
    BadRecord { number: u32 },
    /// It has more than 2,097,152 records.
    TooMany,
    /// It has more seals than there are queries.
    Seals,
    /// Its adds and revokes, times the windows that one event may lie in, are more than 16,777,216.
    Occurrences,
    /// Memory ran out.
    OutOfMemory,
}

impl From<Unread> for ScriptRefused {
    ghost use Rattle.rtec_main.specs.Reads.{unread_script};

    ghost from_gives = { λ unread refused. refused ≡ unread_script unread };

    fn from(unread: Unread) -> ScriptRefused {
        match unread {
            Unread::Fault => ScriptRefused::Fault,
            Unread::TooLong => ScriptRefused::TooLong,
            Unread::OutOfMemory => ScriptRefused::OutOfMemory,
        }
    }
}

impl From<StreamRefused> for ScriptRefused {
    ghost use Rattle.rtec_main.specs.Reads.{unmerged};

    ghost from_gives = { λ stream refused. refused ≡ unmerged stream };

    fn from(refused: StreamRefused) -> ScriptRefused {
        match refused {
            StreamRefused::BadRecord { number } => ScriptRefused::BadRecord { number },
            StreamRefused::TooMany => ScriptRefused::TooMany,
            StreamRefused::OutOfMemory => ScriptRefused::OutOfMemory,
        }
    }
}

impl From<ScriptRefused> for Status {
    ghost use Rattle.rtec_main.specs.Reads.{script_status};

    ghost from_gives = { λ refused status. status ≡ script_status refused };

    fn from(refused: ScriptRefused) -> Status {
        match refused {
            ScriptRefused::Fault => Status::ReadFault { input: 1 },
            ScriptRefused::TooLong => Status::TooLarge {
                limit: Limit::Script,
            },
            ScriptRefused::BadRecord { number } => Status::BadScript {
                input: 1,
                place: number,
                fault: ScriptFault::BadRecord,
            },
            ScriptRefused::TooMany => Status::TooLarge {
                limit: Limit::Commands,
            },
            ScriptRefused::Seals => Status::TooLarge {
                limit: Limit::Seals,
            },
            ScriptRefused::Occurrences => Status::TooLarge {
                limit: Limit::Occurrences,
            },
            ScriptRefused::OutOfMemory => Status::OutOfMemory,
        }
    }
}

// Whether a command is a seal.
fn is_seal<T: Commanded>(item: &T) -> bool
    ensures { result ≡ is_seal (T.command_of item.now) }
{
    matches!(item.command(), Command::Seal)
}

// Whether a command is an add or a revoke.
fn is_feed<T: Commanded>(item: &T) -> bool
    ensures { result ≡ is_feed (T.command_of item.now) }
{
    matches!(item.command(), Command::Feed { .. })
}

// How many of the commands are seals.
fn seal_count<T: Commanded>(commands: &[T]) -> usize
    ensures { result ≡ seal_count (map T.command_of commands.now) }
{
    commands.iter().filter(|item| is_seal(*item)).count()
}

// How many of the commands are adds and revokes.
fn feed_count<T: Commanded>(commands: &[T]) -> usize
    ensures { result ≡ feed_count (map T.command_of commands.now) }
{
    commands.iter().filter(|item| is_feed(*item)).count()
}

/// How many entries commands make: one for each add, revoke and seal.
pub fn entry_count<T: Commanded>(commands: &[T]) -> u32
    requires few { entry_count (map T.command_of commands.now) < 2 ^ 32 }
    ensures { result ≡ entry_count (map T.command_of commands.now) }
{
    (feed_count(commands) + seal_count(commands)) as u32
}

// In how many windows one event may lie.
fn windows_of_event(plan: &Plan) -> u64
    requires { IsSoundPlan plan.now }
    ensures { result ≡ windows_of_event plan.now }
{
    u64::from(plan.queries).min((plan.window + plan.step - 1) / plan.step)
}

// Whether there are more seals than queries.
fn exceeds_seals(plan: &Plan, commands: &[Placed]) -> bool
    ensures { result ≡ exceeds_seals plan.now (commands_of commands.now) }
{
    seal_count(commands) > plan.queries as usize
}

/// Whether the events of so many adds and revokes may lie in a window too often.
pub fn are_too_many(plan: &Plan, feeds: u64) -> bool
    requires { IsSoundPlan plan.now }
    ensures { result ≡ are_too_many plan.now feeds }
{
    feeds.saturating_mul(windows_of_event(plan)) > MOST_OCCURRENCES
}

// Whether the events of adds and revokes may lie in a window too often.
fn exceeds_occurrences(plan: &Plan, commands: &[Placed]) -> bool
    requires { IsSoundPlan plan.now }
    ensures { result ≡ exceeds_occurrences plan.now (commands_of commands.now) }
{
    are_too_many(plan, feed_count(commands) as u64)
}

// Whether the commands run, or which test they fail first.
fn test(plan: &Plan, commands: &[Placed]) -> Result<(), ScriptRefused>
    requires { IsSoundPlan plan.now }
    ensures ok { OnOk result (DoRun plan.now (commands_of commands.now)) }
    ensures err { IfErr result (DoNotRun plan.now (commands_of commands.now)) }
{
    if exceeds_seals(plan, commands) {
        return Err(ScriptRefused::Seals);
    }
    if exceeds_occurrences(plan, commands) {
        return Err(ScriptRefused::Occurrences);
    }
    Ok(())
}

// The script of these bytes, where it runs.
fn script(alloc: Global, program: &Program, text: &[u8]) -> Result<Script, ScriptRefused>
    requires program { IsSound program.now }
    requires few { length text.now ≤ 67108864 }
    ensures do_run { IfOk result (λ script. DoRun program.now.plan (commands_of script.commands)) }
    ensures of_program { IfOk result (λ script. AreOfProgram program.now script.commands) }
    ensures ok { IfOk result (IsScriptOf program.now text.now) }
    ensures err { IfErr result (IsScriptRefused program.now text.now) }
{
    let script = commands(alloc, text, program, Shape::Merged)?;
    test(&program.plan, script.commands.as_slice())?;
    Ok(script)
}

/// The commands of a script that runs, which is read to its end.
pub fn read_script<I: Inputs>(
    alloc: Global,
    inputs: &mut I,
    name: &str,
    program: &Program,
) -> Result<Script, ScriptRefused>
    requires program { IsSound program.now }
    ensures do_run { IfOk result (λ script. DoRun program.now.plan (commands_of script.commands)) }
    ensures of_program { IfOk result (λ script. AreOfProgram program.now script.commands) }
    ensures ok { IfOk result (λ script. IfSome (I.bytes inputs.old name.now)
        (λ text. IsScriptOf program.now text script)) }
    ensures err { IfErr result (IsWhyNoScript (I.bytes inputs.old name.now)
        (I.faults inputs.old name.now) (I.faults inputs.new name.now) program.now) }
    ensures same { (other : List ℕ) → I.bytes inputs.new other ≡ I.bytes inputs.old other }
    ensures later { (other : List ℕ) → I.faults inputs.old other ≤ I.faults inputs.new other }
{
    let text = read_all(alloc, inputs, name, LONGEST_SCRIPT)?;
    script(alloc, program, &text)
}
