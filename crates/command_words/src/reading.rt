// What the words of a command ask for.
ghost use Rattle.std.specs.Prelude.{◌≡◌, ◌≤◌, ◌∷◌, [], IfOk, option_map};
ghost use Rattle.std.specs.List.{list_all};
ghost use Rattle.command_words.specs.Words.{texts, AreTexts, asked, is_file, grounding, live};
ghost use Rattle.command_words.specs.Words.{live_files};
ghost use Rattle.command_words.specs.Words.{plain_task, recognise, recognise_files, simulate};
ghost use Rattle.command_words.specs.Words.{simulate_places, task_of};
ghost use Rattle.std.specs.Str.{IsUtf8};
ghost use Rattle.command_words.specs.Matching.{plain_given, are_lent_live};

use crate::given::{Given, given_of};
use crate::matching::matches_of;
use crate::numbers::{feeders_of, seed_of, size_of, workers_of};
use crate::task::Task;
use rt_base::{List, OutOfMemory, Word};
use std::alloc::Global;

// A file name is not empty.
fn is_file(word: &str) -> bool
    ensures { result ≡ is_file word.now }
{
    !word.is_empty()
}

// `DESC SCRIPT`.
fn recognise<'a>(given: Given<'_, 'a>) -> Option<Task<'a>>
    ensures { option_map plain_task result ≡ recognise (plain_given given.entry) }
{
    if given.feeders.is_some() || given.is_full {
        return None;
    }
    let workers = workers_of(given.workers)?;
    match given.places {
        Some([description, script]) if is_file(description) && is_file(script) => {
            Some(Task::Recognise {
                description,
                script,
                workers,
            })
        }
        _ => None,
    }
}

// `DESC`.
fn ground<'a>(given: Given<'_, 'a>) -> Option<Task<'a>>
    ensures { option_map plain_task result ≡ grounding (plain_given given.entry) }
{
    if given.workers.is_some() || given.feeders.is_some() || given.is_full {
        return None;
    }
    match given.places {
        Some([description]) if is_file(description) => Some(Task::Ground { description }),
        _ => None,
    }
}

// The seed and the size of a simulation of a description, with its options.
fn simulate_places<'a>(
    description: &'a str,
    seed: &str,
    size: &str,
    workers: u8,
    is_full: bool,
) -> Option<Task<'a>>
    ensures { option_map plain_task result ≡ simulate_places (description.entry.now ∷ seed.now
        ∷ size.now ∷ []) workers is_full }
{
    if !is_file(description) {
        return None;
    }
    let seed = seed_of(seed)?;
    let size = size_of(size)?;
    Some(Task::Simulate {
        description,
        seed,
        size,
        workers,
        is_full,
    })
}

// `DESC SEED SIZE`.
fn simulate<'a>(given: Given<'_, 'a>) -> Option<Task<'a>>
    ensures { option_map plain_task result ≡ simulate (plain_given given.entry) }
{
    if given.feeders.is_some() {
        return None;
    }
    let workers = workers_of(given.workers)?;
    match given.places {
        Some([description, seed, size]) => {
            simulate_places(description, seed, size, workers, given.is_full)
        }
        _ => None,
    }
}

// A copy of the references to some words.
fn copy<'a>(alloc: Global, words: &[&'a str]) -> Result<List<&'a str>, OutOfMemory>
    ensures { IfOk result (λ list. texts list ≡ texts words.now) }
{
    Ok(List::of(Vec::from_slice(alloc, words)?))
}

// Whether each word is a file name.
fn are_files(words: &[&str]) -> bool
    ensures { result ≡ list_all (λ word. is_file word.now) words.now }
{
    words.iter().all(|word| is_file(word))
}

// Whether these are the files of `live` for so many feeders.
fn are_live(description: &str, clock: &str, scripts: &[&str], feeders: usize) -> bool
    requires { feeders ≤ 8 }
    ensures { result ≡ are_lent_live description.now clock.now scripts.now feeders }
{
    is_file(description)
        && is_file(clock)
        && are_files(scripts)
        && feeders <= scripts.len()
        && scripts.len() <= feeders + 8
}

// The files of `live`, for so many feeders and workers.
fn live_files<'a>(
    alloc: Global,
    description: &'a str,
    clock: &'a str,
    scripts: &[&'a str],
    feeders: usize,
    workers: u8,
) -> Result<Option<Task<'a>>, OutOfMemory>
    requires { feeders ≤ 8 }
    ensures { IfOk result (λ task. option_map plain_task task ≡ live_files (description.entry.now
        ∷ clock.entry.now ∷ texts scripts.now) feeders workers) }
{
    if !are_live(description, clock, scripts, feeders) {
        return Ok(None);
    }
    Ok(Some(Task::Live {
        description,
        clock,
        feeders: copy(alloc, &scripts[..feeders])?,
        readers: copy(alloc, &scripts[feeders..])?,
        workers,
    }))
}

// `DESC CLOCK`, then the scripts of the feeders, then those of the readers.
fn live<'a>(alloc: Global, given: Given<'_, 'a>) -> Result<Option<Task<'a>>, OutOfMemory>
    ensures { IfOk result (λ task. option_map plain_task task ≡ live (plain_given given.entry)) }
{
    if given.is_full {
        return Ok(None);
    }
    let (Some(feeders), Some(workers)) = (feeders_of(given.feeders), workers_of(given.workers))
    else {
        return Ok(None);
    };
    match given.places {
        Some([description, clock, scripts @ ..]) => {
            live_files(alloc, description, clock, scripts, feeders, workers)
        }
        _ => Ok(None),
    }
}

// What is given, asked for by a command word.
fn asked<'a>(
    alloc: Global,
    command: &str,
    given: Given<'_, 'a>,
) -> Result<Option<Task<'a>>, OutOfMemory>
    ensures { IfOk result (λ task. option_map plain_task task
        ≡ asked command.now (plain_given given.entry)) }
{
    match command {
        "recognise" => Ok(recognise(given)),
        "ground" => Ok(ground(given)),
        "simulate" => Ok(simulate(given)),
        "live" => live(alloc, given),
        _ => Ok(None),
    }
}

/// The task of the words, or None exactly where they are of no form; the one error is want of
/// memory. The first is the command word: `recognise DESC SCRIPT [--workers N]`, `ground DESC`,
/// `simulate DESC SEED SIZE [--workers N] [--full]`, or `live DESC CLOCK`, then the scripts of the
/// feeders and of at most eight readers, with `--feeders N` (required) and `[--workers N]`. Options
/// may stand at any place after it and before a word `--`, each once, with the value in the next
/// word or after a `=`. Files are not empty; there are 1 to 16 workers (one or two digits, 1 where
/// none are given) and 1 to 8 feeders (one digit), a seed has 1 to 20 digits and fits 64 bits, and
/// a size is 1 to 2,097,152, of at most seven digits. Our own.
pub fn task_of<'a>(alloc: Global, words: &'a [&'a str]) -> Result<Option<Task<'a>>, OutOfMemory>
    requires { AreTexts (texts words.now) }
    ensures { IfOk result (λ task. option_map plain_task task ≡ task_of (texts words.now)) }
{
    let Some(command) = words.first() else {
        return Ok(None);
    };
    match matches_of(alloc, words)? {
        Some(matches) => asked(alloc, command, given_of(&matches)),
        None => Ok(None),
    }
}

// A word, of which it is known that it is text.
fn text_of(word: &Word) -> &str
    ensures is { result.now ≡ word.now }
    ensures text { IsUtf8 result.now }
{
    let text = word.as_str();
    let _bytes = text.as_bytes();
    text
}

/// The words as texts, which they lend. The one error is want of memory.
pub fn texts_of(alloc: Global, words: &[Word]) -> Result<Vec<&str>, OutOfMemory>
    ensures is { IfOk result (λ lent. texts lent.items ≡ words.now) }
    ensures texts { IfOk result (λ lent. AreTexts (texts lent.items)) }
{
    let mut lent = Vec::new(alloc);
    for word in words {
        lent.push(text_of(word))?;
    }
    Ok(lent)
}
