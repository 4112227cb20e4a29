// Options, and the words between them, as `clap` reads them.
ghost use Rattle.std.specs.Prelude.{◌≡◌, IfOk, drop};
ghost use Rattle.clap.specs.Words.{app_of};
ghost use Rattle.command_words.specs.Words.{texts, given_by, AreTexts};
ghost use Rattle.command_words.specs.Matching.{grammar, AreMatches};

use clap::error::ErrorKind;
use clap::{Arg, ArgAction, ArgMatches, Command};
use rt_base::OutOfMemory;
use std::alloc::{AllocError, Global};

// The options of all commands, and any number of words between them.
fn grammar<'a>(alloc: Global) -> Result<Command<'a>, AllocError>
    ensures { IfOk result (λ command. app_of command ≡ grammar) }
{
    let places = Arg::new(alloc, "places").action(ArgAction::Append);
    let workers = Arg::new(alloc, "workers").long("workers");
    let feeders = Arg::new(alloc, "feeders").long("feeders");
    let full = Arg::new(alloc, "full")
        .long("full")
        .action(ArgAction::SetTrue);
    Command::new(alloc, "rtec")
        .disable_help_flag(true)
        .arg(places)?
        .arg(workers)?
        .arg(feeders)?
        .arg(full)
}

// What the words after the first come to; None where one of them is refused.
pub(crate) fn matches_of<'a>(
    alloc: Global,
    words: &'a [&'a str],
) -> Result<Option<ArgMatches<'a>>, OutOfMemory>
    requires { AreTexts (texts words.now) }
    ensures { IfOk result (AreMatches (given_by (drop 1 (texts words.now)))) }
{
    let command = grammar(alloc)?;
    match command.try_get_matches_from(words) {
        Ok(matches) => Ok(Some(matches)),
        Err(error) => match error.kind() {
            ErrorKind::OutOfMemory => Err(OutOfMemory),
            _ => Ok(None),
        },
    }
}
