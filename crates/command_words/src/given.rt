// What is given by options, and by the words between them.
ghost use Rattle.std.specs.Prelude.{◌≡◌};
ghost use Rattle.command_words.specs.Words.{Given as Told};
ghost use Rattle.command_words.specs.Matching.{Holds, plain_given};

use clap::ArgMatches;

// What is given: words in their places, and the value of each option.
#[derive(Clone, Copy)]
pub(crate) struct Given<'m, 'a> {
    pub(crate) places: Option<&'m [&'a str]>,
    pub(crate) workers: Option<&'a str>,
    pub(crate) feeders: Option<&'a str>,
    pub(crate) is_full: bool,
}

// What the matches have.
pub(crate) fn given_of<'m, 'a>(matches: &'m ArgMatches<'a>) -> Given<'m, 'a>
    ensures { (told : Told) → Holds matches.now told → plain_given result ≡ told }
{
    Given {
        places: matches.get_strs("places"),
        workers: matches.get_str("workers"),
        feeders: matches.get_str("feeders"),
        is_full: matches.get_flag("full"),
    }
}
