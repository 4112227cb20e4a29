// What the words of a command ask for.
use rt_base::List;

/// What the words of a command ask for, with the names of its files.
#[derive(Debug, Drop)]
pub enum Task<'a> {
    /// The report of a script under an event description.
    Recognise {
        description: &'a str,
        script: &'a str,
        /// How many workers there are, 1 to 16.
        workers: u8,
    },
    /// The ground text of an event description.
    Ground {
        description: &'a str,
    },
    /// The report of a workload under an event description, or its end alone.
    Simulate {
        description: &'a str,
        /// Where the generator begins.
        seed: u64,
        /// How many adds and revokes are asked for, 1 to 2,097,152.
        size: u32,
        /// How many workers there are, 1 to 16.
        workers: u8,
        /// Whether the report is wanted whole.
        is_full: bool,
    },
    /// The scripts of a clock, of feeders and of readers under an event description, concurrently.
    Live {
        description: &'a str,
        clock: &'a str,
        /// The scripts of the feeders, 1 to 8.
        feeders: List<&'a str>,
        /// The scripts of the readers, at most 8.
        readers: List<&'a str>,
        /// How many workers there are, 1 to 16.
        workers: u8,
    },
}
