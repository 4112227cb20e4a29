//! Scripts: the records of CSV texts as commands for a program. Its promise: `commands` gives
//! exactly the commands of the records and the count of the ignored ones, and refuses exactly where
//! a record has no form or there are too many (want of memory aside). Records are what the crate
//! `csv` says. It stands on `csv`, `word_table` and `ground_names`, and on what these stand on.
#![tactic(auto)]

mod fields;
mod names;
mod reading;
mod records;
mod rows;
mod script;
mod verbs;

pub use reading::commands;
pub use script::{Placed, Script, Shape, StreamRefused};
