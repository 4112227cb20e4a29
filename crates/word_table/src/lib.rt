//! Tables of words: different words in the order in which they were put in, found by hash. Its
//! promise: a word is found exactly at its place, and a table that is made of what has words has
//! theirs, each once. No word is copied. It stands on `ground_types`, `rt_base` and the kit's
//! `indexmap`.
#![tactic(auto)]

mod letters;
mod table;
mod worded;

pub use table::{WordTable, are_distinct};
pub use worded::Worded;
