//! The words of commands. Its promise: words that have a form are read as it says, and other words
//! are of no command. It stands on `clap`, which reads the options of a command and what stands
//! between them.
#![tactic(auto)]

mod given;
mod matching;
mod numbers;
mod reading;
mod task;

pub use reading::{task_of, texts_of};
pub use task::Task;

#[cfg(test)]
mod tests;
