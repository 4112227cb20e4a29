//! What every crate stands on: where bytes come from and go to, words, lists, the gate and the
//! counter of steps. Its promise: a fault of reading or writing is answered only where the count of
//! faults of the object that was handed in rose, and told bytes are those that were read and
//! written. It stands on no other crate.
#![tactic(auto)]

mod edges;
mod gate;
mod kinds;
mod limit;
mod list;
mod memory;
mod outside;
mod steps;
mod words;

pub use edges::{FileInputs, StdSink};
pub use gate::{Gate, NoGate, Place};
pub use kinds::{is_name, is_reserved};
pub use limit::Limit;
pub use list::List;
pub use memory::{MemoryInputs, MemorySink};
pub use outside::{Failed, Inputs, Sink};
pub use steps::Steps;
pub use words::{OutOfMemory, Raw, Word, word_of};

/// A whole-number point of time.
pub type Point = u64;

#[cfg(test)]
mod tests;
