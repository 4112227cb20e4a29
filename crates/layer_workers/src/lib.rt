//! Numbered work, as that on the units of a layer: a `Piece` works one number, and a `Crew` has all
//! numbers below a count worked. Its promise: whatever the crew, the answer has an answer for each
//! number, in order, and as many steps are counted as these numbers cost. It stands on the counter
//! of steps of `rt_base`.
#![tactic(auto)]

mod crew;
mod piece;

pub use crew::{Crew, OneByOne, Way};
pub use piece::Piece;

#[cfg(test)]
mod tests;
