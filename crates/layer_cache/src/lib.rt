//! The rows of a program's units, while they are computed layer by layer. Its promise: a cache
//! begins with the empty rows of all units, gives the rows of a unit as they were put last, and
//! putting those of one unit changes no other; only rows of the unit's kind, one for each of its
//! values, are put; a turn keeps the rows as those before, and tells from them the value with which
//! a window opens, which is one of the unit's. It stands on `span_algebra` for rows and on
//! `ground_types` for programs.
#![tactic(auto)]

mod cache;

pub use cache::{Cache, value_row};

#[cfg(test)]
mod tests;
