//! What is published of a window, and what readers are answered. Its promise: whoever holds a
//! publication knows of it, from its type, that it is right for itself, that its rows are what its
//! own program, opening and events make true in its window; it is made of parts that are handed in,
//! and read, without a copy; and an answer is read off the last publication. It stands on
//! `ground_types` for the meaning and on `span_algebra` for rows.
#![tactic(auto)]

mod answers;
mod laws;
mod publication;
mod readers;

pub use answers::Answer;
pub use laws::answers_are_true;
pub use publication::Publication;
pub use readers::ask;

#[cfg(test)]
mod tests;
