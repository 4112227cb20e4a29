//! What printed texts are made of: pieces of a line, words and numbers, and the atoms of ground
//! events and units. Its promise: each call that succeeds adds exactly the text of its
//! definition to the end of another; where memory runs out it may leave a part of it. It stands on `ground_types` for names and
//! domains, and on `itoa` for decimal digits.
#![tactic(auto)]

mod atoms;
mod pieces;

pub use atoms::{put_atom, put_unit_atom};
pub use pieces::{Piece, put_all, put_text};
