//! Where publications are kept for readers. Its promise: a board has exactly the publications that
//! were put on it, in order, the one of query `j` at place `j`, all of one program, and each is
//! right for itself by its type; a refused `put` changes nothing. It stands on `query_ask` for
//! publications.
#![tactic(auto)]

mod board;
mod plain;

pub use board::Board;
pub use plain::PlainBoard;
