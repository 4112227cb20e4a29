//! The text of reports: the line of an entry, the block of a publication, the answer to a question,
//! and the last three lines. Its promise: each call that succeeds adds exactly its part of the
//! *report text*, and one that memory does not suffice for leaves the text as it was; the parts of
//! a list of commands, in order, are the whole. It stands on `text_pieces` for atoms, on
//! `ground_names` for the words of events, and on `query_ask` for publications and answers.
#![tactic(auto)]

mod answers;
mod blocks;
mod ends;
mod entries;
mod laws;
mod rows;
mod whole;

pub use answers::put_answer;
pub use blocks::put_block;
pub use ends::put_end;
pub use entries::{EntryLine, put_entry};
pub use laws::{answer_law, block_law, commands_law, end_law, made_history_is_legal};

#[cfg(test)]
mod tests;
