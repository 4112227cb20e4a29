//! What was told and what was answered: each add and revoke gets its reply by what stood before it,
//! each seal its number. Its promise: by its type a history is legal, with at most as many entries
//! as it may have; a refused call changes nothing; and after `new` no call takes memory. An entry
//! takes 24 bytes, and 8 in the index by which the last entry of an event and point is found. It
//! stands on `ground_types` and `rt_base`.
#![tactic(auto)]

mod front;
mod index;
mod replies;
mod state;

pub use front::Front;
pub use state::{AdmitState, LogFull, SealRefused};

#[cfg(test)]
mod tests;
