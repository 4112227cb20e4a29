//! Where the bodies of rules are true. Its promise: the truth of a body at a point is that of the
//! definitions, over the rows of a cache and the events of a store; a rule's points are those of
//! the window at which its body is true; its touched points are those of its trigger past a border,
//! or where the trigger or a condition had another truth before; each evaluation is one step. It
//! stands on `layer_cache` and `event_store` for what is and was known, and on `derived_event` for
//! starts and ends.
#![tactic(auto)]

mod eval;
mod revise;
mod side;
mod touch;

pub use eval::eval_at;
pub use revise::revise_rule;
pub use touch::{touched, triggered};

#[cfg(test)]
mod tests;
