//! The core as a machine. Its promise: for every list of steps, feeds, seals, claims of units and
//! what they give back, turns of layers, publications and reads in whatever order, the outcomes and
//! the state after them are those of the definition, which has no rows in it; and what is published
//! is what the definitions say of the history alone. It stands on `admit_core` for replies, on
//! `delay_revise` for revisions, on `publish_shelf` for publications and on `query_ask` for answers;
//! and it names the workload of a seed and a size, which is that of `workload_draw`.
#![tactic(auto)]

mod claims;
mod laws;
mod steps;
mod system;

pub use laws::readers_see_more;
pub use steps::{Outcome, Step, StepRefused};
pub use system::System;
pub use workload_draw::workload;
