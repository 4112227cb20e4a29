//! How a run of the program ends: its status, why a description or a script is refused, the number
//! with which the process ends and the line that says it on the standard error. Its promise: each
//! status has its own number. It stands on `rt_base` for the limits, and on
//! `thiserror`.
#![tactic(auto)]

mod status;

pub use status::{DescFault, ScriptFault, Status};
