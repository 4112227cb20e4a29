//! Workloads by which a description is tried at size: adds, revokes and seals that a seed and a
//! size determine. Its promise: `workload` gives exactly the commands that the definition draws,
//! with feeders of 1 to 8, events of the program and no more seals than queries; the one error is
//! want of memory. It stands on `ground_types`.
#![tactic(auto)]

mod draws;
mod feeds;
mod rounds;

pub use rounds::workload;

#[cfg(test)]
mod tests;
