//! Tests of the core over the programs of descriptions: that its calls succeed with ample memory,
//! and what is published where events are told while units are worked. It has tests alone, and
//! stands on the crates that make programs and on `system_core`.
#![tactic(auto)]

#[cfg(test)]
mod runs;
