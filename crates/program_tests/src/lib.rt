//! Tests over the texts of descriptions: programs without variables, limits, words of events and
//! fluents, and scripts. It has tests alone, so that the crates under test don't wait for one
//! another. It stands on all crates that make programs and scripts, up to `ground_rules` and
//! `stream_read`.
#![tactic(auto)]

#[cfg(test)]
mod descriptions;
#[cfg(test)]
mod programs;
#[cfg(test)]
mod scripts;
#[cfg(test)]
mod shown;
#[cfg(test)]
mod words;
