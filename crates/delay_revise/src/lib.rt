//! What is published at each seal of a history, window after window. Its promise: from the chunks
//! that it took, whatever came late or was withdrawn, `Reviser` publishes at each seal exactly what
//! the definitions say of the whole history, in whatever order the units of a layer are worked. It
//! stands on `event_store` and `layer_cache` for events and rows, on `point_rule` for points of
//! rules, on `simple_fluent`, `derived_event` and `static_fluent` for rows, on `layer_workers` for
//! crews and on `query_ask` for publications.
#![tactic(auto)]

mod apply;
mod gather;
mod laws;
mod openings;
mod publish;
mod revise;
mod reviser;
mod small;
mod told;
mod told_later;
mod totals;
mod unit;
mod work;
mod working;

pub use laws::touched_law;
pub use reviser::Reviser;
pub use told_later::published_stays;
pub use unit::Worked;

#[cfg(test)]
mod tests;
