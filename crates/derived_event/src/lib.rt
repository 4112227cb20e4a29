//! Events that are derived: the points at which a row starts or ends to hold, and those of a
//! derived event's rules. Its promise: each list rises and has exactly the points of the
//! definitions. Starts and ends are the borders of a row's spans, and no point of time between them
//! is walked. It stands on `span_algebra` for lists of points and spans, and on `ground_types` for
//! what the points of a window are.
#![tactic(auto)]

mod happening;

pub use happening::{derived_points, ends, starts};

#[cfg(test)]
mod tests;
