//! The rows of a simple fluent over a window, from its opening value and the points at which each
//! of its values is initiated and terminated. Its promise: the spans of a value are exactly the
//! maximal runs of the points at which it holds by the law of inertia. It merges the initiations of
//! all values and goes over them in one sweep, without walking points of time. It stands on
//! `span_algebra` for lists of points and spans, and on `ground_types` for what a row means.
#![tactic(auto)]

mod firsts;
mod sweep;
#[cfg(test)]
mod tests;

pub use sweep::spans_of;
