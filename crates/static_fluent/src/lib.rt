//! The rows of statically determined fluents. Its promise: the spans of an expression have exactly
//! the points at which the expression is true, over the rows that a cache has now. It stands on
//! `span_algebra` for the interval constructs, on `ground_types` for expressions and what they
//! mean, and on `layer_cache` for the rows of the layers below.
#![tactic(auto)]

mod rows;

pub use rows::spans_of_expr;

#[cfg(test)]
mod tests;
