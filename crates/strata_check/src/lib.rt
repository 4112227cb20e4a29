//! The layers of names: in which order fluents and derived events are computed, or why there is
//! none. Its promise: `layers` refuses exactly where some declared name depends on itself, and
//! names the first; otherwise each name has the layer of the definition. It stands on
//! `decl_known`, and on what that stands on.
#![tactic(auto)]

mod laws;
mod layering;
mod ranks;
mod reach;
mod row;
mod rows;
mod ties;
mod walk;

pub use decl_known::LayerList;
pub use laws::one_layering;
pub use layering::{StrataRefused, layers};

#[cfg(test)]
mod tests;
