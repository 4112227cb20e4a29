//! What a checked description declares, and what is known of it: its plan, domains, names and rules
//! as data, names and entities found by their words, the atoms of a statement and the places of its
//! variables, and the layers of names. Its promise: look-ups and walks over statements give exactly
//! what the definitions say. The definitions of which statements break which rule, and of layers,
//! stand here too, since what stands above speaks by them. It stands on `rule_forms`, `word_table`,
//! `ground_types` and `rt_base`.
#![tactic(auto)]

mod checked;
mod known;
mod layers;
mod mentions;
mod variables;

pub use checked::{Checked, DeclRefused};
pub use known::Known;
pub use layers::LayerList;
pub use mentions::{Mention, Role, gather};
pub use variables::{Place, gather_places, places};
