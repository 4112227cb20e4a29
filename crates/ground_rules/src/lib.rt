//! Grounding: a checked description becomes a program without variables. Its promise: `ground`
//! gives exactly the program of the definitions, which is sound, and refuses exactly where a limit
//! is exceeded (want of memory aside); `Instances` gives the statements without variables that
//! define each unit. What words name in a program is found by `ground_names`, on which it stands,
//! as on `decl_known` and what that stands on.
#![tactic(auto)]

mod buckets;
mod clause;
mod grounding;
mod instance;
mod instances;
mod laws;
mod layers;
mod limits;
mod listing;
mod numbering;
mod refused;
mod stated;
mod units;
mod variables;

pub use ground_names::{EventNames, Finder, value_of};
pub use grounding::ground;
pub use instances::Instances;
pub use laws::grounded_is_sound;
pub use refused::GroundRefused;
