//! The numbers of ground events and units, and the words that name them. Its promise: `Finder` and
//! `value_of` find exactly what words name in a program, `EventNames` gives the name and the
//! arguments of each ground input event, and the lists of numbers below given sizes are counted,
//! made and ranked in order. It takes no memory but for the lists that it is asked for. It stands
//! on `rt_base` and `ground_types`, and for definitions and lemmas alone on `decl_known` and what
//! that stands on.
#![tactic(auto)]

mod events;
mod finder;
mod lists;

pub use events::EventNames;
pub use finder::{Finder, place_in, value_of};
pub use lists::{count_arguments, count_lists, entity_count, list_at, next_place, sizes_of};
