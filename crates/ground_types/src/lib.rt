//! A ground program, a history and the definitions of their meaning, which every contract above
//! cites. Its promise is in `specs/`: what is recognised in a window, point by point; what a
//! history of adds, revokes and seals stands for; and what is published at each seal. It has the
//! program as plain data, the two borders of a window, and the laws that say the definitions again
//! in literal terms. It stands on `rt_base`.
#![tactic(auto)]

mod entries;
mod laws;
mod named;
mod plan;
mod program;

pub use entries::{Act, Command, Entry, Occ, Query, Reply};
pub use laws::{
    inertia_law, meaning_is_unique, points_are_unique, points_law, recognition_is_meaning,
    row_by_points_law, row_law, rows_are_unique, samples_are_sound,
};
pub use named::{entity_word, is_input, name_of, value_count};
pub use plan::Plan;
pub use program::{
    Cond, Domain, Expr, Name, NameKind, Opening, Program, Rule, Trigger, Unit, UnitKind, What,
};
pub use rt_base::Point;

/// The number of a ground input event, in the order of their declarations.
pub type EventId = u32;

/// The number of a unit: a ground fluent with all its values, or a ground derived event.
pub type UnitId = u32;

/// The number of a value of a fluent, in the order of its declaration.
pub type Value = u32;
