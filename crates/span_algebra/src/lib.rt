//! Lists of spans and of points of time, which the rows of fluents and events are made of. Its
//! promise: every list is in normal form (spans that rise, none empty and no two touching; points
//! that rise), so that it is fixed by the points that it has, and a look-up answers exactly whether
//! a point is among them. The interval constructs give exactly the points that their names say.
//! Those that make spans go by one walk over the borders of all lists, each at a cost of the
//! logarithm of their number. It stands on `rt_base` alone.
#![tactic(auto)]

mod constructs;
mod cursor;
mod cut;
mod laws;
mod points;
mod refused;
mod rows;
mod spans;
mod symmetric;
mod walk;

pub use constructs::{
    clip, complement_of, differ, intersect_all, intersection_of, relative_complement_all,
    union_all, union_of,
};
pub use cut::cut_points;
pub use laws::{normal_is_unique, rising_is_unique};
pub use points::Points;
pub use refused::ListRefused;
pub use rows::UnitRows;
pub use rt_base::Point;
pub use spans::{Span, Spans};
pub use symmetric::symmetric_difference;

#[cfg(test)]
mod tests;
