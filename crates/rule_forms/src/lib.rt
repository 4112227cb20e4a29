//! Event descriptions as data: statements and their parts, and copies of them. Its promise: a copy
//! says the same on the same line. What statements say as plain data, and which of them are sound,
//! is stated here once, for those that read them, check them and make programs of them. It stands
//! on `rt_base` alone.
#![tactic(auto)]

mod copy;
mod form;
mod syntax;

pub use form::{Atom, Body, Decl, EventText, Form, Fv, Term, Tree, atom_of, conditions_of};
pub use syntax::{Statement, Syntax};
