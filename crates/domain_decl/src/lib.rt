//! Which descriptions mean something: the plan, the declarations and the rules are checked. Its
//! promise: `check` refuses exactly where one of the rules on plan, declarations and rules does,
//! with the first that fails and its line, and otherwise gives what the text declares; want of
//! memory aside. What is declared, and known by its words, is in `decl_known`, on which it stands,
//! and on what that stands on.
#![tactic(auto)]

mod checking;
mod contents;
mod declarations;
mod plans;
mod rules;
mod variables;

pub use checking::check;
pub use decl_known::{Checked, DeclRefused, Known, Place, places};
pub use rule_forms::{atom_of, conditions_of};
