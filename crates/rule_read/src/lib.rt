//! Event descriptions as text: the whole language is read, and printed in one canonical form. Its
//! promise: `read` gives exactly the statements that the text spells, each with its line, and
//! refuses exactly where the text is too long, a byte is not permitted or a statement has no form
//! (want of memory aside); `print` gives the one canonical text, which reads as the same forms
//! where it is at most 1,048,576 bytes long. A text has one reading. It stands on
//! `rule_forms`, whose names it gives again, and on `rt_base`.
#![tactic(auto)]

mod keyword;
mod laws;
mod lexer;
mod line;
mod printer;
mod printing;
mod reader;
mod refused;
mod statement;
mod stop;
mod text;
mod token;
mod tree;
mod tree_printer;

pub use laws::{meaning_is_read, one_form, one_reading, reading_means};
pub use printing::{print, put_form};
pub use refused::ReadRefused;
pub use rule_forms::{
    Atom, Body, Decl, EventText, Form, Fv, Statement, Syntax, Term, Tree, atom_of, conditions_of,
};
pub use text::read;

#[cfg(test)]
mod tests;
