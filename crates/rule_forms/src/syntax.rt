// A description as a list of statements.
use crate::form::Form;
use rt_base::List;

/// A statement and the line of its first token, counted from 1.
#[derive(Debug, Drop)]
pub struct Statement {
    pub line: u32,
    pub form: Form,
}

/// The statements of a description, in the order of the text.
#[derive(Debug, Drop)]
pub struct Syntax {
    pub statements: List<Statement>,
}
