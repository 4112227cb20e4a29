//! Ground texts: a description, and what defines each of its units once its variables are gone. Its
//! promise: `ground_text` gives exactly the text of its definition, unless memory runs out. It
//! stands on `rule_read` for canonical text, on `ground_rules` for instances, and on `text_pieces`
//! for atoms.
#![tactic(auto)]

mod printing;

pub use printing::ground_text;
