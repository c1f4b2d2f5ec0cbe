//! The tree of a source's lexemes: actions, declarations, statements and tasks, over the parser of expressions.
#![tactic(auto)]

mod action;
mod declaration;
mod fault;
mod laws;
mod source;
mod statement;
mod task;
mod terminal;

pub use fault::ParseFault;
pub use laws::{law_file_or_refused, law_one_place, one_tree};
pub use source::parse;
pub use tapa_parse_expression::ParseCode;
