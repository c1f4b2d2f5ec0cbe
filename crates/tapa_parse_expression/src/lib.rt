//! The parser of types and expressions, and the parts of which every rule of the grammar is made.
#![tactic(auto)]

mod expression;
mod fault;
mod parser;
mod terminal;
mod types;

pub use fault::{Fault, ParseCode};
pub use parser::Parser;
pub use terminal::{is_name, one_kind, terminal_of, text_of};
