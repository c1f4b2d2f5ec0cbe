//! The lexer: the lexemes of a source, or the first place that it is refused at.
#![tactic(auto)]

mod class;
mod cursor;
mod cut;
mod fault;
mod laws;
mod lexer;
mod literal;

pub use fault::{LexCode, LexFault};
pub use laws::{
    lexemes_are_in_order, lexemes_are_slices, lexemes_or_refusal, one_list_of_lexemes, one_refusal,
};
pub use lexer::lex;
