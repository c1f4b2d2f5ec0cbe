//! The words of a text of the Verilog subset (IEEE 1364-2005, clause 3): its lexical grammar, each word as a slice of the text, up to the
//! first byte that begins none, and the lists that words are read into.
#![tactic(auto)]

mod class;
mod coming;
mod cut;
mod laws;
mod lexer;
mod listed;
mod names;
mod number;

pub use coming::Coming;
pub use laws::{
    law_any_base, law_design_is_its_text, law_flat_block, law_gap_in_front, law_one_bit_range,
    law_one_list_of_words, law_one_tree, law_spelling_has_tree, law_tree_has_form,
};
pub use lexer::{Lexeme, Words, place_at, scan};
pub use listed::{Listed, Parts};
pub use names::is_name_word;
pub use number::{cells_behind, is_number, literal_of, name_of, width_at, width_behind};
