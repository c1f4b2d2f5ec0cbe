//! Tables of the names of modules: which a module declares, where each is declared first, what it denotes, and the modules by
//! their names.
#![tactic(auto)]

mod chains;
mod library;
mod name_table;
mod ordered;
mod places;
mod scope;

pub use library::Library;
pub use name_table::{
    NameBits, NameCounts, NameTable, add_before, bits_of_name, count_of, count_one, find_name,
    set_bits,
};
pub use scope::{Scope, copy_text};
