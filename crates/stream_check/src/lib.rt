//! The rules of a whole source, and the flat program that a legal one means.
#![tactic(auto)]

mod bindings;
mod body;
mod instance;
mod item;
mod label;
mod laws;
mod parts;
mod program;
mod top;

pub use check_scope::{Broken, CheckCode, CheckFault};
pub use laws::law_legal_programs_are_well_formed;
pub use program::check;
