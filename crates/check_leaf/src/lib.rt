//! The rules of leaf tasks, and what a legal one is in the flat program.
#![tactic(auto)]

mod action;
mod call;
mod declaration;
mod frame;
mod laws;
mod leaf;
mod statement;
mod target;

pub use laws::law_legal_leaves_are_well_formed;
pub use leaf::check_leaf;
