//! The module of a task by its lines: its nets, what each state does to them, and what a run of it is to do.
#![tactic(auto)]

mod laws;
mod nets;

pub use laws::{law_nets, law_states};
pub use nets::{Choice, Net};
