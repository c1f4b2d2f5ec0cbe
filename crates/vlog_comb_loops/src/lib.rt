//! Which wires of a design lie on loops, module by module and through instances, and which modules contain themselves.
#![tactic(auto)]

mod order;
mod pairs;
mod questions;
mod search;
mod sums;
mod suspects;
mod through;

pub use search::first_on_loop;
