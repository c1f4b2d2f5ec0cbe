//! The state machine of a leaf task: one state for each place at which it makes ticks.
#![tactic(auto)]

mod draft;
mod leaf;
mod machine;
mod operations;
mod residual;
mod simple;
mod size;
mod statements;

pub use leaf::lower;
pub use machine::{Expr, Fsm, State};
