//! A tape of gates that grows gate by gate: the operators on 64 bits, and a number for each slot from slots before it.
#![tactic(auto)]

mod gates;
pub mod operations;
mod tape;

pub use gates::{Gate, Operator, Pair, Rule, Wide};
pub use tape::Tape;
