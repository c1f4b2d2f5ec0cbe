//! The wires of an expression: those of its parts, and then those of its operator. Expressions of numbers alone are computed
//! before anything is made.
#![tactic(auto)]

mod fixed;
mod reads;
mod wires;

pub use reads::{ArrayRead, add_reads, read_count};
pub use wires::{Wired, add_wires, compile};
