//! Tests of layers below the command: real files taken whole or refused, and networks that are taken apart; and what tests of several crates share.
#![tactic(auto)]

#[cfg(test)]
mod cases;
#[cfg(test)]
mod files;
mod gates;
mod programs;

pub use gates::{APART, Awaiting, Closed, SHIFTS};
pub use programs::short;
