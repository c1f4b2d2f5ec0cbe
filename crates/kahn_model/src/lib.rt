//! Streams of a network of tasks, by Kahn's rounds and by counts of ticks: the definitions and their laws. A slow run of
//! the definitions is the crate kahn_reference.
#![tactic(auto)]

pub mod kinds;
pub mod laws;
pub mod start;
pub mod tick;
