//! The meaning of a program, computed as it is defined: the trace of an instance, and Kahn's rounds. Slow; later bodies are
//! compared with it.
#![tactic(auto)]

mod cells;
mod first;
pub mod rounds;
mod simple_statements;
pub mod slow;
mod ticks;
