//! The drivers and clocked blocks of a module as gates on a tape: operators on pairs of slots, the numbers that registers take over,
//! and the stores into memories.
#![tactic(auto)]

mod atoms;
mod binary;
mod blocks;
mod cells;
mod copies;
mod drivers;
mod joining;
mod joins;
mod nets;
mod operators;
mod parts;
mod writes;

pub use blocks::blocks_of;
pub use drivers::pair_of_driver;
pub use nets::Nets;
pub use writes::{Store, Writes};
