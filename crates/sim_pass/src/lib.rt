//! A tape of gates that is ready to run: an order of its slots in which each comes after those that its gate reads, a pass that gives
//! every slot its number, run by run of gates of one rule, and a pass over those gates alone that read what has changed.
#![tactic(auto)]

mod blocks;
mod changes;
mod follow;
mod given;
mod marks;
mod order;
mod passes;
mod phases;
mod program;
mod readers;
mod rows;
mod runs;
mod solving;
mod wide;

pub use program::{Marks, Schedule};
