//! The choices and the outputs of a task's module: what its states give its registers, arrays, streams and memories.
#![tactic(auto)]

mod blocks;
mod outputs;
mod parts;

pub use blocks::add_blocks;
pub use outputs::{add_choices, add_outputs};
