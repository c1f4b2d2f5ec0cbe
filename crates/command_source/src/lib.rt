//! What a command reads: the program of a source, data for a program or a design, and why either is refused.
#![tactic(auto)]

mod files;
mod inputs;
mod program;

pub use files::{read_given, read_source};
pub use inputs::read_input;
pub use program::{SourceFault, read_program};
