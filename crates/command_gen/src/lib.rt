//! The command `gen`: the text of a generated network of any size; a run of its program, a simulation of its circuit, and the summary of their
//! numbers.
#![tactic(auto)]

mod layers;
mod lines;
mod network;
mod nothing;
mod program;
mod summary;

pub use layers::generate;
pub use network::put_network;
