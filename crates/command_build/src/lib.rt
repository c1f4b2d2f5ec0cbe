//! The command `build` without a device: the text of the circuit of a source's program.
#![tactic(auto)]

mod circuit;

pub use circuit::{build_source, circuit_of, put_circuit};
