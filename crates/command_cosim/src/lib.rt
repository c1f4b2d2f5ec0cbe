//! The command `cosim`: the simulation of a Verilog text on its data.
#![tactic(auto)]

mod cosim;

pub use cosim::cosim_text;
