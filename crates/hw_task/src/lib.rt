//! The generator of task modules: the state machine of a leaf task as a Verilog module.
#![tactic(auto)]

mod module;
mod ports;
mod reads;

pub use module::module_of;
