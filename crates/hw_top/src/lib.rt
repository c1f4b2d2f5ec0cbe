//! The circuit of a program: the top module with its nets, connections and instances, the modules of its channels and tasks, and the
//! design of them all, which carries the program's Kahn streams.
#![tactic(auto)]

mod bounds;
mod channels;
mod ends;
mod instances;
mod machines;
mod modules;
mod names;
mod ports;
mod top;
mod whole;
mod wires;

pub use machines::machines_of;
pub use whole::design;
