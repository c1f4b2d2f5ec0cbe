//! The value of one driver of the Verilog subset, computed as it is defined; what the names of a module denote, and the state of a
//! design in a cycle.
#![tactic(auto)]

mod moment;
mod numbers;
mod operators;
mod scope;
mod values;

pub use moment::{Circuit, Held, Moment, OutsideMemory};
pub use numbers::{MemoryCells, NetNumber, find_memory, find_net, number_in};
pub use operators::apply;
pub use scope::{Scope, is_input, is_read};
pub use values::{value_of, value_of_atom};
