//! What a design of the Verilog subset does in a cycle, computed as it is defined: the number of any net from what the
//! registers and memories hold and from the environment, and what they hold in the next cycle.
#![tactic(auto)]

mod blocks;
mod following;
mod inputs;
mod lines;
mod numbers;
mod places;
mod sources;
mod streams;

pub use following::next;
pub use numbers::net_number;
pub use places::module_named;
pub use streams::{carries, is_done};
