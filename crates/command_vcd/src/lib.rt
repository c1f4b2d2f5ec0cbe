//! The command `vcd`: what the dump of a file shows of one net.
#![tactic(auto)]

mod vcd;

pub use vcd::show_net;
