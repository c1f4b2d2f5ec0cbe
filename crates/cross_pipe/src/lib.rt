//! The modules of channels for streams that cross slots: their names, a FIFO, and before it a relay of registers, one a cycle of
//! added latency.
#![tactic(auto)]

mod ends;
mod module;
mod modules;
mod names;
mod relay;

pub use modules::{channel, fifo_size};
