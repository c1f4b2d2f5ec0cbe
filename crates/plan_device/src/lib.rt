//! A device file: how it is read, the rules that it keeps or breaks, and the device that it gives: slots with their capacities and
//! borders, and what the tasks of a graph are to keep on it.
#![tactic(auto)]

mod amounts;
mod check;
mod contents;
mod device;
mod fault;
mod find;
mod grid;
mod json;
mod key;
mod laws;
mod misshapen;
mod names;
mod passes;
mod pins;
mod read;

pub use device::Device;
pub use fault::DeviceFault;
pub use read::read_device;
