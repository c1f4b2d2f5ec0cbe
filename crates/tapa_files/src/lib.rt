//! Files and sinks: traits for files that are read by name and for bytes that are written in order, with their small
//! implementations in memory and on the system, and the faults that calls hand on.
#![tactic(auto)]

mod fault;
mod memory;
mod put;
mod shelf;
mod sink;
mod still;
mod system;
mod take;

pub use fault::{PrintFault, ShelfFault, TakeFault, WriteFailed, WriteFault};
pub use memory::{MemShelf, MemSink};
pub use put::put_all;
pub use shelf::Shelf;
pub use sink::Sink;
pub use still::{StillShelf, StillSink};
pub use system::{DirShelf, StdSink};
pub use take::take_file;
