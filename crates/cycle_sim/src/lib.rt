//! The simulator of designs: it is in one cycle of a design's run, shows streams, memories and nets, and goes to the next.
#![tactic(auto)]

mod around;
mod begin;
mod cells;
mod first;
mod inputs;
mod laws;
mod named;
mod parts;
mod registers;
mod shown;
mod sim;
mod simulator;
mod slots;
mod supplies;

pub use laws::law_told_is_one;
pub use shown::is_shown;
pub use sim::{Carried, run_cycles};
pub use simulator::Sim;
pub use vlog_design::Env;
