//! The reader of the Verilog subset: word by word to the one tree of a text, and the design that it spells, or why it spells none, with
//! the exact position.
#![tactic(auto)]

mod block;
mod design;
mod held;
mod item;
mod laws;
mod port;
mod reading;
mod state;
mod value;

pub use laws::{law_one_fault, law_printed, law_v1_at_one_place};
pub use reading::read;
