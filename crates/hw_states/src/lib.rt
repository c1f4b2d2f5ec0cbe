//! The states of a task's machine as wires: the decode, the index and the value of each state, what its tick waits for and where
//! it leads, and what each of them gives a choice.
#![tactic(auto)]

mod effects;
mod machine;
mod operands;
mod parts;
mod registers;
mod states;

pub use effects::{end_of_transaction, entries_of};
pub use machine::Machine;
pub use operands::{Operands, add_states};
pub use parts::{reads_at, reads_count};
pub use registers::first_value;
pub use states::{add_decodes, add_wire};
