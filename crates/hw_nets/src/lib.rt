//! The nets of a task's module: their names, the atoms and operators that drive them, what a machine's shape gives them, and choices
//! among entries, each a value and the net that says when it is meant, as rows of nets.
#![tactic(auto)]

mod atoms;
mod choices;
mod entries;
mod names;
mod numbers;
mod shape;

pub use atoms::{binary, choose, concat, copy, literal, low_bits, net, sign_of, wire};
pub use choices::{add_any, add_pick, result_of, root};
pub use entries::{Entry, add_found, entry_of};
pub use names::{index_front, name, read_front, value_front};
pub use numbers::power;
pub use shape::Shape;
