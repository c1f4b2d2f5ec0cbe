//! Graphs of numbers: an order in which each node comes after those that it depends on, what nodes reach, and whether a node
//! reaches itself.
#![tactic(auto)]

mod components;
mod cycles;
mod graph;
mod order;
mod reach;

pub use cycles::LeveledGraph;
pub use graph::Graph;
pub use order::{Order, law_order_has_no_cycle, order_of};
pub use reach::{Searches, reach_from};
