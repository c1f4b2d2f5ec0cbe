//! Graphs of nets by their names: what each net of a module depends on within a cycle, what all nets of all modules do, where
//! the instances of a module share its nodes, and which module contains which.
#![tactic(auto)]

mod containment;
mod lines;
mod merged;
mod names;

pub use containment::containment_of;
pub use lines::{add_edge, direct_draft, dotted, port_name};
pub use merged::merged_is_loopless;
pub use names::{GraphDraft, NamedGraph, insert_number};
