//! The first cycle of a design by definition, and that the cycles computed from it one after another are those of its run.
#![tactic(auto)]

mod contents;
mod cycle_laws;
mod first;
mod instances;
mod laws;
mod outside;

pub use cycle_laws::{law_each_net_is_found, law_next_moment_is_known, law_next_moment_is_whole};
pub use first::first_moment;
pub use laws::law_reference_is_a_run;
