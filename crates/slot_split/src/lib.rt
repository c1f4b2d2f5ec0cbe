//! Plans by halving: at each level the regions of a device are cut in two, and the groups of each are divided among its parts.
#![tactic(auto)]

mod cuts;
mod laws;
mod planning;
mod regions;

pub use laws::{law_halves_or_fails, law_halving_is_a_plan, law_one_halving_plan};
pub use planning::{SplitFault, split};
