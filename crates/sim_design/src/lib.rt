//! A whole design on a tape: the slots of each net, one after another, and what registers and memories have in the next cycle.
#![tactic(auto)]

mod all;
mod answered;
mod drafts;
mod driven;
mod given;
mod joined;
mod memories;
mod net;
mod next;
mod plan;
mod rows;
mod slices;

pub use drafts::{Commit, TapeDraft, Width, draft_of};
pub use memories::declaration_of;
pub use slices::pair_of;
