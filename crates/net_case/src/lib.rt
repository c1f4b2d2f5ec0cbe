//! A network taken apart: the instances that are at home, the batches of ticks with which others are out, and for each stream the
//! tokens that were not taken. An instance goes out with its body, its ports, and the lists of the streams that it writes. Its ticks
//! are made elsewhere, and are steps of the network when it comes back by a commit, in any order.
#![tactic(auto)]

mod batch;
mod case;
mod case_state;
mod claim;
mod commit;
mod deliver;
mod find;
mod gate;
mod law;
mod look;
mod lot;
mod make;
mod pace;
mod queue;
mod round;
mod run;
mod together;
mod waiting;

pub use batch::{Batch, Process};
pub use case::Case;
pub use case_state::CaseState;
pub use claim::Claimed;
pub use commit::Stale;
pub use gate::{Gate, OpenGate};
pub use law::law_over;
pub use lot::Lot;
pub use make::CaseFault;
pub use round::run_all;
