//! Runs of a network by several threads. Its case lies on a board, where free-running workers take turns: who holds the turn claims
//! batches or commits one; small batches are made within the turn, large ones outside of it, so that the others go on meanwhile. While all
//! batches are small, one thread drives the network instead. Or they go by rounds of batches, each made by some thread; or one thread goes
//! on from wherever a network was taken apart, batch by batch.
#![tactic(auto)]

mod alone;
mod batches;
mod board;
mod crew;
mod deal;
mod free;
mod round;
mod rounds;
mod run;
mod seats;
mod signals;
mod views;

pub use alone::finish;
pub use crew::{Crew, run_by};
pub use deal::BoardFault;
pub use free::{run_free, work};
pub use net_case::{Batch, Case, CaseFault, Claimed, Gate, OpenGate, Stale};
pub use rounds::run_rounds;
pub use run::Run;
pub use seats::{Board, BoardSeat, Worker};
pub use views::View;
