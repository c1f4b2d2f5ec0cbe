//! The run of a flat program on an input: its instances as coroutines, its report, and what a stopped one waits for.
#![tactic(auto)]

mod cells;
pub mod laws;
mod run;
mod shown;
mod start;
mod totals;
mod waits;

pub use run::{RunEnd, network, run_program};
pub use totals::{Totals, TotalsEnd, run_totals};
