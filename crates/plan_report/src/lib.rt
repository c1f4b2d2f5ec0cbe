//! The registers of a plan and its lines: the latency of each stream over the borders of slots, each slot with what it holds, each
//! task with its slot, each stream with its registers, and the sums that show cost and balance.
#![tactic(auto)]

mod added;
mod borders;
mod laws;
mod lines;
mod report;

pub use added::added_latencies;
pub use borders::latencies;
pub use laws::law_one_added;
pub use report::plan_lines;
