//! Balances the latencies of a graph's streams with the fewest registers. Each stream's flow is sent round by the cheapest path
//! from its tail to its head, as long as that gains; then flow is sent along any cycle of moves that gains, and when none does,
//! the heights of the groups are the balance.
#![tactic(auto)]

mod balance;
mod cycle_test;
mod exits;
mod laws;
mod moves;
mod paths;
mod search;
mod sending;
mod settling;
mod walking;

pub use balance::{Balance, balance_streams};
pub use laws::law_balances_are_one;
