//! Tests of the whole program: the top call with files and sinks in memory that fail and by several workers, and calls of single
//! crates on what was worked out by hand.
#![tactic(auto)]

#[cfg(test)]
mod calls;
#[cfg(test)]
mod commands;
#[cfg(test)]
mod programs;
