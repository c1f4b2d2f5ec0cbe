//! The command `run`: the program of a source runs on the data of a file.
#![tactic(auto)]

mod run;

pub use run::run_source;
