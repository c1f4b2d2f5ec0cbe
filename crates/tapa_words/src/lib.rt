//! Reads the words of a command.
#![tactic(auto)]

mod build;
mod command;
mod cosim;
mod generate;
mod item;
mod laws;
mod number;
mod plan;
mod read;
mod run;
mod verb;

pub use command::{Command, CosimAim, PlanAim, PlanMode, WordsFault};
pub use laws::law_words_ask_one_thing;
pub use read::read_words;
