//! The command `plan`, and `build` by a plan: the device of a file, a plan on it with its lines, and the circuit by it.
#![tactic(auto)]

mod plan_text;
mod planning;

pub use planning::{plan_source, planned, put_aim, read_device_file};
