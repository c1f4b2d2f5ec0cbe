//! The rules of upper-level tasks, and what the tasks of a legal file are.
#![tactic(auto)]

mod argument;
mod channel;
mod invocation;
mod parameter;
mod task;

pub use invocation::check_upper;
pub use task::{Binding, Body, Channel, Invoked, Task};
