//! Each operator of a task's expressions as drivers of wires, one after another.
#![tactic(auto)]

mod arithmetic;
mod comparisons;
mod conversions;
mod drivers;
mod operations;

pub use conversions::conversion;
pub use drivers::{Driver, Numbered, last, one};
pub use operations::{Operator, operation};
