//! A checked design of the Verilog subset: its modules, its top, and what the top asks of the outside.
#![tactic(auto)]

mod checked;
mod env;
mod outside;
mod roots;
mod shape;
mod top;

pub use checked::Design;
pub use env::Env;
