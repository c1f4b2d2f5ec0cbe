//! What every layer of the compiler depends on: values of the integer kinds, tokens, places and texts, the shapes of data,
//! and want of memory.
#![tactic(auto)]

mod fault;
mod kind;
mod numbers;
mod op;
mod shape;
mod text;
mod token;

pub use fault::OutOfMemory;
pub use kind::{Kind, convert};
pub use numbers::{narrow, number_at, plus, position_of, value_at};
pub use op::{Op, apply, can_apply};
pub use shape::{Port, Shape};
pub use text::{Place, Text};
pub use token::Token;
