//! Stream arrays and counted invokes, written out into the plain dialect before a source is parsed.
#![tactic(auto)]

mod closing;
mod constant;
mod counted;
mod declaration;
mod element;
mod fault;
mod number;
mod piece;
mod plain;
mod scope;
mod standing;
mod step;
mod table;
mod whole;
mod writer;

pub use fault::{ArrayCode, ArrayFault, ArrayRefusal};
pub use whole::write_out;
