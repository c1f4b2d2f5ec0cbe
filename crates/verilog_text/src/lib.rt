//! The one text of a design.
#![tactic(auto, using(crate::proofs::Lists::fold_two))]

mod page;
mod printed;
mod words;

pub use printed::{print, print_modules};
