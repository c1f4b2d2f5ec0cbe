//! Three rules of modules, each with the first name that breaks it: names (known, declared once, of the right net kind), widths, and
//! drivers. `Sound` are modules that break none of them.
#![tactic(auto)]

mod drivers;
mod names;
mod sound;
mod widths;

pub use drivers::first_misdriven;
pub use names::{first_unknown, is_clock, is_input, is_read, named_if};
pub use sound::Sound;
pub use widths::first_misfit;
