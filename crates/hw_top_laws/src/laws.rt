// The laws by their subject.

mod circuit;
mod design;
mod form;
mod joins;
mod kahn;
mod modules;
mod names;
mod runs;

pub use circuit::law_designs_carry_streams;
pub use design::{
    law_designs_are_legal, law_designs_are_loopless, law_designs_rest_on_no_input, law_top_outside,
};
pub use form::law_top_is_right;
pub use joins::{law_fit_together, law_stand_in_parts};
pub use kahn::{law_carrying_excludes, law_carrying_gives, law_circuits_carry_streams};
pub use modules::{law_modules_are_apart, law_modules_are_right};
pub use names::law_top_names;
pub use runs::law_circuits_are_designs;
