//! The builder of generated modules. Tasks, FIFOs, relays and tops grow by one element after another; what the usual
//! blocks of such a module make of its registers and memories in a run is proved here once.
#![tactic(auto)]

mod bits;
mod draft;
mod laws;
mod list_laws;
mod steps;
mod texts;
mod trees;

pub use bits::bits_for;
pub use draft::Draft;
pub use laws::{
    law_blocks, law_built_has_form, law_built_has_no_loop, law_built_is_right,
    law_elements_in_a_run, law_loopless, law_rests_on_no_input, law_trees,
};
pub use list_laws::{law_choices, law_fit_in_order, law_fit_in_parts, law_names_once};
pub use steps::{copy_steps, first_set_steps, reset_set_steps, reset_steps, store_steps};
pub use texts::{net, net_value, number, numbered, reset_name, text};
