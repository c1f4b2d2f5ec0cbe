// The laws by their subject.

mod loops;
mod runs;
mod widths;

pub use loops::{law_loops_are_flat, law_refused_loops_are_flat};
pub use runs::{
    law_among_is_beside, law_beside_is_among, law_design_is_grounded, law_fill, law_one_run_beside,
    law_one_run_in_environment, law_one_run_of_inputs,
};
pub use widths::{
    law_numbers_fit, law_numbers_fit_beside, law_one_module_fits, law_operators_apply,
    law_widths_in_range,
};
