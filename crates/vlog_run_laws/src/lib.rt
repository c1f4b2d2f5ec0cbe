//! Laws of runs of a design: there is exactly one from each power-up in each environment, no net depends on itself, and every number
//! fits its width.
#![tactic(auto)]

mod laws;

pub use laws::{
    law_among_is_beside, law_beside_is_among, law_design_is_grounded, law_fill, law_loops_are_flat,
    law_numbers_fit, law_numbers_fit_beside, law_one_module_fits, law_one_run_beside,
    law_one_run_in_environment, law_one_run_of_inputs, law_operators_apply,
    law_refused_loops_are_flat, law_widths_in_range,
};
