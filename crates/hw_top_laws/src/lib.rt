//! Laws of a circuit: its top and its modules make a design, and each run of it carries the program's streams.
#![tactic(auto)]

mod laws;

pub use laws::{
    law_carrying_excludes, law_carrying_gives, law_circuits_are_designs,
    law_circuits_carry_streams, law_designs_are_legal, law_designs_are_loopless,
    law_designs_carry_streams, law_designs_rest_on_no_input, law_fit_together,
    law_modules_are_apart, law_modules_are_right, law_stand_in_parts, law_top_is_right,
    law_top_names, law_top_outside,
};
