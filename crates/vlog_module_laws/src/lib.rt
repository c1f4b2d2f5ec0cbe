//! Laws of one module by itself, for whoever builds modules: its blocks, its lines, its loops and its names, and that it says as
//! much among more modules.
#![tactic(auto)]

mod laws;

pub use laws::{
    law_labels, law_larger, law_lines, law_names, law_no_loop_by_rank, law_own_block,
    law_rests_in_larger, law_usual_blocks,
};
