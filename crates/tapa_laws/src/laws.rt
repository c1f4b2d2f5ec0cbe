// The laws by their subject.

mod circuits;
mod commands;
mod kahn;
mod memories;
mod plans;
mod simulations;
mod sources;
mod written;

pub use circuits::{
    law_circuits_run_beside_reactive_memories, law_one_reactive_run, law_same_cycle_is_causal,
};
pub use commands::{law_commands_mean_one_thing, law_known_files_decide_the_answer};
pub use kahn::law_streams_are_the_least_solution;
pub use memories::{
    law_cells_stay_where_nothing_is_stored, law_const_memories_keep_their_cells,
    law_legal_programs_store_nothing_in_const_memories, law_writers_are_joined,
};
pub use plans::{
    law_build_adds_what_plan_prints, law_graphs_have_one_plan, law_one_graph, law_one_plan_meaning,
    law_one_source_device, law_sources_build_what_plan_prints,
};
pub use simulations::{
    law_circuits_show_their_program, law_dumps_show_their_run, law_texts_mean_one_thing,
};
pub use sources::{
    law_every_source_is_legal_or_refused, law_labels_tell_parts_apart,
    law_sources_have_one_program, law_sources_mean_one_thing,
};
pub use written::{
    law_files_are_written_out_as_they_are, law_written_out_keeps_lines,
    law_written_out_texts_have_lexemes,
};
