//! Laws of whole sources, texts and commands, which stand on several rooms: each source is legal or refused, and means one thing; its
//! streams are the least solution of its tasks' equations; its const memories keep their cells; its circuit shows its program, has one run
//! beside memories that answer in the same cycle, and has at most one graph, one device and one plan; and each command comes to one
//! answer by what its files give.
#![tactic(auto)]

mod laws;

pub use laws::{
    law_build_adds_what_plan_prints, law_cells_stay_where_nothing_is_stored,
    law_circuits_run_beside_reactive_memories, law_circuits_show_their_program,
    law_commands_mean_one_thing, law_const_memories_keep_their_cells, law_dumps_show_their_run,
    law_every_source_is_legal_or_refused, law_files_are_written_out_as_they_are,
    law_graphs_have_one_plan, law_known_files_decide_the_answer, law_labels_tell_parts_apart,
    law_legal_programs_store_nothing_in_const_memories, law_one_graph, law_one_plan_meaning,
    law_one_reactive_run, law_one_source_device, law_same_cycle_is_causal,
    law_sources_build_what_plan_prints, law_sources_have_one_program, law_sources_mean_one_thing,
    law_streams_are_the_least_solution, law_texts_mean_one_thing, law_writers_are_joined,
    law_written_out_keeps_lines, law_written_out_texts_have_lexemes,
};
