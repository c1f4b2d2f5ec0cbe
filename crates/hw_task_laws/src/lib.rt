//! Laws of a task's module: its names, wires and widths are right, and a run of it runs its machine, one step in each cycle whose
//! inputs allow it.
#![tactic(auto)]

mod laws;

pub use laws::{
    law_allowed, law_expressions, law_held, law_names, law_next, law_operators, law_outputs,
    law_places, law_reads, law_runs, law_signed_words, law_task_fits, law_task_is_right,
    law_task_lines, law_task_ports, law_task_rests, law_tasks, law_wires_fit, law_words,
};
