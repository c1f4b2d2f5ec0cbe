//! Outputs of a design that is simulated on its data: the report of its streams and memories, the cycle in which it is done, and the value change dump of the nets of its top.
#![tactic(auto)]

mod done;
mod dump_changes;
mod dump_head;
mod dump_laws;
mod dump_run;
mod dump_write;
mod report_laws;
mod run;
mod shown;

pub use done::done_cycle;
pub use dump_laws::{law_dumps_show_the_run, law_one_simulation_dump};
pub use dump_run::dump_design;
pub use dump_write::write_vcd;
pub use report_laws::law_one_report;
pub use run::{DesignEnd, end_after, run_design};
