// The laws by their subject.

mod acts;
mod effects;
mod fit;
mod form;
mod names;
mod rests;
mod runs;
mod steps;
mod wires;
mod words;

pub use acts::{law_next, law_reads};
pub use effects::{law_held, law_outputs};
pub use fit::law_wires_fit;
pub use form::{law_task_fits, law_task_is_right};
pub use names::{law_names, law_task_lines, law_task_ports};
pub use rests::law_task_rests;
pub use runs::{law_runs, law_tasks};
pub use steps::{law_allowed, law_places};
pub use wires::{law_expressions, law_operators};
pub use words::{law_signed_words, law_words};
