//! The top call: the words of a command, what carries it out, and how its end is told.
#![tactic(auto)]

mod top;
mod words;

pub use command_answers::{SourceCode, Status};
pub use command_gen::generate;
pub use command_source::{SourceFault, read_input, read_program};
pub use coro_threads::{Gate, OpenGate};
pub use tapa_words::WordsFault;
pub use top::tapa;
pub use words::refuse_words;
