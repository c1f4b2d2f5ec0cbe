//! Answers of commands: the files that a command reads, the refusals that it ends with, the text of each, and the ways in which a command ends.
#![tactic(auto)]

mod file;
mod files;
mod refusal;
mod report;
mod source;
mod status;

pub use file::File;
pub use files::{most_bytes, read_file};
pub use refusal::{DumpFault, Refusal};
pub use report::{put_lines, report_no_memory, report_unwritten, report_usage, tell};
pub use source::SourceCode;
pub use status::Status;
