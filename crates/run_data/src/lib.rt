//! The data of a run: what a data file gives its inputs, and the report of what each stream carried, what each memory
//! holds, and how the run ended.
#![tactic(auto)]

mod data;
mod find;
mod group;
mod json;
mod lines;
mod misfit;
mod misshapen;
mod oversized;
mod values;

pub use data::{Data, DataFault, read_data};
pub use json::{are_numbers, items, member, text_of};
pub use lines::{Last, report_last, report_memory, report_stream};
