//! Value change dumps: what is written of a design's nets cycle by cycle, what is read of it, and the lines of one net.
#![tactic(auto)]

mod along;
mod change;
mod cycles;
mod dump;
mod halt;
mod head;
mod identifier;
mod laws;
mod line;
mod net_lines;
mod net_place;
mod number;
mod push;
mod read;
mod table;
mod value;

pub use dump::{Change, Dump, VcdFault};
pub use laws::{law_never_both, law_none_once, law_one_dump, law_reads_values};
pub use net_lines::net_text;
pub use net_place::place_of;
pub use push::{push_change, push_cycle, push_var};
pub use read::read_vcd;
