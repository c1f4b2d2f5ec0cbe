// What contracts see of a case.
use net_core::{Input, Pause};
use tapa_syntax::Program;

/// What contracts see of a [`Case`](crate::Case): no value of this type is made.
pub struct CaseState {
    pub program: Program,
    pub input: Input,
    /// How many ticks the instances that are waited for may make together, and each detached one of its own.
    pub budget: u64,
    /// The ticks that each instance has made, as far as they are committed.
    pub counts: [u64; 0],
    /// Which instances are out.
    pub out: [bool; 0],
    /// The answer of each instance's last resume, and `None` before its first.
    pub pauses: [Option<Pause>; 0],
}
