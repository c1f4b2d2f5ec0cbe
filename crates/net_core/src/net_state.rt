// The model of a network in contracts: its program and input, and the ticks and the last pause of each instance.
use crate::body::Pause;
use crate::input::Input;
use tapa_syntax::Program;

/// What contracts see of a [`Net`](crate::Net), as lists: no value of this type is made.
pub struct NetState {
    pub program: Program,
    pub input: Input,
    /// The ticks that each instance has made.
    pub counts: [u64; 0],
    /// The answer of each instance's last resume, and `None` before its first.
    pub pauses: [Option<Pause>; 0],
}
