// What contracts see of a batch.
use net_core::{Input, Pause};
use tapa_syntax::Program;

/// What contracts see of a [`Batch`](crate::Batch): no value of this type is made.
pub struct Lot {
    pub program: Program,
    pub input: Input,
    pub budget: u64,
    pub instance: u64,
    /// The ticks of each instance at the claim.
    pub at: [u64; 0],
    /// How many the batch's own instance had made then.
    pub from: u64,
    /// The number of ticks that the instance can still make.
    pub fuel: u64,
    /// How many of them it has made.
    pub made: u64,
    /// The answer of the last resume.
    pub pause: Option<Pause>,
    /// Whether there is memory for everything that the instance can write.
    pub ready: bool,
}
