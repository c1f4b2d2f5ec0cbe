// What is known of the streams of a network between the calls of its bodies.
use crate::ports::Ports;

/// The ports of all instances, and tables with an entry for each stream. The tokens of a stream are at the port of its producer.
#[derive(Drop)]
pub struct Streams {
    pub ports: Vec<Ports>,
    /// For each stream the position of its producer's port.
    pub writers: Vec<usize>,
    /// For each stream how many tokens it had when its reader's port was last loaded.
    pub offered: Vec<usize>,
    /// For each stream how many tokens were taken.
    pub taken: Vec<usize>,
}
