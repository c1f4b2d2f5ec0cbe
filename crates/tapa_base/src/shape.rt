// The shape of the data of a design: its named scalars and memories with their widths in bits.
use crate::Text;

/// A named input or output, and how many bits it has.
#[derive(Drop)]
pub struct Port {
    pub name: Text,
    pub bits: u32,
}

/// What data a design asks for: one value for each scalar, and the first cells of each memory, in order.
#[derive(Drop)]
pub struct Shape {
    pub scalars: Vec<Port>,
    pub memories: Vec<Port>,
}
