// The environment of a design, as it is given.

/// The surroundings of a simulation: a number for each scalar of a design's shape, and for each of its memories the first cells and the ready bits from
/// cycle 1 on. A scalar that is left out is 0, a memory that is left out has no cells, and one without ready bits is always
/// ready.
#[derive(Drop)]
pub struct Env {
    pub scalars: Vec<u64>,
    pub memories: Vec<Vec<u64>>,
    pub ready: Vec<Vec<bool>>,
}
