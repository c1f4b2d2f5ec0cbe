/// What a program runs on: the values of the top task's scalars, and the first cells of its memories, in the order of its
/// parameters.
#[derive(Drop)]
pub struct Input {
    pub scalars: Vec<u64>,
    pub memories: Vec<Vec<u64>>,
}
