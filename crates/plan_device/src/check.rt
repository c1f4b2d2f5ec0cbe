// The checks that a device file goes through in order: of shapes, numbers, ranges and names.
use crate::grid::Grid;

/// What a file is looked through for, one after the other: values of another shape, numbers that are not right, numbers
/// and places out of range, and names that the program has not.
#[derive(Clone, Copy)]
pub enum Check {
    Shape,
    Number,
    Range(Grid),
    Name,
}
