// The state of a design in a cycle.

use crate::numbers::{MemoryCells, NetNumber};
use tapa_base::Text;
use vlog_tree::Module;

/// Modules, and the top among them.
#[derive(Drop)]
pub struct Circuit<'a> {
    pub modules: &'a [Module],
    pub top: &'a Module,
}

/// The state of one instance: the names of the instances on the way to it, the innermost first, and the numbers of its
/// registers and of its memories' cells.
#[derive(Drop)]
pub struct Held {
    pub path: Vec<Text>,
    pub nets: Vec<NetNumber>,
    pub memories: Vec<MemoryCells>,
}

/// A memory outside a design: its label, its cells, and its ready bits from cycle 1 on.
#[derive(Drop)]
pub struct OutsideMemory {
    pub name: Text,
    pub cells: Vec<u128>,
    pub ready: Vec<bool>,
}

/// A cycle snapshot of a design: the state of each instance, and the scalars, by their labels, and memories around it.
#[derive(Drop)]
pub struct Moment {
    pub cycle: u64,
    pub held: Vec<Held>,
    pub scalars: Vec<NetNumber>,
    pub outside: Vec<OutsideMemory>,
}
