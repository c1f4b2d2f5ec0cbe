// What the names of a module denote.

use tapa_base::Text;

/// What a name denotes.
#[derive(Clone, Copy, PartialEq, Eq, Debug)]
pub enum NetKind {
    Unknown,
    Input,
    Output,
    WireNet,
    Register,
    MemoryArray,
    ChildInstance,
}

/// A name that a module declares.
#[derive(Drop)]
pub struct Declaration {
    pub name: Text,
    pub net_kind: NetKind,
    pub bits: u32,
    /// Of a memory, how many it has; else 0.
    pub cells: u32,
}
