//! What is read of a dump.

ghost use Rattle.std.specs.Prelude.{◌≡◌};
ghost use Rattle.vcd_text.specs.declared.dump.VcdFault.TheVariants as fault;

use std::alloc::{AllocError, AllocFailed};
use tapa_base::{Place, Port};

/// A net's value from a cycle on.
#[derive(Clone, Copy, Debug, PartialEq, Eq)]
pub struct Change {
    pub cycle: u64,
    pub net: u32,
    pub value: u128,
}

/// The nets of a dump, its last cycle, and the changes in the order of cycles and, in each, of nets.
#[derive(Drop)]
pub struct Dump {
    pub nets: Vec<Port>,
    pub last: u64,
    pub changes: Vec<Change>,
}

/// Why a text is not read.
#[derive(Clone, Copy, Debug, PartialEq, Eq)]
pub enum VcdFault {
    /// No dump goes on at this place.
    X1(Place),
    OutOfMemory,
}

impl From<AllocError> for VcdFault {
    ghost from_gives = { λ _ e. e ≡ fault.OutOfMemory };

    fn from(_: AllocError) -> Self {
        VcdFault::OutOfMemory
    }
}

impl<T: Drop> From<AllocFailed<T>> for VcdFault {
    ghost from_gives = { λ _ e. e ≡ fault.OutOfMemory };

    fn from(_: AllocFailed<T>) -> Self {
        VcdFault::OutOfMemory
    }
}
