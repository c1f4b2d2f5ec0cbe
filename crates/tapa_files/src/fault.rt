// The faults of shelves, of sinks, of files that are read and of texts that are printed, and conversions between them.
ghost use Rattle.std.specs.Prelude.{◌≡◌};
ghost use Rattle.tapa_files.specs.declared.fault.TakeFault.TheVariants as take_fault;
ghost use Rattle.tapa_files.specs.declared.fault.PrintFault.TheVariants as print_fault;
ghost use Rattle.tapa_files.specs.declared.fault.ShelfFault.TheVariants as shelf_fault;
ghost use Rattle.tapa_files.specs.Faults.{take_fault_of};

use std::alloc::{AllocError, AllocFailed};
use tapa_base::OutOfMemory;

/// Why a shelf gave no bytes.
#[derive(Clone, Copy, Debug, PartialEq, Eq)]
pub enum ShelfFault {
    ReadFailed,
    OutOfMemory,
}

/// A sink took nothing.
#[derive(Clone, Copy, Debug, PartialEq, Eq)]
pub struct WriteFailed;

/// A text was not written whole.
#[derive(Clone, Copy, Debug, PartialEq, Eq)]
pub struct WriteFault;

/// Why a file was not taken.
#[derive(Clone, Copy, Debug, PartialEq, Eq)]
pub enum TakeFault {
    ReadFault,
    TooLong { limit: u64 },
    OutOfMemory,
}

/// Why a text was not printed whole.
#[derive(Clone, Copy, Debug, PartialEq, Eq)]
pub enum PrintFault {
    WriteFault,
    OutOfMemory,
}

impl From<AllocError> for ShelfFault {
    ghost from_gives = { λ _ fault. fault ≡ shelf_fault.OutOfMemory };

    fn from(_: AllocError) -> Self {
        ShelfFault::OutOfMemory
    }
}

impl<T: Drop> From<AllocFailed<T>> for ShelfFault {
    ghost from_gives = { λ _ fault. fault ≡ shelf_fault.OutOfMemory };

    fn from(_: AllocFailed<T>) -> Self {
        ShelfFault::OutOfMemory
    }
}

impl From<AllocError> for TakeFault {
    ghost from_gives = { λ _ fault. fault ≡ take_fault.OutOfMemory };

    fn from(_: AllocError) -> Self {
        TakeFault::OutOfMemory
    }
}

impl From<ShelfFault> for TakeFault {
    ghost from_gives = { λ fault taken. taken ≡ take_fault_of fault };

    fn from(fault: ShelfFault) -> Self {
        match fault {
            ShelfFault::ReadFailed => TakeFault::ReadFault,
            ShelfFault::OutOfMemory => TakeFault::OutOfMemory,
        }
    }
}

impl From<AllocError> for PrintFault {
    ghost from_gives = { λ _ fault. fault ≡ print_fault.OutOfMemory };

    fn from(_: AllocError) -> Self {
        PrintFault::OutOfMemory
    }
}

impl From<OutOfMemory> for PrintFault {
    ghost from_gives = { λ _ fault. fault ≡ print_fault.OutOfMemory };

    fn from(_: OutOfMemory) -> Self {
        PrintFault::OutOfMemory
    }
}

impl From<WriteFault> for PrintFault {
    ghost from_gives = { λ _ fault. fault ≡ print_fault.WriteFault };

    fn from(_: WriteFault) -> Self {
        PrintFault::WriteFault
    }
}
