//! Why reading ends.

ghost use Rattle.std.specs.Prelude.{◌≡◌};
ghost use Rattle.vcd_text.specs.declared.halt.Halt.TheVariants as halt;

use std::alloc::{AllocError, AllocFailed};

/// Why a part of a dump is not read.
#[derive(Clone, Copy)]
pub(crate) enum Halt {
    /// The number of bytes left of the text where no dump goes on.
    Stopped(usize),
    OutOfMemory,
}

impl From<usize> for Halt {
    ghost from_gives = { λ left h. h ≡ halt.Stopped left };

    fn from(left: usize) -> Self {
        Halt::Stopped(left)
    }
}

impl From<AllocError> for Halt {
    ghost from_gives = { λ _ h. h ≡ halt.OutOfMemory };

    fn from(_: AllocError) -> Self {
        Halt::OutOfMemory
    }
}

impl<T: Drop> From<AllocFailed<T>> for Halt {
    ghost from_gives = { λ _ h. h ≡ halt.OutOfMemory };

    fn from(_: AllocFailed<T>) -> Self {
        Halt::OutOfMemory
    }
}
