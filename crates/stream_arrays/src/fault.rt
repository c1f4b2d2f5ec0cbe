//! Why a text is not written out.

ghost use Rattle.std.specs.Prelude.{◌≡◌};
ghost use Rattle.stream_arrays.specs.declared.fault.ArrayRefusal.TheVariants.{OutOfMemory};

use std::alloc::{AllocError, AllocFailed};
use tapa_base::Place;

/// The rule of arrays that a text breaks.
#[derive(Clone, Copy, PartialEq, Eq, Debug)]
pub enum ArrayCode {
    /// The count of a form is no number from 1 to 512.
    A1,
    /// An array that is an argument of a counted invoke has another length than the invoke's count.
    A2,
    /// The name of an array where no array may be, or an index that is not below the array's length.
    A3,
    /// The text that is written out has more than 4,194,304 bytes.
    A4,
}

/// A rule that is broken, and the place: that of the count, of the argument or of the name; 1:1 where the whole is too long.
#[derive(Clone, Copy, PartialEq, Eq, Debug)]
pub struct ArrayFault {
    pub code: ArrayCode,
    pub place: Place,
}

/// Why `write_out` gives no text.
#[derive(Clone, Copy, PartialEq, Eq, Debug)]
pub enum ArrayRefusal {
    Fault(ArrayFault),
    OutOfMemory,
}

impl From<AllocError> for ArrayRefusal {
    ghost from_gives = { λ _ fault. fault ≡ OutOfMemory };

    fn from(_: AllocError) -> Self {
        ArrayRefusal::OutOfMemory
    }
}

impl<T: Drop> From<AllocFailed<T>> for ArrayRefusal {
    ghost from_gives = { λ _ fault. fault ≡ OutOfMemory };

    fn from(_: AllocFailed<T>) -> Self {
        ArrayRefusal::OutOfMemory
    }
}

/// The refusal of a rule that is broken at a place.
pub(crate) fn refused(code: ArrayCode, place: Place) -> ArrayRefusal
    ensures { result ≡ ArrayRefusal.Fault (record { code = code; place = place }) }
{
    ArrayRefusal::Fault(ArrayFault { code, place })
}
