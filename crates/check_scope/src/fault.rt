// The rules of a source beyond its grammar, and the fault that reports a broken rule with its place.
ghost use Rattle.std.specs.Prelude.{◌≡◌, None, Some};
ghost use Rattle.check_scope.specs.declared.fault.CheckCode.TheVariants.{C11};
ghost use Rattle.check_scope.specs.declared.fault.CheckFault.TheVariants.{At, OutOfMemory};

use std::alloc::{AllocError, AllocFailed};
use tapa_base::Place;

/// The rules of a source beyond its grammar.
#[derive(Clone, Copy, PartialEq, Eq, Debug)]
pub enum CheckCode {
    /// A name is not declared before its use.
    C1,
    /// A name is declared twice in one block.
    C2,
    /// A name of the wrong entity, or a wrong kind.
    C3,
    /// A stream without exactly one producing instance.
    C4,
    /// A stream without exactly one consuming instance.
    C5,
    /// A nonblocking method, or a method with the wrong arguments.
    C6,
    /// A memory of the top task that is not bound to exactly one instance.
    C7,
    /// An operation on a stream or memory in an operand or arm that is evaluated conditionally.
    C8,
    /// A divisor that is no constant, or is 0.
    C9,
    /// A task that invokes itself.
    C10,
    /// More than a limit allows.
    C11,
    /// A memory of the top task that may be written, of an instance that is not waited for.
    C12,
}

/// A rule that is broken, the place where it is, and for a limit the greatest number that is allowed.
#[derive(Clone, Copy, PartialEq, Eq, Debug)]
pub struct Broken {
    pub code: CheckCode,
    pub place: Place,
    pub limit: Option<u32>,
}

/// Why a source means no program.
#[derive(Clone, Copy, PartialEq, Eq, Debug)]
pub enum CheckFault {
    At(Broken),
    OutOfMemory,
}

impl From<AllocError> for CheckFault {
    ghost from_gives = { λ _ fault. fault ≡ OutOfMemory };

    fn from(_: AllocError) -> Self {
        CheckFault::OutOfMemory
    }
}

impl<T: Drop> From<AllocFailed<T>> for CheckFault {
    ghost from_gives = { λ _ fault. fault ≡ OutOfMemory };

    fn from(_: AllocFailed<T>) -> Self {
        CheckFault::OutOfMemory
    }
}

/// A rule that is broken, which is no limit.
pub fn refused(code: CheckCode, place: Place) -> CheckFault
    ensures { result ≡ At (record { code = code; place = place; limit = None }) }
{
    CheckFault::At(Broken {
        code,
        place,
        limit: None,
    })
}

/// More than a limit allows.
pub fn over(limit: u32, place: Place) -> CheckFault
    ensures { result ≡ At (record { code = C11; place = place; limit = Some limit }) }
{
    CheckFault::At(Broken {
        code: CheckCode::C11,
        place,
        limit: Some(limit),
    })
}
