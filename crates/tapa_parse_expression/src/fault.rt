//! Why a lexeme is refused.

ghost use Rattle.std.specs.Prelude.{◌≡◌};
ghost use Rattle.tapa_parse_expression.specs.declared.fault.Fault.TheVariants.{OutOfMemory};

use std::alloc::{AllocError, AllocFailed};

/// The rule that a lexeme breaks.
#[derive(Clone, Copy, Debug, PartialEq, Eq)]
pub enum ParseCode {
    /// The lexeme continues no file of the grammar.
    P1,
    /// The lexeme opens one level too many, or is one operator too many.
    P2,
}

/// Why a rule of the grammar gave no tree: memory ran out, or the lexeme that comes next is refused. A parser that refused
/// is before that lexeme.
#[derive(Clone, Copy, Debug, PartialEq, Eq)]
pub enum Fault {
    OutOfMemory,
    Refused(ParseCode),
}

impl From<AllocError> for Fault {
    ghost from_gives = { λ _ fault. fault ≡ OutOfMemory };

    fn from(_: AllocError) -> Self {
        Fault::OutOfMemory
    }
}

impl<T: Drop> From<AllocFailed<T>> for Fault {
    ghost from_gives = { λ _ fault. fault ≡ OutOfMemory };

    fn from(_: AllocFailed<T>) -> Self {
        Fault::OutOfMemory
    }
}
