//! Why a text has no lexemes.

ghost use Rattle.std.specs.Prelude.{◌≡◌};
ghost use Rattle.tapa_lex.specs.declared.fault.LexFault.TheVariants as lex_fault;

use std::alloc::AllocFailed;
use tapa_base::Place;

/// A rule that a text breaks.
#[derive(Clone, Copy, PartialEq, Eq, Debug)]
pub enum LexCode {
    /// A byte begins no lexeme.
    L1,
    /// A comment is left open, or a string is none.
    L2,
    /// A word begins with a digit and is no literal, or no kind holds its value.
    L3,
    /// A line begins with `#` and is neither an `include` nor a `pragma`.
    L4,
}

/// Why `lex` gives no lexemes: the first byte of what is refused, or want of memory.
#[derive(Clone, Copy, PartialEq, Eq, Debug)]
pub enum LexFault {
    At { code: LexCode, place: Place },
    OutOfMemory,
}

impl<T: Drop> From<AllocFailed<T>> for LexFault {
    ghost from_gives = { λ _ fault. fault ≡ lex_fault.OutOfMemory };

    fn from(_: AllocFailed<T>) -> Self {
        LexFault::OutOfMemory
    }
}
