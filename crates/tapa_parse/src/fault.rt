//! Why a source has no tree.

use tapa_base::Place;
use tapa_parse_expression::ParseCode;

/// Why a source was not read: the rule and the first lexeme that was refused, or the place after the last byte; or memory
/// ran out.
#[derive(Clone, Copy, Debug, PartialEq, Eq)]
pub enum ParseFault {
    At { code: ParseCode, place: Place },
    OutOfMemory,
}
