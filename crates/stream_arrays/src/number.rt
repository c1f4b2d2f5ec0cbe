//! Numbers and counts.

ghost use Rattle.std.specs.Prelude.{◌≡◌};
ghost use Rattle.std.specs.List.{list_all};
ghost use Rattle.tapa_syntax.specs.Characters.{is_digit};
ghost use Rattle.stream_arrays.specs.Answers.{Gives};
ghost use Rattle.stream_arrays.specs.Numbers as spec;
ghost use Rattle.stream_arrays.specs.Written.{some_or};
ghost use Rattle.stream_arrays.specs.declared.fault.ArrayCode.TheVariants.{A1};

use crate::fault::{ArrayCode, ArrayRefusal, refused};
use crate::standing::{is, is_named};
use crate::table::Table;
use tapa_parse_expression::text_of;
use tapa_syntax::{LexKind, Lexeme, Terminal};

const MOST_ELEMENTS: u64 = 512;

fn is_digit(byte: u8) -> bool
    ensures { result ≡ is_digit byte }
{
    byte >= b'0' && byte <= b'9'
}

fn are_digits(word: &[u8]) -> bool
    ensures { result ≡ list_all is_digit word.now }
{
    word.iter().all(|byte| is_digit(*byte))
}

/// Decimal digits without a suffix: `0`, or no 0 as the first digit.
fn is_decimal(word: &[u8]) -> bool
    ensures { result ≡ spec.is_decimal word.now }
{
    let is_zero_in_front = match word {
        [first, ..] => *first == b'0',
        [] => false,
    };
    are_digits(word) && (!is_zero_in_front || word.len() == 1)
}

fn value_of(kind: LexKind) -> Option<u64>
    ensures { result ≡ spec.value_of kind }
{
    match kind {
        LexKind::Literal { value, .. } => Some(value),
        _ => None,
    }
}

/// The number that a decimal literal is.
pub(crate) fn literal_of(text: &[u8], lexeme: &Lexeme) -> Option<u64>
    ensures { result ≡ spec.literal_of text.now lexeme.now }
{
    if is_decimal(text_of(text, lexeme)) {
        value_of(lexeme.kind)
    } else {
        None
    }
}

/// The number that a decimal literal is, or a constant.
pub(crate) fn number_of(text: &[u8], constants: &Table, lexeme: &Lexeme) -> Option<u64>
    ensures { result ≡ spec.number_of text.now constants.now lexeme.now }
{
    if is(text, Terminal::Literal, lexeme) {
        literal_of(text, lexeme)
    } else if is_named(text, lexeme) {
        constants.get(text_of(text, lexeme))
    } else {
        None
    }
}

/// Whether a lexeme is a literal or a name, which may be a count.
pub(crate) fn may_count(text: &[u8], lexeme: &Lexeme) -> bool
    ensures { result ≡ spec.may_count text.now lexeme.now }
{
    is(text, Terminal::Literal, lexeme) || is_named(text, lexeme)
}

fn in_bounds(number: u64) -> Option<u64>
    ensures { result ≡ spec.in_bounds number }
{
    if number >= 1 && number <= MOST_ELEMENTS {
        Some(number)
    } else {
        None
    }
}

/// The number of a count, from 1 to 512; any other is refused with A1.
pub(crate) fn count_of(text: &[u8], constants: &Table, lexeme: &Lexeme) -> Result<u64, ArrayRefusal>
    ensures { Gives (λ n. n) result (some_or A1 lexeme.now.place (spec.count_of text.now constants.now lexeme.now)) }
{
    let number = match number_of(text, constants, lexeme) {
        Some(number) => in_bounds(number),
        None => None,
    };
    match number {
        Some(count) => Ok(count),
        None => Err(refused(ArrayCode::A1, lexeme.place)),
    }
}
