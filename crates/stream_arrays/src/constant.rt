//! Constants of the file.

ghost use Rattle.std.specs.Prelude.{◌≡◌, Ok, option_map};
ghost use Rattle.stream_arrays.specs.Answers.{Gives};
ghost use Rattle.stream_arrays.specs.Forms as spec;
ghost use Rattle.stream_arrays.specs.Reading.{named_by};

use crate::fault::ArrayRefusal;
use crate::number::literal_of;
use crate::standing::{behind, is, is_named, type_size};
use std::alloc::Global;
use tapa_syntax::{Lexeme, Terminal};

/// The name and the number of a constant, from the lexeme after its type on.
fn initialised(text: &[u8], lexemes: &[Lexeme]) -> Option<(Lexeme, u64)>
    ensures { option_map (named_by text.now) result ≡ spec.initialised text.now lexemes.now }
{
    match lexemes {
        [name, assign, value, end, ..]
            if is_named(text, name)
                && is(text, Terminal::Assign, assign)
                && is(text, Terminal::Literal, value)
                && is(text, Terminal::Semicolon, end) => {
            match literal_of(text, value) {
                Some(number) => Some((*name, number)),
                None => None,
            }
        }
        _ => None,
    }
}

/// The name and the number of a constant that is one decimal literal, from the lexeme after `const` or `constexpr` on.
pub(crate) fn constant_behind(
    alloc: Global,
    text: &[u8],
    lexemes: &[Lexeme],
) -> Result<Option<(Lexeme, u64)>, ArrayRefusal>
    ensures { Gives (option_map (named_by text.now)) result (Ok (spec.constant_behind text.now lexemes.now)) }
{
    match type_size(alloc, text, lexemes)? {
        Some(size) => Ok(initialised(text, behind(lexemes, size))),
        None => Ok(None),
    }
}
