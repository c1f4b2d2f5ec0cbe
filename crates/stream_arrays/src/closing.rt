//! How far it is from each lexeme to the parenthesis that closes what is open there.

ghost use Rattle.std.specs.Prelude.{◌≡◌, ◌<◌, ◌^◌, ◌∷◌, length, slice_get, option_and_then, IfOk};
ghost use Rattle.stream_arrays.specs.Forms as spec;
ghost use Rattle.stream_arrays.specs.Reading.{AreClosings};

use crate::standing::is;
use std::alloc::{AllocError, Global};
use tapa_syntax::{Lexeme, Terminal};

/// For each lexeme, and for the end, the number of lexemes from it on before the parenthesis that closes the innermost open one.
pub(crate) fn closings(
    alloc: Global,
    text: &[u8],
    lexemes: &[Lexeme],
) -> Result<Vec<Option<usize>>, AllocError>
    ensures { IfOk result (λ v. AreClosings text.now lexemes.now v.items) }
{
    let mut table = vec![in alloc; None; lexemes.len() + 1]?;
    let mut at = lexemes.len();
    while at > 0 {
        at -= 1;
        table[at] = closing_at(text, &lexemes[at], &lexemes[at + 1..], &table[at + 1..]);
    }
    Ok(table)
}

/// The entry of one lexeme in the table of closings, given those of the lexemes after it.
fn closing_at(
    text: &[u8],
    lexeme: &Lexeme,
    rest: &[Lexeme],
    behind: &[Option<usize>],
) -> Option<usize>
    requires closings { AreClosings text.now rest.now behind.now }
    requires room { length rest.now < 2 ^ 64 }
    ensures { result ≡ spec.inside_size text.now 0 (lexeme.now ∷ rest.now) }
{
    if is(text, Terminal::RightParen, lexeme) {
        return Some(0);
    }
    let first = next_closing(behind, 0)?;
    if is(text, Terminal::LeftParen, lexeme) {
        let second = next_closing(behind, first + 1)?;
        Some(first + second + 2)
    } else {
        Some(first + 1)
    }
}

/// The entry at an index of the table, and none past its end.
pub(crate) fn next_closing(behind: &[Option<usize>], at: usize) -> Option<usize>
    ensures { result ≡ option_and_then (λ o. o) (slice_get behind.now at) }
{
    match behind.get(at) {
        Some(closing) => *closing,
        None => None,
    }
}
