//! Texts that have no form.

ghost use Rattle.std.specs.Prelude.{◌≡◌, ◌&&◌};
ghost use Rattle.stream_arrays.specs.Plain as spec;

use crate::counted::is_mode;
use crate::standing::stand;
use tapa_parse_expression::text_of;
use tapa_syntax::{Lexeme, Terminal};

/// Whether a mode is followed by a comma, as before the count of an invoke.
fn is_counted(text: &[u8], lexeme: &Lexeme, behind: &[Lexeme]) -> bool
    ensures { result ≡ spec.is_counted text.now lexeme.now behind.now }
{
    is_mode(text_of(text, lexeme)) && stand(text, &[Terminal::Comma], behind)
}

/// Whether no lexeme is `streams`, and no mode is followed by a comma.
fn is_plain(text: &[u8], lexemes: &[Lexeme]) -> bool
    ensures { result ≡ spec.is_plain text.now lexemes.now }
{
    let mut left = lexemes;
    while let [lexeme, behind @ ..] = left {
        if text_of(text, lexeme) == b"streams".as_slice() || is_counted(text, lexeme, behind) {
            return false;
        }
        left = behind;
    }
    true
}

/// Whether the slices of the lexemes are in the order of the text and don't overlap.
fn is_in_order(text: &[u8], lexemes: &[Lexeme]) -> bool
    ensures { result ≡ spec.is_in_order text.now 0 lexemes.now }
{
    let mut left = lexemes;
    let mut at = 0;
    while let [lexeme, behind @ ..] = left {
        let from = lexeme.from as usize;
        if from < at || lexeme.to < lexeme.from {
            return false;
        }
        at = lexeme.to as usize;
        left = behind;
    }
    at <= text.len()
}

/// Whether a cheap test shows that a text has no form.
pub(crate) fn has_no_form(text: &[u8], lexemes: &[Lexeme]) -> bool
    ensures { result ≡ (spec.is_plain text.now lexemes.now && spec.is_in_order text.now 0 lexemes.now) }
{
    is_plain(text, lexemes) && is_in_order(text, lexemes)
}
