//! Tests of the lexemes at a position of a text.

ghost use Rattle.std.specs.Prelude.{◌≡◌, Ok, take, drop, slice_range};
ghost use Rattle.stream_arrays.specs.Answers.{Gives};
ghost use Rattle.stream_arrays.specs.Standing as spec;
ghost use Rattle.stream_arrays.specs.Words as words;

use crate::fault::ArrayRefusal;
use std::alloc::Global;
use tapa_parse_expression::{Fault, Parser, is_name, terminal_of, text_of};
use tapa_syntax::{Lexeme, Terminal};

/// Whether a lexeme has this terminal.
#[tactic(auto, unfolding(tapa_parse_expression::specs::Readers::same))]
pub(crate) fn is(text: &[u8], terminal: Terminal, lexeme: &Lexeme) -> bool
    ensures { result ≡ spec.is text.now terminal lexeme.now }
{
    terminal_of(text, lexeme) == terminal
}

/// Whether a lexeme is a name of the source.
pub(crate) fn is_named(text: &[u8], lexeme: &Lexeme) -> bool
    ensures { result ≡ spec.is_named text.now lexeme.now }
{
    is_name(terminal_of(text, lexeme))
}

/// Whether the lexemes begin with these terminals.
pub(crate) fn stand(text: &[u8], terminals: &[Terminal], lexemes: &[Lexeme]) -> bool
    ensures { result ≡ spec.stand text.now terminals.now lexemes.now }
{
    let mut wanted = terminals;
    let mut rest = lexemes;
    while let [terminal, more @ ..] = wanted {
        match rest {
            [lexeme, behind @ ..] if is(text, *terminal, lexeme) => {
                wanted = more;
                rest = behind;
            }
            _ => return false,
        }
    }
    true
}

/// Whether the lexemes end with these terminals.
pub(crate) fn stand_last(text: &[u8], terminals: &[Terminal], lexemes: &[Lexeme]) -> bool
    ensures { result ≡ spec.stand_last text.now terminals.now lexemes.now }
{
    let from = lexemes.len().saturating_sub(terminals.len());
    stand(text, terminals, &lexemes[from..])
}

/// The bytes of the first lexeme.
pub(crate) fn first_word<'a>(text: &'a [u8], lexemes: &[Lexeme]) -> &'a [u8]
    ensures { result.now ≡ spec.first_word text.now lexemes.now }
{
    match lexemes {
        [first, ..] => text_of(text, first),
        [] => &[],
    }
}

/// The lexemes after the first `count`.
pub(crate) fn behind(lexemes: &[Lexeme], count: usize) -> &[Lexeme]
    ensures { result.now ≡ drop count lexemes.now }
{
    if count <= lexemes.len() {
        &lexemes[count..]
    } else {
        &[]
    }
}

/// The first lexemes, at most `count`.
pub(crate) fn front(lexemes: &[Lexeme], count: usize) -> &[Lexeme]
    ensures { result.now ≡ take count lexemes.now }
{
    if count <= lexemes.len() {
        &lexemes[..count]
    } else {
        lexemes
    }
}

/// How many lexemes the type at the start has, in its longest reading.
pub(crate) fn type_size(
    alloc: Global,
    text: &[u8],
    lexemes: &[Lexeme],
) -> Result<Option<usize>, ArrayRefusal>
    ensures { Gives (λ size. size) result (Ok (spec.type_size text.now lexemes.now)) }
{
    let mut parser = Parser::new(alloc, text, lexemes);
    match parser.kind() {
        Ok(_) => Ok(Some(lexemes.len().saturating_sub(parser.left()))),
        Err(Fault::Refused(_)) => Ok(None),
        Err(Fault::OutOfMemory) => Err(ArrayRefusal::OutOfMemory),
    }
}

/// The bytes from one index of the text to another.
pub(crate) fn slice(text: &[u8], from: usize, to: usize) -> &[u8]
    ensures { result.now ≡ slice_range text.now from to }
{
    let to = to.min(text.len());
    if from <= to { &text[from..to] } else { &[] }
}

/// The bytes from an index of the text on.
pub(crate) fn text_behind(text: &[u8], from: usize) -> &[u8]
    ensures { result.now ≡ drop from text.now }
{
    if from <= text.len() {
        &text[from..]
    } else {
        &[]
    }
}

/// The index where the last of some lexemes ends, or `at` where there is none.
pub(crate) fn end_of(at: usize, lexemes: &[Lexeme]) -> usize
    ensures { result ≡ words.end_of at lexemes.now }
{
    let mut end = at;
    let mut left = lexemes;
    while let [first, behind @ ..] = left {
        end = first.to as usize;
        left = behind;
    }
    end
}

/// The bytes from the first lexeme's beginning to the last one's end.
pub(crate) fn span<'a>(text: &'a [u8], lexemes: &[Lexeme]) -> &'a [u8]
    ensures { result.now ≡ slice_range text.now (words.start_of lexemes.now) (words.end_of 0 lexemes.now) }
{
    match lexemes {
        [first, ..] => slice(text, first.from as usize, end_of(0, lexemes)),
        [] => &[],
    }
}
