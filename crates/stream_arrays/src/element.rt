//! Elements of arrays, `name[k]`.

ghost use Rattle.std.specs.Prelude.{◌≡◌, OnOk, IfErr};
ghost use Rattle.stream_arrays.specs.Answers.{Gives};
ghost use Rattle.stream_arrays.specs.Reading.{known, Steps};
ghost use Rattle.stream_arrays.specs.Words.{element_words};
ghost use Rattle.stream_arrays.specs.Writing.{writing, said};
ghost use Rattle.stream_arrays.specs.Written as spec;

use crate::fault::{ArrayCode, ArrayRefusal, refused};
use crate::number::number_of;
use crate::scope::{Scope, array_at};
use crate::standing::{behind, front, is, span, stand, stand_last};
use crate::writer::Writer;
use tapa_base::Place;
use tapa_parse_expression::text_of;
use tapa_syntax::{Lexeme, Terminal};

/// The number that an index is, where it is no name of an array.
fn index_of(text: &[u8], scope: &Scope, index: &Lexeme) -> Option<u64>
    ensures { result ≡ spec.index_of text.now (known scope.now) index.now }
{
    if array_at(text, &scope.arrays, &[], index).is_some() {
        None
    } else {
        number_of(text, &scope.constants, index)
    }
}

/// The length and the index, where the lexemes begin with the name of an array and a number in brackets.
pub(crate) fn element_in(text: &[u8], scope: &Scope, lexemes: &[Lexeme]) -> Option<(u64, u64)>
    ensures { result ≡ spec.element_in text.now (known scope.now) lexemes.now }
{
    let [name, open, index, close, ..] = lexemes else {
        return None;
    };
    if !is(text, Terminal::LeftBracket, open) || !is(text, Terminal::RightBracket, close) {
        return None;
    }
    let length = array_at(text, &scope.arrays, &[], name)?;
    let number = index_of(text, scope, index)?;
    Some((length, number))
}

/// An index below the length; any other is refused with A3.
pub(crate) fn index_in(place: Place, length: u64, index: u64) -> Result<u64, ArrayRefusal>
    ensures { Gives (λ k. k) result (spec.index_in place (length, index)) }
{
    if index < length {
        Ok(index)
    } else {
        Err(refused(ArrayCode::A3, place))
    }
}

/// Where the first lexeme is; 0:0 where there is none.
fn first_place(lexemes: &[Lexeme]) -> Place
    ensures { result ≡ spec.first_place lexemes.now }
{
    match lexemes {
        [first, ..] => first.place,
        [] => Place { line: 0, col: 0 },
    }
}

fn in_invoke(opened: &[bool]) -> bool
    ensures { result ≡ spec.in_invoke opened.now }
{
    match opened {
        [.., last] => *last,
        [] => false,
    }
}

/// An argument of an invoke begins after these lexemes.
fn begins_argument(text: &[u8], scope: &Scope, before: &[Lexeme]) -> bool
    ensures { result ≡ spec.begins_argument text.now (known scope.now) before.now }
{
    (stand_last(text, &[Terminal::LeftParen], before)
        || stand_last(text, &[Terminal::Comma], before))
        && in_invoke(&scope.opened)
}

/// An argument ends before these lexemes.
fn ends_argument(text: &[u8], lexemes: &[Lexeme]) -> bool
    ensures { result ≡ spec.ends_argument text.now lexemes.now }
{
    stand(text, &[Terminal::Comma], lexemes) || stand(text, &[Terminal::RightParen], lexemes)
}

/// The length and the index of the element of an array at the start, where it is an argument of an invoke.
pub(crate) fn argument_element(
    text: &[u8],
    scope: &Scope,
    before: &[Lexeme],
    lexemes: &[Lexeme],
) -> Option<(u64, u64)>
    ensures { result ≡ spec.argument_element text.now (known scope.now) before.now lexemes.now }
{
    if begins_argument(text, scope, before) && ends_argument(text, behind(lexemes, 4)) {
        element_in(text, scope, lexemes)
    } else {
        None
    }
}

fn write_name(
    text: &[u8],
    lexemes: &[Lexeme],
    index: u64,
    out: &mut Writer,
) -> Result<(), ArrayRefusal>
    ensures ok { OnOk result (writing out.new ≡ said (writing out.old) (element_words text.now lexemes.now index)) }
    ensures err { IfErr result (λ e. e ≡ ArrayRefusal.OutOfMemory) }
{
    let [name, ..] = lexemes else {
        return Ok(());
    };
    out.element(text_of(text, name), index)?;
    Ok(())
}

/// Writes out the element at the start of these lexemes, and returns how many lexemes it has.
pub(crate) fn write_element(
    text: &[u8],
    lexemes: &[Lexeme],
    scope: &Scope,
    length: u64,
    index: u64,
    out: &mut Writer,
) -> Result<usize, ArrayRefusal>
    ensures { Steps result scope.now out.old out.new (spec.element_step text.now (known scope.now) lexemes.now (length, index)) }
{
    let index = index_in(first_place(lexemes), length, index)?;
    out.begin();
    write_name(text, lexemes, index, out)?;
    out.line_feeds(span(text, front(lexemes, 4)))?;
    Ok(4)
}
