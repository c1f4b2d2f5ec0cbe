//! Counted invokes, `.invoke<tapa::M, N>(..)`.

ghost use Rattle.std.specs.Prelude.{◌≡◌, ◌++◌, suc, None, OnOk, IfErr, option_map, drop, map, length};
ghost use Rattle.stream_arrays.specs.Answers.{Gives};
ghost use Rattle.stream_arrays.specs.Forms as spec;
ghost use Rattle.stream_arrays.specs.Reading.{adding, known, invocation_of, Steps};
ghost use Rattle.stream_arrays.specs.Words as words;
ghost use Rattle.stream_arrays.specs.Written as written;
ghost use Rattle.stream_arrays.specs.Writing.{writing, said, said_word};
ghost use Rattle.stream_arrays.specs.declared.piece.Piece.TheVariants.{Word};

use crate::element::{element_in, index_in};
use crate::fault::{ArrayCode, ArrayRefusal, refused};
use crate::number::may_count;
use crate::piece::Piece;
use crate::scope::{Scope, array_at, count_in, without_arrays};
use crate::standing::{behind, first_word, front, is, span, stand};
use crate::writer::Writer;
use std::alloc::Global;
use tapa_parse_expression::text_of;
use tapa_syntax::{Lexeme, Terminal};

/// How many lexemes a counted invoke has before its arguments.
const HEAD: usize = 10;

/// A counted invoke at the start of some lexemes: its count, and the lexemes between its parentheses.
#[derive(Clone, Copy)]
pub(crate) struct Invocation<'a> {
    count: Lexeme,
    inside: &'a [Lexeme],
}

pub(crate) fn is_mode(word: &[u8]) -> bool
    ensures { result ≡ spec.is_mode word.now }
{
    word == b"join".as_slice() || word == b"detach".as_slice()
}

fn first_may_count(text: &[u8], lexemes: &[Lexeme]) -> bool
    ensures { result ≡ spec.first_may_count text.now lexemes.now }
{
    match lexemes {
        [first, ..] => may_count(text, first),
        [] => false,
    }
}

fn begins_invocation(text: &[u8], lexemes: &[Lexeme]) -> bool
    ensures { result ≡ spec.begins_invocation text.now lexemes.now }
{
    let head = [
        Terminal::Dot,
        Terminal::Invoke,
        Terminal::Less,
        Terminal::Tapa,
        Terminal::Scope,
    ];
    stand(text, &head, lexemes)
        && is_mode(first_word(text, behind(lexemes, 5)))
        && stand(text, &[Terminal::Comma], behind(lexemes, 6))
        && first_may_count(text, behind(lexemes, 7))
        && stand(
            text,
            &[Terminal::Greater, Terminal::LeftParen],
            behind(lexemes, 8),
        )
}

/// The counted invoke at the start, if there is one; `closing` is the number of lexemes between its parentheses.
pub(crate) fn find_invocation<'a>(
    text: &[u8],
    lexemes: &'a [Lexeme],
    closing: Option<usize>,
) -> Option<Invocation<'a>>
    requires { closing ≡ spec.inside_size text.now 0 (drop 10 lexemes.now) }
    ensures { option_map invocation_of result ≡ spec.invocation text.now lexemes.now }
{
    if !begins_invocation(text, lexemes) {
        return None;
    }
    match (lexemes.get(7), closing) {
        (Some(count), Some(size)) => Some(Invocation {
            count: *count,
            inside: front(behind(lexemes, HEAD), size),
        }),
        _ => None,
    }
}

/// How many lexemes an argument has: it ends before a comma outside of parentheses.
fn argument_size(text: &[u8], lexemes: &[Lexeme]) -> usize
    ensures { result ≡ spec.argument_size text.now 0 lexemes.now }
{
    let mut level: usize = 0;
    for at in 0..lexemes.len() {
        let lexeme = &lexemes[at];
        if is(text, Terminal::Comma, lexeme) && level == 0 {
            return at;
        }
        if is(text, Terminal::RightParen, lexeme) {
            level = level.saturating_sub(1);
        } else if is(text, Terminal::LeftParen, lexeme) {
            level += 1;
        }
    }
    lexemes.len()
}

/// An argument that is one name of an array: the name and the array's length.
fn whole_array(text: &[u8], scope: &Scope, argument: &[Lexeme]) -> Option<u64>
    ensures { result ≡ written.whole_array text.now (known scope.now) argument.now }
{
    match argument {
        [name] => array_at(text, &scope.arrays, &[], name),
        _ => None,
    }
}

fn push_words(pieces: &mut Vec<Piece>, lexemes: &[Lexeme]) -> Result<(), ArrayRefusal>
    ensures ok { OnOk result (pieces.new.items ≡ pieces.old.items ++ map Word lexemes.now) }
    ensures err { IfErr result (λ e. e ≡ ArrayRefusal.OutOfMemory) }
{
    for lexeme in lexemes {
        pieces.push(Piece::Word(*lexeme))?;
    }
    Ok(())
}

/// An argument that is no array: an element of one, or its own words.
fn push_other(
    text: &[u8],
    scope: &Scope,
    argument: &[Lexeme],
    pieces: &mut Vec<Piece>,
) -> Result<(), ArrayRefusal>
    ensures { Gives (λ u. pieces.new.items) result (adding pieces.old.items (written.by_array text.now (known scope.now) 0 argument.now None)) }
{
    if let [name, _, _, _] = argument
        && let Some((length, index)) = element_in(text, scope, argument)
    {
        let index = index_in(name.place, length, index)?;
        pieces.push(Piece::Element(*name, index))?;
        return Ok(());
    }
    without_arrays(text, &scope.arrays, argument)?;
    push_words(pieces, argument)
}

/// The pieces of an argument of a counted invoke.
fn push_argument(
    text: &[u8],
    scope: &Scope,
    count: u64,
    argument: &[Lexeme],
    pieces: &mut Vec<Piece>,
) -> Result<(), ArrayRefusal>
    ensures { Gives (λ u. pieces.new.items) result (adding pieces.old.items (written.argument_pieces text.now (known scope.now) count argument.now)) }
{
    if let [name] = argument
        && let Some(length) = whole_array(text, scope, argument)
    {
        if length != count {
            return Err(refused(ArrayCode::A2, name.place));
        }
        pieces.push(Piece::Instance(*name))?;
        return Ok(());
    }
    push_other(text, scope, argument, pieces)
}

/// The pieces of all arguments, with commas.
fn push_arguments(
    text: &[u8],
    scope: &Scope,
    count: u64,
    inside: &[Lexeme],
    pieces: &mut Vec<Piece>,
) -> Result<(), ArrayRefusal>
    ensures { Gives (λ u. pieces.new.items) result (written.pieces_from text.now (known scope.now) count (suc (length inside.now)) pieces.old.items inside.now) }
{
    let mut rest = inside;
    for turn in 0..inside.len() + 1 {
        let size = argument_size(text, rest);
        push_argument(text, scope, count, front(rest, size), pieces)?;
        if size >= rest.len() {
            return Ok(());
        }
        pieces.push(Piece::Comma)?;
        rest = behind(rest, size + 1);
    }
    Ok(())
}

fn invocation_pieces(
    alloc: Global,
    text: &[u8],
    scope: &Scope,
    lexemes: &[Lexeme],
    inside: &[Lexeme],
    count: u64,
) -> Result<Vec<Piece>, ArrayRefusal>
    ensures { Gives (λ v. v.items) result (written.invocation_pieces text.now (known scope.now) lexemes.now inside.now count) }
{
    let mut pieces = Vec::new(alloc);
    push_words(&mut pieces, front(lexemes, 6))?;
    push_words(&mut pieces, front(behind(lexemes, 8), 2))?;
    push_arguments(text, scope, count, inside, &mut pieces)?;
    push_words(&mut pieces, front(behind(lexemes, HEAD + inside.len()), 1))?;
    Ok(pieces)
}

fn write_piece(
    text: &[u8],
    number: u64,
    piece: &Piece,
    out: &mut Writer,
) -> Result<(), ArrayRefusal>
    ensures ok { OnOk result (writing out.new ≡ said_word (writing out.old) (words.piece_word text.now number piece.now)) }
    ensures err { IfErr result (λ e. e ≡ ArrayRefusal.OutOfMemory) }
{
    match piece {
        Piece::Word(lexeme) => out.word(text_of(text, lexeme))?,
        Piece::Comma => out.word(b",")?,
        Piece::Instance(name) => out.element(text_of(text, name), number)?,
        Piece::Element(name, index) => out.element(text_of(text, name), *index)?,
    }
    Ok(())
}

fn write_invoke(
    text: &[u8],
    number: u64,
    pieces: &[Piece],
    out: &mut Writer,
) -> Result<(), ArrayRefusal>
    ensures ok { OnOk result (writing out.new ≡ said (writing out.old) (map (words.piece_word text.now number) pieces.now)) }
    ensures err { IfErr result (λ e. e ≡ ArrayRefusal.OutOfMemory) }
{
    for piece in pieces {
        write_piece(text, number, piece, out)?;
    }
    Ok(())
}

fn write_invokes(
    text: &[u8],
    count: u64,
    pieces: &[Piece],
    out: &mut Writer,
) -> Result<(), ArrayRefusal>
    ensures ok { OnOk result (writing out.new ≡ said (writing out.old) (words.invoke_words text.now pieces.now count)) }
    ensures err { IfErr result (λ e. e ≡ ArrayRefusal.OutOfMemory) }
{
    for number in 0..count {
        if out.is_full() {
            return Ok(());
        }
        write_invoke(text, number, pieces, out)?;
    }
    Ok(())
}

/// Writes out the counted invoke at the start of these lexemes, and returns how many lexemes it has.
pub(crate) fn write_invocation(
    alloc: Global,
    text: &[u8],
    lexemes: &[Lexeme],
    invocation: Invocation<'_>,
    scope: &Scope,
    out: &mut Writer,
) -> Result<usize, ArrayRefusal>
    ensures { Steps result scope.now out.old out.new (written.invocation_step text.now (known scope.now) lexemes.now (invocation_of invocation.entry)) }
{
    let count = count_in(text, scope, &invocation.count)?;
    let inside = invocation.inside;
    let pieces = invocation_pieces(alloc, text, scope, lexemes, inside, count)?;
    let size = HEAD + inside.len() + 1;
    out.begin();
    write_invokes(text, count, &pieces, out)?;
    out.line_feeds(span(text, front(lexemes, size)))?;
    Ok(size)
}
