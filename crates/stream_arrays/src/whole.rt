//! The text in which stream arrays and counted invokes are written out.

ghost use Rattle.std.specs.Prelude.{◌≡◌, ◌≤◌, ◌<◌, ◌^◌, List, drop, length, IfOk, Ok};
ghost use Rattle.tapa_base.specs.Gaps.{Bytes};
ghost use Rattle.tapa_syntax.specs.declared.lexeme.Lexeme.{Lexeme};
ghost use Rattle.stream_arrays.specs.Answers.{Gives};
ghost use Rattle.stream_arrays.specs.Forms.{inside_size};
ghost use Rattle.stream_arrays.specs.Reading.{AreClosings};
ghost use Rattle.stream_arrays.specs.Writing.{writing, more};
ghost use Rattle.stream_arrays.specs.Written.{and_then, whole, written_out, most};

use crate::closing::{closings, next_closing};
use crate::fault::{ArrayCode, ArrayRefusal, refused};
use crate::plain::has_no_form;
use crate::scope::Scope;
use crate::standing::{behind, end_of, front, slice, text_behind};
use crate::step::write_form;
use crate::writer::{MOST, Writer};
use std::alloc::Global;
use tapa_base::Place;
use tapa_syntax::Lexeme;

/// How many lexemes from the eleventh on, counted from index `at`, come before the parenthesis that closes the innermost open one.
fn closing_behind(closings: &[Option<usize>], at: usize) -> Option<usize>
    requires { at < 2 ^ 63 }
    ensures { (text : Bytes) (lexemes : List Lexeme) → AreClosings text lexemes closings.now → result ≡ inside_size text 0 (drop 10 (drop at lexemes)) }
{
    next_closing(closings, at + 10)
}

/// Writes all lexemes of a text, one form after another.
fn write_forms(
    alloc: Global,
    text: &[u8],
    lexemes: &[Lexeme],
    closings: &[Option<usize>],
    out: &mut Writer,
) -> Result<(), ArrayRefusal>
    requires { AreClosings text.now lexemes.now closings.now }
    ensures { Gives (λ u. (writing out.new).text) result (and_then (whole text.now lexemes.now) (λ t. Ok (more (writing out.old).text t))) }
{
    let mut scope = Scope::new(alloc);
    let mut at: usize = 0;
    let mut end: usize = 0;
    for turn in 0..lexemes.len() {
        let rest = behind(lexemes, at);
        let [first, ..] = rest else {
            out.put(text_behind(text, end))?;
            return Ok(());
        };
        out.put(slice(text, end, first.from as usize))?;
        let closing = closing_behind(closings, at);
        let before = front(lexemes, at);
        let size = write_form(alloc, text, before, rest, closing, &mut scope, out)?;
        end = end_of(end, front(rest, size));
        at += size.min(rest.len());
    }
    out.put(text_behind(text, end))?;
    Ok(())
}

/// The text in which the stream arrays and the counted invokes of a text are written out, where these are its lexemes. The work
/// grows with the length of the text and of what is written.
///
/// `tapa::streams<int, 2> s;` becomes `tapa :: stream < int > s_0 , s_1 ;`.
pub fn write_out(alloc: Global, lexemes: &[Lexeme], text: &[u8]) -> Result<Vec<u8>, ArrayRefusal>
    // The text is the one that is meant, or the refusal is the first one; want of memory says nothing.
    ensures written { Gives (λ v. v.items) result (written_out text.now lexemes.now) }
    ensures within { IfOk result (λ v. length v.items ≤ most) }
{
    if text.len() <= MOST && has_no_form(text, lexemes) {
        return Ok(text.to_vec(alloc)?);
    }
    let table = closings(alloc, text, lexemes)?;
    let mut out = Writer::new(alloc);
    write_forms(alloc, text, lexemes, &table, &mut out)?;
    match out.finish() {
        Some(bytes) => Ok(bytes),
        None => Err(refused(ArrayCode::A4, Place { line: 1, col: 1 })),
    }
}
