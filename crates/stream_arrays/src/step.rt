//! One form of a text.

ghost use Rattle.std.specs.Prelude.{◌≡◌, ◌+◌, ◌<◌, ◌≤◌, ◌^◌, drop, OnOk};
ghost use Rattle.stream_arrays.specs.Forms.{inside_size};
ghost use Rattle.stream_arrays.specs.Reading.{known, Steps};
ghost use Rattle.stream_arrays.specs.Written as spec;

use crate::counted::{find_invocation, write_invocation};
use crate::declaration::{find_declaration, write_declaration};
use crate::element::{argument_element, write_element};
use crate::fault::{ArrayCode, ArrayRefusal, refused};
use crate::scope::{Scope, array_at};
use crate::writer::Writer;
use std::alloc::Global;
use tapa_parse_expression::text_of;
use tapa_syntax::Lexeme;

/// A lexeme of no form.
fn write_other(
    alloc: Global,
    text: &[u8],
    before: &[Lexeme],
    lexemes: &[Lexeme],
    scope: &mut Scope,
    out: &mut Writer,
) -> Result<usize, ArrayRefusal>
    requires { scope.old.depth + 1 < 2 ^ 64 }
    ensures steps { Steps result scope.new out.old out.new (spec.other_step text.now (known scope.old) before.now lexemes.now) }
    ensures depth { OnOk result (scope.new.depth ≤ scope.old.depth + 1) }
{
    let [lexeme, behind @ ..] = lexemes else {
        return Ok(1);
    };
    if array_at(text, &scope.arrays, before, lexeme).is_some() {
        return Err(refused(ArrayCode::A3, lexeme.place));
    }
    out.put(text_of(text, lexeme))?;
    scope.pass(alloc, text, before, lexeme, behind)?;
    Ok(1)
}

/// Writes out the form at the start of `lexemes`, which follow those of `before`, and returns how many lexemes it has. `closing` is the
/// number of lexemes from the eleventh on before the parenthesis that closes the innermost open one.
pub(crate) fn write_form(
    alloc: Global,
    text: &[u8],
    before: &[Lexeme],
    lexemes: &[Lexeme],
    closing: Option<usize>,
    scope: &mut Scope,
    out: &mut Writer,
) -> Result<usize, ArrayRefusal>
    requires depth { scope.old.depth + 1 < 2 ^ 64 }
    requires closing { closing ≡ inside_size text.now 0 (drop 10 lexemes.now) }
    ensures steps { Steps result scope.new out.old out.new (spec.step text.now (known scope.old) before.now lexemes.now) }
    ensures depth { OnOk result (scope.new.depth ≤ scope.old.depth + 1) }
{
    if let Some(declaration) = find_declaration(alloc, text, lexemes)? {
        return write_declaration(alloc, text, lexemes, declaration, scope, out);
    }
    if let Some(invocation) = find_invocation(text, lexemes, closing) {
        return write_invocation(alloc, text, lexemes, invocation, scope, out);
    }
    if let Some((length, index)) = argument_element(text, scope, before, lexemes) {
        return write_element(text, lexemes, scope, length, index, out);
    }
    write_other(alloc, text, before, lexemes, scope, out)
}
