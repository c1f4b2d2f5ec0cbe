//! The lexemes of a text.

ghost use Rattle.std.specs.Prelude.{◌≡◌, ◌<◌, ◌^◌, ◌-◌, ◌++◌, List, length, IfOk, IfErr, OnOk};
ghost use Rattle.std.specs.List.{AllByRecursion};
ghost use Rattle.tapa_base.specs.declared.text.Place.{Place};
ghost use Rattle.tapa_syntax.specs.declared.lexeme.Lexeme.{Lexeme};
ghost use Rattle.tapa_syntax.specs.Lexemes.{HasLexemes, IsSliceOf, InOrder};
ghost use Rattle.tapa_lex.specs.Refusals.{IsLexCause, IsRefused, LexerAnswers, Refuses};
ghost use Rattle.tapa_lex.specs.Standing.{spanned};
ghost use Rattle.tapa_lex.specs.declared.fault.LexCode.{LexCode};

use crate::cursor::Cursor;
use crate::cut::cut;
use crate::fault::{LexCode, LexFault};
use std::alloc::Global;
use tapa_syntax::{LexKind, Lexeme};

/// The lexemes of a source, or the first place at which it has none. No byte is read again for a place, so the work
/// grows with the length of the text.
pub fn lex(alloc: Global, text: &[u8]) -> Result<Vec<Lexeme>, LexFault>
    requires { length text.now < 2 ^ 32 - 1 }
    // The result is the lexemes of the text, each with its slice, its place and a value of its kind.
    ensures found { IfOk result (λ v. HasLexemes text.now v.items) }
    ensures slices { IfOk result (λ v. AllByRecursion (IsSliceOf text.now) v.items) }
    ensures in_order { IfOk result (λ v. InOrder 0 v.items) }
    // A refusal reports the first place at which the text has no piece, and what was begun there.
    ensures refused { IfErr result (IsLexCause text.now) }
    // A text that has lexemes gets them, and one that is refused is reported as such, unless memory runs out.
    ensures only { (lexemes : List Lexeme) → HasLexemes text.now lexemes → LexerAnswers result lexemes }
    ensures always { (code : LexCode) (place : Place) → IsRefused text.now code place → Refuses result code place }
{
    let mut found = Vec::new(alloc);
    let mut cursor = Cursor::start();
    'pieces: while (cursor.at as usize) < text.len() {
        let rest = &text[cursor.at as usize..];
        let (sort, len) = match cut(cursor.opens, rest) {
            Ok(piece) => piece,
            Err(code) => return Err(LexFault::At {
                code,
                place: cursor.place,
            }),
        };
        let next = cursor.past_all(&rest[..len]);
        put(&mut found, sort, cursor, next)?;
        cursor = next;
    }
    Ok(found)
}

/// Appends the lexeme between two cursors. A gap is none.
fn put(
    found: &mut Vec<Lexeme>,
    sort: Option<LexKind>,
    from: Cursor,
    to: Cursor,
) -> Result<(), LexFault>
    ensures ok { OnOk result (found.new.items ≡ found.old.items ++ spanned sort from to) }
    ensures err { IfErr result (λ e. e ≡ LexFault.OutOfMemory) }
{
    if let Some(kind) = sort {
        found.push(Lexeme {
            kind,
            from: from.at,
            to: to.at,
            place: from.place,
        })?;
    }
    Ok(())
}
