//! The words of a whole text.

ghost use Rattle.std.specs.Prelude.{◌≡◌, ◌≤◌, ◌<◌, ◌-◌, ◌^◌, ◌++◌, length, take, IfOk, OnOk};
ghost use Rattle.tapa_syntax.specs.Characters.{place_of};
ghost use Rattle.vlog_lex.specs.Scanned.{IsScan, put_slice};

use crate::cut::{Sort, cut};
use std::alloc::{AllocError, Global};
use tapa_base::Place;

/// A word: the bytes of the text from one index up to another.
#[derive(Clone, Copy, PartialEq, Eq, Debug)]
pub struct Lexeme {
    pub from: u32,
    pub to: u32,
}

/// The words of a text, and the position of the first byte that begins no word and no gap: that after the last byte, where there is
/// none. A comment that is left open is no gap.
#[derive(Drop)]
pub struct Words {
    pub lexemes: Vec<Lexeme>,
    pub end: u32,
}

/// The words of a text, up to the first byte that begins none. No byte is copied, and the work grows with the length of the
/// text.
pub fn scan(alloc: Global, text: &[u8]) -> Result<Words, AllocError>
    requires { length text.now < 2 ^ 32 - 1 }
    ensures { IfOk result (λ s. IsScan text.now s.lexemes.items s.end) }
{
    let mut lexemes = Vec::new(alloc);
    let mut at: u32 = 0;
    'pieces: while (at as usize) < text.len() {
        let rest = &text[at as usize..];
        let (sort, length) = match cut(rest) {
            Some(piece) => piece,
            None => return Ok(Words { lexemes, end: at }),
        };
        let next = at + length as u32;
        put(&mut lexemes, sort, at, next)?;
        at = next;
    }
    Ok(Words { lexemes, end: at })
}

/// Puts the word between two indices at the end. A gap is none.
fn put(lexemes: &mut Vec<Lexeme>, sort: Sort, from: u32, to: u32) -> Result<(), AllocError>
    ensures { OnOk result (lexemes.new.items ≡ put_slice lexemes.old.items sort from to) }
{
    if let Sort::Word = sort {
        lexemes.push(Lexeme { from, to })?;
    }
    Ok(())
}

/// The place, from 1:1 on, of the byte at an offset.
pub fn place_at(text: &[u8], at: u32) -> Place
    requires within { at ≤ length text.now }
    requires few { length text.now < 2 ^ 32 - 1 }
    ensures { result ≡ place_of (take at text.now) }
{
    let before = &text[..at as usize];
    let mut line = 1;
    let mut col = 1;
    for turn in 0..before.len() {
        if before[turn] == b'\n' {
            line += 1;
            col = 1;
        } else {
            col += 1;
        }
    }
    Place { line, col }
}
