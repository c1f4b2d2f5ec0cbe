//! The piece that a text begins with.

ghost use Rattle.std.specs.Prelude.{◌≡◌, ◌+◌, ◌<◌, ◌≤◌, ◌^◌, length, drop, IfSome};
ghost use Rattle.vlog_lex.specs.Lexemes as lexemes;
ghost use Rattle.tapa_syntax.specs.Comments.{closing};
ghost use Rattle.vlog_lex.specs.Reading as reading;

use crate::class::{Class, base_of, run, starts_name};
use tapa_syntax::{byte, closing, is_blank};

/// What a piece is.
#[derive(Clone, Copy)]
pub enum Sort {
    /// A blank or a comment.
    Gap,
    Word,
}

/// The piece that comes first, and how many bytes it has. None comes where a byte begins no word, and where a comment is left
/// open.
#[tactic(auto, unfolding(crate::specs::Reading::cut))]
pub fn cut(text: &[u8]) -> Option<(Sort, usize)>
    requires { 0 < length text.now }
    ensures { result ≡ reading.cut text.now }
{
    let first = byte(text, 0);
    if is_blank(first) {
        Some((Sort::Gap, 1))
    } else if starts_name(first) {
        Some((Sort::Word, run(Class::Name, text)))
    } else if Class::DigitOf(10).has(first) {
        Some((Sort::Word, number_length(text)))
    } else {
        cut_mark(text)
    }
}

/// The bytes that turn a number before them into a literal: `'`, the letter of a base, and a digit of it.
fn makes_literal(text: &[u8]) -> bool
    ensures { result ≡ lexemes.makes_literal text.now }
{
    match text {
        [quote, letter, digit, ..] => {
            *quote == b'\'' && Class::DigitOf(base_of(*letter)).has(*digit)
        }
        _ => false,
    }
}

/// How many bytes a number has, or the literal of which it is the size.
#[tactic(auto, unfolding(crate::specs::Reading::number_length))]
fn number_length(text: &[u8]) -> usize
    requires { 0 < length text.now }
    ensures { result ≡ reading.number_length text.now }
{
    let size = run(Class::DigitOf(10), text);
    let behind = &text[size..];
    if !makes_literal(behind) {
        return size;
    }
    let base = base_of(byte(behind, 1));
    size + 2 + run(Class::DigitOf(base), &behind[2..])
}

#[tactic(auto, unfolding(crate::specs::Reading::cut_mark))]
fn cut_mark(text: &[u8]) -> Option<(Sort, usize)>
    requires { 0 < length text.now }
    ensures { result ≡ reading.cut_mark text.now }
{
    let (b, c) = (byte(text, 0), byte(text, 1));
    if b == b'/' && c == b'/' {
        return Some((Sort::Gap, run(Class::InLine, text)));
    }
    if b == b'/' && c == b'*' {
        return cut_comment(&text[2..]);
    }
    match sign_length(b, c) {
        0 => None,
        length => Some((Sort::Word, length)),
    }
}

/// A comment whose mark is passed.
fn cut_comment(body: &[u8]) -> Option<(Sort, usize)>
    requires { 2 + length body.now < 2 ^ 63 }
    ensures { result ≡ reading.cut_comment (closing body.now) }
{
    match closing(body) {
        Some(length) => Some((Sort::Gap, length + 2)),
        None => None,
    }
}

/// How many bytes of these are the longest sign, and 0 where none of them begins one.
#[tactic(auto, unfolding(crate::specs::Reading::sign_length))]
fn sign_length(b: u8, c: u8) -> usize
    ensures { result ≡ reading.sign_length b c }
{
    if is_pair(b, c) {
        2
    } else if b"()[]{};:,.=+-*/%&|^~?<@".contains(&b) {
        1
    } else {
        0
    }
}

fn is_pair(b: u8, c: u8) -> bool
    ensures { result ≡ reading.is_pair b c }
{
    b == c && b"<>=".contains(&b) || c == b'=' && b"<!".contains(&b)
}
