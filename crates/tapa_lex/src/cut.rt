//! The piece that a text begins with.

ghost use Rattle.std.specs.Prelude.{◌≡◌, ◌+◌, ◌<◌, ◌≤◌, ◌^◌, length, drop, IfOk, IfSome};
ghost use Rattle.tapa_syntax.specs.Comments.{closing};
ghost use Rattle.tapa_lex.specs.Reading as reading;

use crate::class::{Class, is_digit, is_letter, run};
use crate::fault::LexCode;
use crate::literal::literal;
use tapa_syntax::{LexKind, byte, closing, is_blank};

/// The kind of a lexeme, or none for a gap, and how many bytes it has.
type Piece = (Option<LexKind>, usize);

/// The piece that comes first, where `opens` says whether only blanks are before it in its line.
#[tactic(auto, unfolding(crate::specs::Reading::cut))]
pub fn cut(opens: bool, text: &[u8]) -> Result<Piece, LexCode>
    requires { 0 < length text.now }
    ensures { result ≡ reading.cut opens text.now }
{
    if is_blank(byte(text, 0)) {
        Ok((None, 1))
    } else {
        cut_word(opens, text)
    }
}

#[tactic(auto, unfolding(crate::specs::Reading::cut_word))]
fn cut_word(opens: bool, text: &[u8]) -> Result<Piece, LexCode>
    requires { 0 < length text.now }
    ensures { result ≡ reading.cut_word opens text.now }
{
    let first = byte(text, 0);
    if is_letter(first) {
        return Ok((Some(LexKind::Word), run(Class::Word, text)));
    }
    if is_digit(first) {
        let len = run(Class::Word, text);
        return match literal(&text[..len]) {
            Some((kind, value)) => Ok((Some(LexKind::Literal { kind, value }), len)),
            None => Err(LexCode::L3),
        };
    }
    cut_quoted(opens, text)
}

#[tactic(auto, unfolding(crate::specs::Reading::cut_quoted))]
fn cut_quoted(opens: bool, text: &[u8]) -> Result<Piece, LexCode>
    requires { 0 < length text.now }
    ensures { result ≡ reading.cut_quoted opens text.now }
{
    match byte(text, 0) {
        b'"' => cut_string(text),
        b'#' => cut_line(opens, text),
        _ => cut_mark(text),
    }
}

#[tactic(auto, unfolding(crate::specs::Reading::cut_string))]
fn cut_string(text: &[u8]) -> Result<Piece, LexCode>
    requires { 0 < length text.now }
    ensures { result ≡ reading.cut_string text.now }
{
    let len = run(Class::Plain, &text[1..]);
    if byte(text, len + 1) == b'"' {
        Ok((Some(LexKind::Str), len + 2))
    } else {
        Err(LexCode::L2)
    }
}

/// The first word of a line that begins with `#`.
#[tactic(auto, unfolding(crate::specs::Reading::first_word))]
fn first_word(text: &[u8]) -> &[u8]
    requires { 0 < length text.now }
    ensures { result.now ≡ reading.first_word text.now }
{
    let blanks = run(Class::InnerBlank, &text[1..]);
    let behind = &text[blanks + 1..];
    &behind[..run(Class::Word, behind)]
}

#[tactic(auto, unfolding(crate::specs::Reading::cut_line))]
fn cut_line(opens: bool, text: &[u8]) -> Result<Piece, LexCode>
    requires { 0 < length text.now }
    ensures { result ≡ reading.cut_line opens text.now }
{
    if !opens {
        return Err(LexCode::L1);
    }
    let word = first_word(text);
    if word == b"include".as_slice() || word == b"pragma".as_slice() {
        Ok((None, run(Class::InLine, text)))
    } else {
        Err(LexCode::L4)
    }
}

#[tactic(auto, unfolding(crate::specs::Reading::cut_mark))]
fn cut_mark(text: &[u8]) -> Result<Piece, LexCode>
    requires { 0 < length text.now }
    ensures { result ≡ reading.cut_mark text.now }
{
    let (b, c, d) = (byte(text, 0), byte(text, 1), byte(text, 2));
    if b == b'/' && c == b'/' {
        return Ok((None, run(Class::InLine, text)));
    }
    if b == b'/' && c == b'*' {
        return cut_comment(&text[2..]);
    }
    match sign_length(b, c, d) {
        0 => Err(LexCode::L1),
        len => Ok((Some(LexKind::Punct), len)),
    }
}

/// A comment whose mark is passed.
fn cut_comment(body: &[u8]) -> Result<Piece, LexCode>
    requires { 2 + length body.now < 2 ^ 63 }
    ensures { result ≡ reading.cut_comment (closing body.now) }
{
    match closing(body) {
        Some(len) => Ok((None, len + 2)),
        None => Err(LexCode::L2),
    }
}

/// How many bytes of these are the longest sign, and 0 where none of them begins one.
#[tactic(auto, unfolding(crate::specs::Reading::sign_length))]
fn sign_length(b: u8, c: u8, d: u8) -> usize
    ensures value { result ≡ reading.sign_length b c d }
{
    if b == c && d == b'=' && b"<>".contains(&b) {
        3
    } else if is_pair(b, c) {
        2
    } else if b"(){}[]<>,;:?.=+-*/%&|^~!".contains(&b) {
        1
    } else {
        0
    }
}

fn is_pair(b: u8, c: u8) -> bool
    ensures { result ≡ reading.is_pair b c }
{
    b == c && b":<>=&|+-".contains(&b) || c == b'=' && b"<>!+-*/%&|^".contains(&b)
}
