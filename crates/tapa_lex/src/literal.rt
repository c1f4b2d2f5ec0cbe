//! Integer literals.

ghost use Rattle.std.specs.Prelude.{◌≡◌, ◌+◌, ◌*◌, ◌<◌, ◌≤◌, ◌^◌, ◌==◌, length, SomeIff};
ghost use Rattle.tapa_syntax.specs.Literals as literals;

use crate::class::{Class, run, worth};
use tapa_base::Kind;
use tapa_syntax::byte;

/// The letters of a suffix.
type Suffix = (bool, bool);

/// The kind and the value of a word that is a literal, where some kind holds its value.
#[tactic(auto, unfolding(tapa_syntax::specs::Literals::literal_of))]
pub fn literal(word: &[u8]) -> Option<(Kind, u64)>
    ensures { result ≡ literals.literal_of word.now }
{
    let base = base_of(word);
    let body = behind_mark(word, base);
    let len = run(Class::DigitOf(base), body);
    if len == 0 {
        return None;
    }
    let (digits, rest) = body.split_at(len);
    let suffix = suffix_of(rest)?;
    let Some(value) = value_of(base, digits) else {
        return None;
    };
    let kind = first_that_holds(value, base == 10, suffix)?;
    Some((kind, value))
}

fn base_of(word: &[u8]) -> u64
    ensures value { result ≡ literals.base_of word.now }
    ensures some { 0 < result }
{
    if byte(word, 0) != b'0' {
        return 10;
    }
    match byte(word, 1) {
        b'x' | b'X' => 16,
        b'b' | b'B' => 2,
        _ => 8,
    }
}

/// The digits and the suffix, without `0x` or `0b`.
fn behind_mark(word: &[u8], base: u64) -> &[u8]
    requires { base ≡ literals.base_of word.now }
    ensures { result.now ≡ literals.behind_mark word.now }
{
    if base == 16 || base == 2 {
        &word[2..]
    } else {
        word
    }
}

/// The value of digits, where it is below 2^64.
#[tactic(auto, unfolding(tapa_syntax::specs::Literals::value_behind))]
fn value_of(base: u64, digits: &[u8]) -> Option<u64>
    requires { 0 < base }
    ensures { SomeIff result (literals.value_behind base 0 digits.now < 2 ^ 64) (literals.value_behind base 0 digits.now) }
{
    let mut value: u64 = 0;
    for b in digits {
        value = match with_digit(value, base, worth(*b)) {
            Some(next) => next,
            None => return None,
        };
    }
    Some(value)
}

/// The value with one more digit after it.
fn with_digit(value: u64, base: u64, digit: u64) -> Option<u64>
    ensures { SomeIff result (value * base + digit < 2 ^ 64) (value * base + digit) }
{
    value.checked_mul(base)?.checked_add(digit)
}

fn is_u(b: u8) -> bool
    ensures { result ≡ literals.is_u b }
{
    b == b'u' || b == b'U'
}

fn is_l(b: u8) -> bool
    ensures { result ≡ literals.is_l b }
{
    b == b'l' || b == b'L'
}

/// Whether the suffix has a `u`, and whether it has an `l` or `ll`.
#[tactic(auto, unfolding(tapa_syntax::specs::Literals::suffix_of))]
fn suffix_of(text: &[u8]) -> Option<Suffix>
    ensures { result ≡ literals.suffix_of text.now }
{
    match text {
        [] => Some((false, false)),
        [a] => suffix_of_one(*a),
        [a, b] => suffix_of_two(*a, *b),
        [a, b, c] => suffix_of_three(*a, *b, *c),
        _ => None,
    }
}

fn suffix_of_one(a: u8) -> Option<Suffix>
    ensures { result ≡ literals.suffix_of_one a }
{
    if is_u(a) {
        Some((true, false))
    } else if is_l(a) {
        Some((false, true))
    } else {
        None
    }
}

fn suffix_of_two(a: u8, b: u8) -> Option<Suffix>
    ensures { result ≡ literals.suffix_of_two a b }
{
    if is_u(a) && is_l(b) || is_l(a) && is_u(b) {
        Some((true, true))
    } else if is_l(a) && a == b {
        Some((false, true))
    } else {
        None
    }
}

fn suffix_of_three(a: u8, b: u8, c: u8) -> Option<Suffix>
    ensures { result ≡ literals.suffix_of_three a b c }
{
    if is_u(a) && is_l(b) && b == c || is_l(a) && a == b && is_u(c) {
        Some((true, true))
    } else {
        None
    }
}

/// The first kind of the row of C++'s table for these literals that has the value.
#[tactic(auto, unfolding(tapa_syntax::specs::Literals::first_that_holds))]
fn first_that_holds(value: u64, decimal: bool, suffix: Suffix) -> Option<Kind>
    ensures { result ≡ literals.first_that_holds value (literals.kinds_for decimal suffix) }
{
    let kinds: &[Kind] = match (decimal, suffix) {
        (_, (true, true)) => &[Kind::U64],
        (_, (true, false)) => &[Kind::U32, Kind::U64],
        (true, (false, true)) => &[Kind::I64],
        (false, (false, true)) => &[Kind::I64, Kind::U64],
        (true, (false, false)) => &[Kind::I32, Kind::I64],
        (false, (false, false)) => &[Kind::I32, Kind::U32, Kind::I64, Kind::U64],
    };
    first_of(value, kinds)
}

#[tactic(auto, unfolding(tapa_syntax::specs::Literals::first_that_holds))]
fn first_of(value: u64, kinds: &[Kind]) -> Option<Kind>
    ensures { result ≡ literals.first_that_holds value kinds.now }
{
    for kind in kinds {
        if holds(*kind, value) {
            return Some(*kind);
        }
    }
    None
}

fn holds(kind: Kind, value: u64) -> bool
    ensures { result ≡ literals.holds kind value }
{
    match kind {
        Kind::Bool => value <= 1,
        Kind::I8 => value < 1 << 7,
        Kind::U8 => value < 1 << 8,
        Kind::I16 => value < 1 << 15,
        Kind::U16 => value < 1 << 16,
        Kind::I32 => value < 1 << 31,
        Kind::U32 => value < 1 << 32,
        Kind::I64 => value < 1 << 63,
        Kind::U64 => true,
    }
}
