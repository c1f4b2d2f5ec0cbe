// Words that are names, numbers and literals.

ghost use Rattle.std.specs.Prelude.{◌≡◌, ◌≤◌, ◌<◌, ◌^◌, ◌+◌, ◌*◌, IfOk, min, true, SomeIff};
ghost use Rattle.std.specs.Str.Parse.{digits_value};
ghost use Rattle.vlog_tree.specs.Names.{is_name as is_name_lem};
ghost use Rattle.vlog_lex.specs.ReadNumerals as spec;

use crate::class::{Class, base_of, run, worth};
use std::alloc::{AllocError, Global};
use tapa_base::Text;
use vlog_tree::Atom;

/// The bytes of a name, in memory of their own.
pub fn name_of(alloc: Global, word: &[u8]) -> Result<Text, AllocError>
    requires { is_name_lem word.now ≡ true }
    ensures { IfOk result (λ x. x ≡ word.now) }
{
    Ok(Text::new(word.to_vec(alloc)?))
}

/// Whether these are digits of a base, one or more.
fn is_numeral(base: u32, word: &[u8]) -> bool
    ensures { result ≡ spec.is_numeral base word.now }
{
    !word.is_empty() && run(Class::DigitOf(base), word) == word.len()
}

/// Whether a word is a decimal number (IEEE 1364-2005, 3.5.1), which may begin with zeros.
pub fn is_number(word: &[u8]) -> bool
    ensures { result ≡ spec.is_number word.now }
{
    is_numeral(10, word)
}

/// The number that decimal digits write, cut at the largest that is wanted.
fn capped(digits: &[u8], most: u32) -> u32
    requires { most < 2 ^ 21 }
    ensures value { result ≡ min (digits_value 10 digits.now) most }
    ensures least { result ≤ most }
{
    let mut value: u32 = 0;
    for b in digits {
        let more = value * 10 + worth(*b);
        value = more.min(most);
    }
    value
}

/// A number of bits, cut where the rule on widths refuses all that are larger.
pub fn width_at(word: &[u8]) -> u32
    ensures { result ≡ spec.width_at word.now }
{
    capped(word, 129)
}

/// The number of bits whose last index, counted from 0, is this word; cut like any other.
pub fn width_behind(word: &[u8]) -> u32
    ensures { result ≡ spec.width_behind word.now }
{
    capped(word, 128) + 1
}

/// The number of cells whose last index, counted from 0, is this word; cut where the rule refuses all that are larger.
pub fn cells_behind(word: &[u8]) -> u32
    ensures { result ≡ spec.cells_behind word.now }
{
    capped(word, 1048576) + 1
}

/// The number with one more digit at its end, where 128 bits hold it.
fn with_digit(value: u128, base: u32, digit: u32) -> Option<u128>
    ensures { SomeIff result (value * base + digit < 2 ^ 128) (value * base + digit) }
{
    value
        .checked_mul(u128::from(base))?
        .checked_add(u128::from(digit))
}

/// The number that digits of a base write, where 128 bits hold it.
fn large(base: u32, digits: &[u8]) -> Option<u128>
    ensures { SomeIff result (digits_value base digits.now < 2 ^ 128) (digits_value base digits.now) }
{
    let mut value: u128 = 0;
    for b in digits {
        value = match with_digit(value, base, worth(*b)) {
            Some(next) => next,
            None => return None,
        };
    }
    Some(value)
}

/// A literal with this size and these digits of a base; one that no 128 bits hold is kept as one of no width.
fn sized(size: &[u8], base: u32, digits: &[u8]) -> Atom
    ensures { result ≡ spec.sized_atom size.now base digits.now }
{
    match large(base, digits) {
        Some(value) => Atom::Literal {
            width: width_at(size),
            value,
        },
        None => Atom::Literal { width: 0, value: 0 },
    }
}

/// The literal of a size and the word after it, or none.
fn based(size: &[u8], behind: &[u8]) -> Option<Atom>
    ensures { result ≡ spec.based_of size.now behind.now }
{
    match behind {
        [quote, letter, digits @ ..] => {
            let base = base_of(*letter);
            if *quote == b'\'' && is_numeral(base, digits) {
                Some(sized(size, base, digits))
            } else {
                None
            }
        }
        _ => None,
    }
}

/// The literal that a word is (IEEE 1364-2005, 3.5.1), if it is one: a size, `'`, the letter of a base, and digits of it.
pub fn literal_of(word: &[u8]) -> Option<Atom>
    ensures { result ≡ spec.literal_of word.now }
{
    let len = run(Class::DigitOf(10), word);
    if len == 0 {
        return None;
    }
    let (size, behind) = word.split_at(len);
    based(size, behind)
}
