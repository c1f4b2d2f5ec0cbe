//! The value of a change.

ghost use Rattle.std.specs.Prelude.{◌≡◌, ◌⊎◌, ◌+◌, ◌*◌, ◌<◌, ◌≤◌, ◌^◌, ◌++◌, ◌∷◌, [], ℕ, List, true, IfOk, IfErr};
ghost use Rattle.std.specs.Bool.{MatchBool};
ghost use Rattle.vcd_text.specs.Along.{StopsBefore};
ghost use Rattle.vcd_text.specs.Dump.{binary, value_text};
ghost use Rattle.vcd_text.specs.Lines.{IsNewValue, is_new as is_new_lem};
ghost use Rattle.vcd_text.specs.Digits.{IsDigits, AreDigits, AreNewDigits, IsOpen, IsStep};

use crate::along::next_byte;

/// What a byte after binary digits is: the blank at the end, one more digit with the number that it gives, or neither.
#[derive(Clone, Copy)]
enum Step {
    End,
    More(u128),
    Stop,
}

/// Whether a value is another than the one before, or the first.
pub(crate) fn is_new(before: Option<u128>, value: u128) -> bool
    ensures { result ≡ is_new_lem before value }
{
    match before {
        None => true,
        Some(last) => value != last,
    }
}

fn judge(before: Option<u128>, number: u128, room: u32, byte: u8) -> Step
    requires { 0 < room → 2 * number + 1 < 2 ^ 128 }
    ensures { IsStep before number room byte result }
{
    if byte == b' ' && is_new(before, number) {
        return Step::End;
    }
    if room == 0 || byte < b'0' || byte > b'1' {
        return Step::Stop;
    }
    let next = 2 * number + u128::from(byte - b'0');
    if room == 1 && !is_new(before, next) {
        Step::Stop
    } else {
        Step::More(next)
    }
}

// The rest of the digits of a number, at most `room` of them, and the blank after them.
fn more_digits(
    before: Option<u128>,
    number: u128,
    room: u32,
    text: &[u8],
) -> Result<(u128, &[u8]), usize>
    requires some { 0 < number }
    requires few { (number + 1) * 2 ^ room ≤ 2 ^ 128 }
    requires can { IsOpen before number room }
    ensures found { IfOk result (λ r. (w : List ℕ) × IsDigits before number room r.0 w × (text.now ≡ w ++ r.1.now)) }
    ensures stop { IfErr result (λ left. StopsBefore (AreDigits before number room) text.now left) }
{
    let Some((byte, rest)) = next_byte(text) else {
        return Err(0);
    };
    match judge(before, number, room, byte) {
        Step::End => Ok((number, rest)),
        Step::More(next) => more_digits(before, next, room - 1, rest),
        Step::Stop => Err(text.len()),
    }
}

// Whether a byte is the digit 0 of a new value.
fn is_zero(before: Option<u128>, byte: u8) -> bool
    ensures { MatchBool result ((byte ≡ 48) × (is_new_lem before 0 ≡ true)) (byte ≡ 48 → is_new_lem before 0 ≡ true → ⊥) }
{
    byte == b'0' && is_new(before, 0)
}

// The blank after the digit 0.
fn behind_zero(text: &[u8]) -> Result<(u128, &[u8]), usize>
    ensures found { IfOk result (λ r. (r.0 ≡ 0) × (text.now ≡ 32 ∷ r.1.now)) }
    ensures stop { IfErr result (λ left. StopsBefore (λ w. w ≡ 32 ∷ []) text.now left) }
{
    match next_byte(text) {
        Some((b' ', rest)) => Ok((0, rest)),
        _ => Err(text.len()),
    }
}

// The binary digits of a value of at least two bits, and the blank after them.
fn digits(before: Option<u128>, bits: u32, text: &[u8]) -> Result<(u128, &[u8]), usize>
    requires low { 2 ≤ bits }
    requires high { bits ≤ 128 }
    ensures found { IfOk result (λ r. IsNewValue bits before r.0 × (text.now ≡ binary r.0 ++ 32 ∷ r.1.now)) }
    ensures stop { IfErr result (λ left. StopsBefore (AreNewDigits bits before) text.now left) }
{
    let Some((byte, rest)) = next_byte(text) else {
        return Err(0);
    };
    if byte == b'1' {
        more_digits(before, 1, bits - 1, rest)
    } else if is_zero(before, byte) {
        behind_zero(rest)
    } else {
        Err(text.len())
    }
}

// The digit of a value of one bit.
fn one_digit(before: Option<u128>, text: &[u8]) -> Result<(u128, &[u8]), usize>
    ensures found { IfOk result (λ r. IsNewValue 1 before r.0 × (text.now ≡ (48 + r.0) ∷ r.1.now)) }
    ensures stop { IfErr result (λ left. StopsBefore (λ w. (v : ℕ) × IsNewValue 1 before v × (w ≡ (48 + v) ∷ [])) text.now left) }
{
    let Some((byte, rest)) = next_byte(text) else {
        return Err(0);
    };
    if byte < b'0' || byte > b'1' {
        return Err(text.len());
    }
    let value = u128::from(byte - b'0');
    if is_new(before, value) {
        Ok((value, rest))
    } else {
        Err(text.len())
    }
}

// A value of at least two bits, with the letter before it.
fn word(before: Option<u128>, bits: u32, text: &[u8]) -> Result<(u128, &[u8]), usize>
    requires low { 2 ≤ bits }
    requires high { bits ≤ 128 }
    ensures found { IfOk result (λ r. IsNewValue bits before r.0 × (text.now ≡ 98 ∷ (binary r.0 ++ 32 ∷ r.1.now))) }
    ensures stop { IfErr result (λ left. StopsBefore (λ w. (v : ℕ) × IsNewValue bits before v × (w ≡ 98 ∷ (binary v ++ 32 ∷ []))) text.now left) }
{
    let Some((byte, rest)) = next_byte(text) else {
        return Err(0);
    };
    if byte != b'b' {
        return Err(text.len());
    }
    digits(before, bits, rest)
}

/// A value of `bits` bits, other than the one before, at the start of a text, and what comes after it; or the number of bytes
/// left where the text departs from one.
pub(crate) fn value_at(before: Option<u128>, bits: u32, text: &[u8]) -> Result<(u128, &[u8]), usize>
    requires low { 1 ≤ bits }
    requires high { bits ≤ 128 }
    ensures found { IfOk result (λ r. IsNewValue bits before r.0 × (text.now ≡ value_text bits r.0 ++ r.1.now)) }
    ensures stop { IfErr result (λ left. StopsBefore (λ w. (v : ℕ) × IsNewValue bits before v × (w ≡ value_text bits v)) text.now left) }
{
    if bits == 1 {
        one_digit(before, text)
    } else {
        word(before, bits, text)
    }
}
