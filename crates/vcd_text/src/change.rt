//! Lines of changes and of cycles.

ghost use Rattle.std.specs.Prelude.{◌≡◌, ◌≤◌, ◌++◌, ℕ, List, codes, decimal, IfOk, IfErr};
ghost use Rattle.vcd_text.specs.Along.{StopsBefore};
ghost use Rattle.vcd_text.specs.Dump.{identifier, change_line, cycle_line};
ghost use Rattle.vcd_text.specs.Lines.{IsNewValue};

use crate::along::expect;
use crate::identifier::identifier_at;
use crate::number::value_at;
use itoa::Buffer;

// What comes after an identifier and the end of its line.
fn line_end(number: u32, text: &[u8]) -> Result<&[u8], usize>
    ensures found { IfOk result (λ rest. text.now ≡ (identifier number ++ codes "\n") ++ rest.now) }
    ensures stop { IfErr result (λ left. StopsBefore (λ w. w ≡ identifier number ++ codes "\n") text.now left) }
{
    let rest = identifier_at(number, text)?;
    expect(b"\n", rest)
}

/// The value in the line of a change of the net of a number and of `bits` bits, other than the one before, and what
/// comes after the line; or the number of bytes left where the text departs from such a line.
pub(crate) fn change_at(
    before: Option<u128>,
    number: u32,
    bits: u32,
    text: &[u8],
) -> Result<(u128, &[u8]), usize>
    requires low { 1 ≤ bits }
    requires high { bits ≤ 128 }
    ensures found { IfOk result (λ r. IsNewValue bits before r.0 × (text.now ≡ change_line number bits r.0 ++ r.1.now)) }
    ensures stop { IfErr result (λ left. StopsBefore (λ w. (v : ℕ) × IsNewValue bits before v × (w ≡ change_line number bits v)) text.now left) }
{
    let (value, rest) = value_at(before, bits, text)?;
    let behind = line_end(number, rest)?;
    Ok((value, behind))
}

// What comes after the digits of a number.
pub(crate) fn digits_at(number: u64, text: &[u8]) -> Result<&[u8], usize>
    ensures found { IfOk result (λ rest. text.now ≡ decimal number ++ rest.now) }
    ensures stop { IfErr result (λ left. StopsBefore (λ w. w ≡ decimal number) text.now left) }
{
    let mut buffer = Buffer::new();
    expect(buffer.format(number).as_bytes(), text)
}

// What comes after the digits of a number and the end of their line.
fn number_end(number: u64, text: &[u8]) -> Result<&[u8], usize>
    ensures found { IfOk result (λ rest. text.now ≡ (decimal number ++ codes "\n") ++ rest.now) }
    ensures stop { IfErr result (λ left. StopsBefore (λ w. w ≡ decimal number ++ codes "\n") text.now left) }
{
    let rest = digits_at(number, text)?;
    expect(b"\n", rest)
}

/// What comes after the line of a cycle, or the number of bytes left where the text departs from it.
pub(crate) fn cycle_at(cycle: u64, text: &[u8]) -> Result<&[u8], usize>
    ensures found { IfOk result (λ rest. text.now ≡ cycle_line cycle ++ rest.now) }
    ensures stop { IfErr result (λ left. StopsBefore (λ w. w ≡ cycle_line cycle) text.now left) }
{
    let rest = expect(b"#", text)?;
    number_end(cycle, rest)
}
