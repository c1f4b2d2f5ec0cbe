//! Identifiers of nets.

ghost use Rattle.std.specs.Prelude.{◌≡◌, ◌++◌, ℕ, List, IfOk, IfErr};
ghost use Rattle.vcd_text.specs.Along.{StopsBefore};
ghost use Rattle.vcd_text.specs.Dump.{identifier};

use crate::along::next_byte;

/// What comes after the identifier of the net of a number, or the number of bytes left where the text departs
/// from it.
pub(crate) fn identifier_at(number: u32, text: &[u8]) -> Result<&[u8], usize>
    ensures found { IfOk result (λ rest. text.now ≡ identifier number ++ rest.now) }
    ensures stop { IfErr result (λ left. StopsBefore (λ w. w ≡ identifier number) text.now left) }
{
    let Some((byte, rest)) = next_byte(text) else {
        return Err(0);
    };
    if u32::from(byte) != 33 + number % 94 {
        return Err(text.len());
    }
    if number < 94 {
        Ok(rest)
    } else {
        identifier_at(number / 94, rest)
    }
}
