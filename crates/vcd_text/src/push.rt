//! Lines of a dump, appended to a text.

ghost use Rattle.std.specs.Prelude.{◌≡◌, ◌<◌, ◌≤◌, ◌^◌, ◌++◌, ◌∷◌, [], codes, decimal, OnOk};
ghost use Rattle.vcd_text.specs.Dump.{identifier, binary, value_text, change_line, cycle_line, net_type, var_line};

use itoa::Buffer;
use std::alloc::AllocError;

/// The identifier of the net of a number.
fn push_identifier(text: &mut Vec<u8>, number: u64) -> Result<(), AllocError>
    ensures { OnOk result (text.new.items ≡ text.old.items ++ identifier number) }
{
    text.push(33 + (number % 94) as u8)?;
    if number < 94 {
        Ok(())
    } else {
        push_identifier(text, number / 94)
    }
}

/// The binary digits of a number.
fn push_binary(text: &mut Vec<u8>, number: u128) -> Result<(), AllocError>
    ensures { OnOk result (text.new.items ≡ text.old.items ++ binary number) }
{
    if number >= 2 {
        push_binary(text, number / 2)?;
    }
    text.push(48 + (number % 2) as u8)?;
    Ok(())
}

/// The value of a net of `bits` bits, where it fits them.
fn push_value(text: &mut Vec<u8>, bits: u32, value: u128) -> Result<(), AllocError>
    ensures { OnOk result (value < 2 ^ bits → text.new.items ≡ text.old.items ++ value_text bits value) }
{
    if bits == 1 {
        text.push(48 + (value % 2) as u8)?;
        return Ok(());
    }
    text.push(b'b')?;
    push_binary(text, value)?;
    text.push(b' ')?;
    Ok(())
}

/// Appends the line of a net's change to a text, for the net of a number and of `bits` bits, where the value fits them.
/// Want of memory leaves a part of the line there.
pub fn push_change(
    text: &mut Vec<u8>,
    number: u64,
    bits: u32,
    value: u128,
) -> Result<(), AllocError>
    ensures { OnOk result (value < 2 ^ bits → text.new.items ≡ text.old.items ++ change_line number bits value) }
{
    push_value(text, bits, value)?;
    push_identifier(text, number)?;
    text.push(b'\n')?;
    Ok(())
}

fn push_decimal(text: &mut Vec<u8>, number: u64) -> Result<(), AllocError>
    ensures { OnOk result (text.new.items ≡ text.old.items ++ decimal number) }
{
    let mut buffer = Buffer::new();
    text.extend_from_slice(buffer.format(number).as_bytes())
}

/// Appends the line of a cycle to a text. Want of memory leaves a part of it there.
pub fn push_cycle(text: &mut Vec<u8>, cycle: u64) -> Result<(), AllocError>
    ensures { OnOk result (text.new.items ≡ text.old.items ++ cycle_line cycle) }
{
    text.push(b'#')?;
    push_decimal(text, cycle)?;
    text.push(b'\n')?;
    Ok(())
}

fn push_type(text: &mut Vec<u8>, is_reg: bool) -> Result<(), AllocError>
    ensures { OnOk result (text.new.items ≡ text.old.items ++ net_type is_reg) }
{
    if is_reg {
        text.extend_from_slice(b"reg ")
    } else {
        text.extend_from_slice(b"wire ")
    }
}

/// Appends the line that declares the net of a number to a text. Want of memory leaves a part of it there.
pub fn push_var(
    text: &mut Vec<u8>,
    number: u64,
    name: &[u8],
    bits: u32,
    is_reg: bool,
) -> Result<(), AllocError>
    ensures { OnOk result (text.new.items ≡ text.old.items ++ var_line number (record { name = name.now; bits = bits; is_reg = is_reg })) }
{
    text.extend_from_slice(b"$var ")?;
    push_type(text, is_reg)?;
    push_decimal(text, u64::from(bits))?;
    text.push(b' ')?;
    push_identifier(text, number)?;
    text.push(b' ')?;
    text.extend_from_slice(name)?;
    text.extend_from_slice(b" $end\n")?;
    Ok(())
}
