// The lines of one net.

ghost use Rattle.std.specs.Prelude.{◌≡◌, ◌<◌, ◌++◌, ℕ, List, length, decimal, IfOk, OnOk};
ghost use Rattle.vcd_text.specs.Nets.{Net};
ghost use Rattle.vcd_text.specs.Dump.{Values};
ghost use Rattle.vcd_text.specs.Read.{changes_to};
ghost use Rattle.vcd_text.specs.NetLines.{value_line, value_lines, line_of, lines_of};

use crate::dump::Change;
use itoa::Buffer;
use std::alloc::{AllocError, Global};

fn push_cycle(text: &mut Vec<u8>, cycle: u64) -> Result<(), AllocError>
    ensures { OnOk result (text.new.items ≡ text.old.items ++ decimal cycle) }
{
    let mut buffer = Buffer::new();
    text.extend_from_slice(buffer.format(cycle).as_bytes())
}

fn push_value(text: &mut Vec<u8>, value: u128) -> Result<(), AllocError>
    ensures { OnOk result (text.new.items ≡ text.old.items ++ decimal value) }
{
    let mut buffer = Buffer::new();
    text.extend_from_slice(buffer.format(value).as_bytes())
}

fn push_line(text: &mut Vec<u8>, cycle: u64, value: u128) -> Result<(), AllocError>
    ensures { OnOk result (text.new.items ≡ text.old.items ++ value_line cycle value) }
{
    push_cycle(text, cycle)?;
    text.push(b' ')?;
    push_value(text, value)?;
    text.push(b'\n')?;
    Ok(())
}

// The line of a change, where it is one of the net at an index.
fn push_if(text: &mut Vec<u8>, change: &Change, net: usize) -> Result<(), AllocError>
    ensures { OnOk result (text.new.items ≡ text.old.items ++ line_of net change.now) }
{
    if change.net as usize == net {
        push_line(text, change.cycle, change.value)?;
    }
    Ok(())
}

/// The values of the net at an index, by the changes of a dump: a line `CYCLE VALUE` for cycle 0, and one for each cycle in
/// which its value is another than in the cycle before, both in decimal.
pub fn net_text(alloc: Global, changes: &[Change], net: usize) -> Result<Vec<u8>, AllocError>
    ensures lines { IfOk result (λ text. text.items ≡ lines_of net changes.now) }
    ensures values { IfOk result (λ text. (nets : List Net) (values : Values) (last : ℕ) → changes.now ≡ changes_to nets values last → net < length nets
        → text.items ≡ value_lines (λ n. values n net) last) }
{
    let mut text = Vec::new(alloc);
    for i in 0..changes.len() {
        let change = &changes[i];
        push_if(&mut text, change, net)?;
    }
    Ok(text)
}
