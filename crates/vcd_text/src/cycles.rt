//! What is read after the head of a dump: the values of the first cycle, and the changes of later ones.

ghost use Rattle.std.specs.Prelude.{◌≡◌, ◌+◌, ◌<◌, ◌≤◌, ◌^◌, ℕ, List, [], None, length, map, slice_get, IfOk, IfErr};
ghost use Rattle.vcd_text.specs.Nets.{Net};
ghost use Rattle.vcd_text.specs.Read.{port_of};
ghost use Rattle.vcd_text.specs.Lines.{HaveBits};
ghost use Rattle.vcd_text.specs.Rest.{IsStopOf, Left, HaveValues, Serves, answer_of};

use crate::change::change_at;
use crate::dump::{Change, Dump};
use crate::halt::Halt;
use crate::line::{Found, next_line};
use std::alloc::Global;
use tapa_base::Port;

/// The values of the first cycle, their changes, and what comes after them.
type First<'a> = (Vec<u128>, Vec<Change>, &'a [u8]);

/// Reads the values of the first cycle.
pub(crate) fn read_first<'a>(
    alloc: Global,
    nets: &[Port],
    text: &'a [u8],
) -> Result<First<'a>, Halt>
    requires few { length nets.now < 2 ^ 32 }
    requires bits { HaveBits nets.now }
    ensures values { IfOk result (λ r. HaveValues nets.now r.0.items) }
    ensures short { IfOk result (λ r. length r.2.now ≤ length text.now) }
    ensures found { IfOk result (λ r. (xs : List Net) → nets.now ≡ map port_of xs
        → Serves (Left xs 0 0 (λ _. None) []) text.now (Left xs 0 (length xs) (slice_get r.0.items) r.1.items) r.2.now) }
    ensures stop { IfErr result (λ h. (xs : List Net) → nets.now ≡ map port_of xs → IsStopOf (Left xs 0 0 (λ _. None) []) text.now h) }
{
    let mut values = Vec::new(alloc);
    let mut changes = Vec::new(alloc);
    let mut rest = text;
    for net in 0..nets.len() {
        let (value, behind) = change_at(None, net as u32, nets[net].bits, rest)?;
        values.push(value)?;
        changes.push(Change {
            cycle: 0,
            net: net as u32,
            value,
        })?;
        rest = behind;
    }
    Ok((values, changes, rest))
}

/// Reads the lines after the first cycle, up to the end of the text.
pub(crate) fn read_cycles(
    nets: Vec<Port>,
    first: Vec<u128>,
    done: Vec<Change>,
    text: &[u8],
) -> Result<Dump, Halt>
    requires few { length nets.items < 2 ^ 32 }
    requires short { length text.now < 2 ^ 32 }
    requires bits { HaveBits nets.items }
    requires values { HaveValues nets.items first.items }
    ensures found { IfOk result (λ d. (xs : List Net) → nets.items ≡ map port_of xs → Left xs 0 (length xs) (slice_get first.items) done.items (answer_of d) text.now) }
    ensures stop { IfErr result (λ h. (xs : List Net) → nets.items ≡ map port_of xs → IsStopOf (Left xs 0 (length xs) (slice_get first.items) done.items) text.now h) }
{
    let mut values = first;
    let mut changes = done;
    let mut cycle = 0;
    let mut turn = nets.len();
    let mut rest = text;
    while rest.len() > 0 {
        let (found, behind) = next_line(&nets, &values, cycle + 1, turn, rest)?;
        match found {
            Found::Cycle => {
                cycle += 1;
                turn = 0;
            }
            Found::Change { net, value } => {
                changes.push(Change {
                    cycle,
                    net: net as u32,
                    value,
                })?;
                values[net] = value;
                turn = net + 1;
            }
        }
        rest = behind;
    }
    Ok(Dump {
        nets,
        last: cycle,
        changes,
    })
}
