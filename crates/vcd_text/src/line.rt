//! The line with which a dump goes on after its first cycle.

ghost use Rattle.std.specs.Prelude.{◌≡◌, ◌+◌, ◌<◌, ◌^◌, ℕ, length, slice_get, IfOk, IfErr, IfSome};
ghost use Rattle.vcd_text.specs.Along.{StopsBefore};
ghost use Rattle.vcd_text.specs.Lines.{IsLineFound, IsLineTo, IsChangeAt, IsChangeAmong, HaveBits};

use crate::change::{change_at, cycle_at};
use tapa_base::Port;

/// A line: of the next cycle, or of a net's change.
#[derive(Clone, Copy)]
pub(crate) enum Found {
    Cycle,
    Change { net: usize, value: u128 },
}

// At most this many bytes of a line come before an identifier: `b`, the digits and a blank.
const LONGEST_VALUE: usize = 130;

// Digits of an identifier at most.
const LONGEST_IDENTIFIER: usize = 5;

// The number that an identifier at this position of a line would have.
fn number_in(line: &[u8], start: usize) -> usize {
    let mut number = 0usize;
    let mut scale = 1usize;
    for byte in line.iter().skip(start).take(LONGEST_IDENTIFIER) {
        if *byte == b'\n' {
            return number;
        }
        let digit = usize::from(byte.saturating_sub(33));
        number = number.saturating_add(scale.saturating_mul(digit));
        scale = scale.saturating_mul(94);
    }
    number
}

// The net that a line names, if it is one of a change: the first to be tried.
fn likely_net(line: &[u8]) -> usize {
    if line.first() != Some(&b'b') {
        return number_in(line, 1);
    }
    match line
        .iter()
        .take(LONGEST_VALUE)
        .position(|byte| *byte == b' ')
    {
        Some(blank) => number_in(line, blank + 1),
        None => 0,
    }
}

// The value of a net, where it has one.
fn known_value(values: &[u128], net: usize) -> Option<u128>
    ensures { result ≡ slice_get values.now net }
{
    match values.get(net) {
        Some(value) => Some(*value),
        None => None,
    }
}

// The change of one net at the start of a text.
fn change_of<'a>(
    nets: &[Port],
    values: &[u128],
    net: usize,
    text: &'a [u8],
) -> Result<(u128, &'a [u8]), usize>
    requires few { length nets.now < 2 ^ 32 }
    requires bits { HaveBits nets.now }
    requires within { net < length nets.now }
    ensures found { IfOk result (λ r. IsChangeAt nets.now (slice_get values.now) net net r.0 text.now r.1.now) }
    ensures stop { IfErr result (λ left. StopsBefore (IsChangeAmong nets.now (slice_get values.now) net (net + 1)) text.now left) }
{
    let before = known_value(values, net);
    let bits = nets[net].bits;
    change_at(before, net as u32, bits, text)
}

// The change of the net that a line names.
fn likely_change<'a>(
    nets: &[Port],
    values: &[u128],
    from: usize,
    text: &'a [u8],
) -> Option<(Found, &'a [u8])>
    requires few { length nets.now < 2 ^ 32 }
    requires bits { HaveBits nets.now }
    ensures { IfSome result (λ r. (next : ℕ) → IsLineFound nets.now (slice_get values.now) next from text.now r.0 r.1.now) }
{
    let net = likely_net(text);
    if net < from || net >= nets.len() {
        return None;
    }
    match change_of(nets, values, net, text) {
        Ok((value, rest)) => Some((Found::Change { net, value }, rest)),
        Err(_) => None,
    }
}

/// The line at the start of a text and what comes after it, where values of all nets are known and the nets before an index
/// have had their turn in this cycle; or the number of bytes left where the text departs from such a line.
pub(crate) fn next_line<'a>(
    nets: &[Port],
    values: &[u128],
    next: u64,
    from: usize,
    text: &'a [u8],
) -> Result<(Found, &'a [u8]), usize>
    requires few { length nets.now < 2 ^ 32 }
    requires bits { HaveBits nets.now }
    ensures found { IfOk result (λ r. IsLineFound nets.now (slice_get values.now) next from text.now r.0 r.1.now) }
    ensures stop { IfErr result (λ left. StopsBefore (IsLineTo nets.now (slice_get values.now) next from (length nets.now)) text.now left) }
{
    let mut least = match cycle_at(next, text) {
        Ok(rest) => return Ok((Found::Cycle, rest)),
        Err(left) => left,
    };
    if let Some(found) = likely_change(nets, values, from, text) {
        return Ok(found);
    }
    for net in from..nets.len() {
        match change_of(nets, values, net, text) {
            Ok((value, rest)) => return Ok((Found::Change { net, value }, rest)),
            Err(left) => least = least.min(left),
        }
    }
    Err(least)
}
