// The value of an atom and of a driver.

ghost use Rattle.std.specs.Prelude.{List, ◌≡◌, ◌+◌, ◌-◌, ◌*◌, ◌/◌, ◌%◌, ◌^◌, ◌<◌, ◌≤◌};
ghost use Rattle.vlog_tree.specs.Cycle.{atom_value, atom_width, joined, copies, driven};
ghost use Rattle.vlog_values.specs.declared.numbers.MemoryCells.{MemoryCells};
ghost use Rattle.vlog_values.specs.Numbers.{cycle_of, sizes_of, fitting};

use crate::numbers::{MemoryCells, NetNumber, cell_in, number_in, width_in};
use crate::operators::{apply, highest, low_bits, shift_right};
use vlog_tree::{Atom, Value};

/// The bits of a number from a high one to a low one.
#[tactic(auto, using(crate::proofs::Cuts::all_in))]
fn part(n: u128, high: u32, low: u32) -> u128
    ensures { result ≡ (n / 2 ^ low) % 2 ^ (high + 1 - low) }
{
    let from = shift_right(n, u128::from(low));
    if high < low {
        0
    } else if high - low < 127 {
        low_bits(from, high - low + 1)
    } else {
        from
    }
}

/// The number of an atom.
pub fn value_of_atom(nets: &[NetNumber], atom: &Atom) -> u128
    ensures { (memories : List MemoryCells) → result ≡ atom_value (cycle_of nets.now memories) atom.now }
{
    match atom {
        Atom::Net(x) => number_in(nets, x),
        Atom::Part { net: x, high, low } => part(number_in(nets, x), *high, *low),
        Atom::Literal { value: n, .. } => *n,
    }
}

fn bits_from(high: u32, low: u32) -> u64
    ensures { result ≡ high + 1 - low }
{
    (u64::from(high) + 1).saturating_sub(u64::from(low))
}

/// The width of an atom.
fn bits_of_atom(nets: &[NetNumber], atom: &Atom) -> u64
    ensures { (memories : List MemoryCells) → result ≡ atom_width (sizes_of nets.now memories) atom.now }
{
    match atom {
        Atom::Net(x) => u64::from(width_in(nets, x)),
        Atom::Part { high, low, .. } => bits_from(*high, *low),
        Atom::Literal { width: w, .. } => u64::from(*w),
    }
}

/// A number with some bits put below it.
#[tactic(auto, using(crate::proofs::Fits::none_below, crate::proofs::Fits::no_room, crate::proofs::Fits::no_product, crate::proofs::Fits::with_low))]
fn put_below(n: u128, bits: u64, low: u128) -> Option<u128>
    ensures { result ≡ fitting (n * 2 ^ bits + low) }
{
    if n == 0 {
        Some(low)
    } else if bits < 128 {
        match n.checked_mul(1 << bits) {
            Some(high) => high.checked_add(low),
            None => None,
        }
    } else {
        None
    }
}

/// The number of a concatenation.
fn join(nets: &[NetNumber], atoms: &[Atom]) -> Option<u128>
    ensures { (memories : List MemoryCells) → result ≡ fitting (joined (sizes_of nets.now memories) (cycle_of nets.now memories) 0 atoms.now) }
{
    let mut n = 0;
    for a in atoms {
        match put_below(n, bits_of_atom(nets, a), value_of_atom(nets, a)) {
            Some(more) => n = more,
            None => return None,
        }
    }
    Some(n)
}

/// Copies of a number below each other.
fn repeat(times: u32, bits: u64, a: u128) -> Option<u128>
    ensures { result ≡ fitting (copies bits a times) }
{
    let mut n = 0;
    for _i in 0..times {
        match put_below(n, bits, a) {
            Some(more) => n = more,
            None => return None,
        }
    }
    Some(n)
}

fn invert(bits: u32, a: u128) -> u128
    requires { bits ≤ 128 }
    ensures { result ≡ 2 ^ bits - 1 - a }
{
    highest(bits).saturating_sub(a)
}

/// The number that a driver gives a target of some bits, where it fits 128 bits.
#[tactic(auto, using(crate::proofs::Fits::fits))]
pub fn value_of(
    nets: &[NetNumber],
    memories: &[MemoryCells],
    bits: u32,
    value: &Value,
) -> Option<u128>
    requires { bits ≤ 128 }
    ensures { result ≡ fitting (driven (sizes_of nets.now memories.now) bits (cycle_of nets.now memories.now) value.now) }
{
    match value {
        Value::Plain(a) => Some(value_of_atom(nets, a)),
        Value::Invert(a) => Some(invert(bits, value_of_atom(nets, a))),
        Value::Binary {
            left: a,
            op,
            right: b,
        } => {
            let left = value_of_atom(nets, a);
            let right = value_of_atom(nets, b);
            Some(apply(bits, *op, left, right))
        }
        Value::Choose {
            condition: c,
            yes: a,
            no: b,
        } => {
            if value_of_atom(nets, c) == 1 {
                Some(value_of_atom(nets, a))
            } else {
                Some(value_of_atom(nets, b))
            }
        }
        Value::Concat(atoms) => join(nets, atoms.atoms()),
        Value::Repeat {
            count: times,
            atom: a,
        } => repeat(*times, bits_of_atom(nets, a), value_of_atom(nets, a)),
        Value::Cell {
            memory: m,
            index: x,
        } => Some(cell_in(memories, m, number_in(nets, x))),
    }
}
