//! Amounts of resources: sums, and comparisons with a part of a capacity.
ghost use Rattle.std.specs.Prelude.{◌≡◌, ◌<◌, ◌≤◌, ◌+◌, ◌-◌, ◌*◌, ◌^◌, ◌↔◌, ℕ, IsTrue, IfOk, length};
ghost use Rattle.task_graph.specs.Streams.{amount, amount_at};
ghost use Rattle.slot_plan.specs.Amounts.{AreBelow, FitsIn, IsAtMost};

use std::alloc::{AllocError, Global};
use task_graph::Use;

/// Returns an amount of nothing.
pub(crate) const NOTHING: Use = Use {
    lut: 0,
    ff: 0,
    bram: 0,
    dsp: 0,
    uram: 0,
};

/// Returns the sum of two amounts.
pub(crate) fn sum_of(a: Use, b: Use) -> Use
    requires first { AreBelow a (2 ^ 62) }
    requires second { AreBelow b (2 ^ 62) }
    ensures { result ≡ record { lut = a.lut + b.lut; ff = a.ff + b.ff; bram = a.bram + b.bram; dsp = a.dsp + b.dsp; uram = a.uram + b.uram } }
{
    Use {
        lut: a.lut + b.lut,
        ff: a.ff + b.ff,
        bram: a.bram + b.bram,
        dsp: a.dsp + b.dsp,
        uram: a.uram + b.uram,
    }
}

/// Returns the sum of an amount and one of a list.
pub fn add_at(sum: Use, uses: &[Use], i: usize) -> Use
    requires inside { i < length uses.now }
    requires first { (k : ℕ) → amount sum k < 2 ^ 60 }
    requires second { (k : ℕ) → amount_at uses.now i k < 2 ^ 60 }
    ensures { (k : ℕ) → amount result k ≡ amount sum k + amount_at uses.now i k }
{
    sum_of(sum, uses[i])
}

/// Checks whether an amount is within a part of a capacity, in hundredths.
pub(crate) fn is_within(load: Use, capacity: Use, percent: u32) -> bool
    requires load { AreBelow load (2 ^ 50) }
    requires capacity { AreBelow capacity (2 ^ 40) }
    requires percent { percent ≤ 100 }
    ensures { IsTrue result ↔ FitsIn load capacity percent }
{
    let part = percent as u64;
    load.lut * 100 <= capacity.lut * part
        && load.ff * 100 <= capacity.ff * part
        && load.bram * 100 <= capacity.bram * part
        && load.dsp * 100 <= capacity.dsp * part
        && load.uram * 100 <= capacity.uram * part
}

/// Returns slots that hold nothing.
pub fn empty_slots(alloc: Global, count: usize) -> Result<Vec<Use>, AllocError>
    ensures long { IfOk result (λ used. length used.items ≡ count) }
    ensures empty { IfOk result (λ used. (s k : ℕ) → amount_at used.items s k ≡ 0) }
{
    vec![in alloc; NOTHING; count]
}

/// Checks whether an amount is at most another, kind by kind.
pub(crate) fn is_at_most(a: Use, b: Use) -> bool
    ensures { IsTrue result ↔ IsAtMost a b }
{
    a.lut <= b.lut && a.ff <= b.ff && a.bram <= b.bram && a.dsp <= b.dsp && a.uram <= b.uram
}

/// Returns what an amount leaves of another.
pub(crate) fn difference(a: Use, b: Use) -> Use
    requires { IsAtMost b a }
    ensures { result ≡ record { lut = a.lut - b.lut; ff = a.ff - b.ff; bram = a.bram - b.bram; dsp = a.dsp - b.dsp; uram = a.uram - b.uram } }
{
    Use {
        lut: a.lut - b.lut,
        ff: a.ff - b.ff,
        bram: a.bram - b.bram,
        dsp: a.dsp - b.dsp,
        uram: a.uram - b.uram,
    }
}

/// Returns an amount `times` times.
fn multiple(a: Use, times: u32) -> Use
    requires times { times ≤ 100 }
    requires small { AreBelow a (2 ^ 50) }
    ensures { result ≡ record { lut = a.lut * times; ff = a.ff * times; bram = a.bram * times; dsp = a.dsp * times; uram = a.uram * times } }
{
    let times = times as u64;
    Use {
        lut: a.lut * times,
        ff: a.ff * times,
        bram: a.bram * times,
        dsp: a.dsp * times,
        uram: a.uram * times,
    }
}

/// Returns a hundred times an amount of a list.
pub(crate) fn hundredfold(uses: &[Use], i: usize) -> Use
    requires inside { i < length uses.now }
    requires small { (k : ℕ) → amount_at uses.now i k < 2 ^ 49 }
    ensures value { (k : ℕ) → amount result k ≡ amount_at uses.now i k * 100 }
    ensures small { (k : ℕ) → amount result k < 2 ^ 56 }
{
    multiple(uses[i], 100)
}

/// Returns the rest of `percent` hundredths of the capacity of a slot, in hundredths.
pub(crate) fn room_beside(slots: &[Use], percent: u32, used: &[Use], slot: usize) -> Use
    requires inside { slot < length slots.now }
    requires used { slot < length used.now }
    requires percent { percent ≤ 100 }
    requires capacities { (k : ℕ) → amount_at slots.now slot k < 2 ^ 40 }
    requires within { (k : ℕ) → amount_at used.now slot k * 100 ≤ amount_at slots.now slot k * percent }
    ensures { (k : ℕ) → amount result k + amount_at used.now slot k * 100 ≡ amount_at slots.now slot k * percent }
{
    difference(multiple(slots[slot], percent), multiple(used[slot], 100))
}
