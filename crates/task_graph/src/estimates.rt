//! What a leaf is estimated to take of a chip.
ghost use Rattle.std.specs.Prelude.{◌≡◌, ◌*◌, ◌^◌, ◌≤◌};
ghost use Rattle.std.specs.List.{sum_by};
ghost use Rattle.tapa_base.specs.Kinds.{bits_of};
ghost use Rattle.tapa_syntax.specs.TickPlaces.{capped};
ghost use Rattle.task_graph.specs.Estimate as estimate;

use crate::Use;
use crate::code_sums::{Counted, in_code};
use tapa_base::Kind;
use tapa_syntax::{Array, Leaf, places_in};

fn array_bits(array: Array) -> u64
    ensures value { result ≡ estimate.array_bits array }
    ensures small { result ≤ 64 * (2 ^ 32) }
{
    u64::from(array.kind.bits()) * u64::from(array.cells)
}

fn luts_of_array(array: Array) -> u64
    ensures { result ≡ capped (estimate.array_luts array) }
{
    let bits = array_bits(array);
    if bits <= 1024 { (bits + 63) / 64 } else { 0 }
}

fn brams_of_array(array: Array) -> u64
    ensures { result ≡ capped (estimate.array_brams array) }
{
    let bits = array_bits(array);
    if bits <= 1024 {
        0
    } else {
        (bits + 18431) / 18432
    }
}

fn luts_of_arrays(arrays: &[Array]) -> u64
    ensures { result ≡ capped (sum_by estimate.array_luts arrays.now) }
{
    let mut sum: u64 = 0;
    for array in arrays {
        sum = sum.saturating_add(luts_of_array(*array));
    }
    sum
}

fn brams_of_arrays(arrays: &[Array]) -> u64
    ensures { result ≡ capped (sum_by estimate.array_brams arrays.now) }
{
    let mut sum: u64 = 0;
    for array in arrays {
        sum = sum.saturating_add(brams_of_array(*array));
    }
    sum
}

fn bits_of_variables(kinds: &[Kind]) -> u64
    ensures { result ≡ capped (sum_by bits_of kinds.now) }
{
    let mut sum: u64 = 0;
    for kind in kinds {
        sum = sum.saturating_add(u64::from(kind.bits()));
    }
    sum
}

/// The greatest number that is reported.
const MOST: u64 = 0xff_ffff_ffff;

#[tactic(auto, unfolding(crate::specs::Counted::rates_of))]
fn luts(leaf: &Leaf) -> u64
    ensures { result ≡ estimate.at_most (estimate.luts leaf.now) }
{
    let places = places_in(&leaf.code).saturating_add(1);
    let operators = in_code(Counted::Luts, leaf, &leaf.code);
    let arrays = luts_of_arrays(&leaf.arrays);
    places
        .saturating_add(places)
        .saturating_add(operators)
        .saturating_add(arrays)
        .min(MOST)
}

#[tactic(auto, unfolding(crate::specs::Counted::rates_of))]
fn flip_flops(leaf: &Leaf) -> u64
    ensures { result ≡ estimate.at_most (estimate.flip_flops leaf.now) }
{
    let variables = bits_of_variables(&leaf.vars);
    let temporaries = in_code(Counted::TemporaryBits, leaf, &leaf.code);
    variables
        .saturating_add(temporaries)
        .saturating_add(13)
        .min(MOST)
}

fn brams(leaf: &Leaf) -> u64
    ensures { result ≡ estimate.at_most (sum_by estimate.array_brams leaf.now.arrays.items) }
{
    brams_of_arrays(&leaf.arrays).min(MOST)
}

#[tactic(auto, unfolding(crate::specs::Counted::rates_of))]
fn dsps(leaf: &Leaf) -> u64
    ensures { result ≡ estimate.at_most (estimate.in_code estimate.dsp_rates leaf.now) }
{
    in_code(Counted::Dsps, leaf, &leaf.code).min(MOST)
}

/// What a leaf task is estimated to take of a chip, from its text alone: two look-up tables for each tick place, one for each
/// bit of an operator's result, eight for each bit of a quotient; flip-flops for its variables and temporaries; DSP slices for
/// its products; look-up tables or block RAMs for its arrays.
pub fn estimated(leaf: &Leaf) -> Use
    ensures { result ≡ estimate.estimate leaf.now }
{
    Use {
        lut: luts(leaf),
        ff: flip_flops(leaf),
        bram: brams(leaf),
        dsp: dsps(leaf),
        uram: 0,
    }
}
