// Concatenations, copies and complements on a tape.

ghost use Rattle.std.specs.Prelude.{◌≡◌, ◌+◌, ◌-◌, ◌*◌, ◌<◌, ◌≤◌, ◌^◌, ◌==◌, if◌then◌else◌, ℕ, length, IfOk};
ghost use Rattle.sim_tape.specs.Tape.{Extends, IsTape, number_at, pair_value, PairBefore};
ghost use Rattle.sim_tape.specs.Solved.{Says};
ghost use Rattle.sim_tape.specs.Trees.{tree_of};

use crate::atoms::{literal, mask_of};
use sim_tape::{Operator, Pair, Tape};
use std::alloc::AllocError;
use vlog_tree::BinaryOp;

// Two numbers in one slot, the first above the other's bits.
fn in_one_slot(
    tape: &mut Tape,
    above: Pair,
    below: Pair,
    below_bits: u32,
) -> Result<Pair, AllocError>
    requires tape { IsTape (tree_of tape.old) }
    requires bits { below_bits ≤ 64 }
    requires above { PairBefore (length (tree_of tape.old).gates) above }
    requires below { PairBefore (length (tree_of tape.old).gates) below }
    ensures extends { Extends (tree_of tape.old) (tree_of tape.new) }
    ensures slots { IfOk result (λ p. PairBefore (length (tree_of tape.new).gates) p) }
    ensures says { IfOk result (λ p. Says (tree_of tape.new)
        (λ cells ns. pair_value ns above * 2 ^ below_bits + pair_value ns below < 2 ^ 64 → pair_value ns p ≡ pair_value ns above * 2 ^ below_bits + pair_value ns below)) }
{
    let shift = tape.constant(u64::from(below_bits))?;
    let low = tape.operate(Operator::Join, above.low, shift, below.low)?;
    Ok(Pair { low, high: 0 })
}

// Two numbers of at most 128 bits together, as a shift and a sum of such numbers.
fn in_two_slots(
    tape: &mut Tape,
    above: Pair,
    below: Pair,
    below_bits: u32,
    bits: u32,
) -> Result<Pair, AllocError>
    requires tape { IsTape (tree_of tape.old) }
    requires bits { bits ≤ 128 }
    requires above { PairBefore (length (tree_of tape.old).gates) above }
    requires below { PairBefore (length (tree_of tape.old).gates) below }
    ensures extends { Extends (tree_of tape.old) (tree_of tape.new) }
    ensures slots { IfOk result (λ p. PairBefore (length (tree_of tape.new).gates) p) }
    ensures says { IfOk result (λ p. Says (tree_of tape.new)
        (λ cells ns. pair_value ns above * 2 ^ below_bits + pair_value ns below < 2 ^ bits
        → pair_value ns p ≡ pair_value ns above * 2 ^ below_bits + pair_value ns below)) }
{
    let shift = literal(tape, u128::from(below_bits))?;
    let moved = tape.wide(BinaryOp::ShiftLeft, bits, above, shift)?;
    let sum = tape.wide(BinaryOp::Plus, bits, moved, below)?;
    Ok(sum)
}

/// A number of some bits above another, where both together have at most 128.
pub fn put_below(
    tape: &mut Tape,
    above: Pair,
    above_bits: u32,
    below: Pair,
    below_bits: u32,
) -> Result<Pair, AllocError>
    requires tape { IsTape (tree_of tape.old) }
    requires bits { above_bits + below_bits ≤ 128 }
    requires above { PairBefore (length (tree_of tape.old).gates) above }
    requires below { PairBefore (length (tree_of tape.old).gates) below }
    ensures extends { Extends (tree_of tape.old) (tree_of tape.new) }
    ensures slots { IfOk result (λ p. PairBefore (length (tree_of tape.new).gates) p) }
    ensures says { IfOk result (λ p. Says (tree_of tape.new)
        (λ cells ns. pair_value ns above < 2 ^ above_bits → pair_value ns below < 2 ^ below_bits
        → pair_value ns p ≡ pair_value ns above * 2 ^ below_bits + pair_value ns below)) }
{
    let bits = above_bits + below_bits;
    if above_bits == 0 {
        return Ok(below);
    }
    if bits <= 64 {
        let one = in_one_slot(tape, above, below, below_bits)?;
        return Ok(one);
    }
    if below_bits == 64 {
        return Ok(Pair {
            low: below.low,
            high: above.low,
        });
    }
    let two = in_two_slots(tape, above, below, below_bits, bits)?;
    Ok(two)
}

// The highest number of some bits, less the number of a slot.
fn complement(tape: &mut Tape, slot: u32, bits: u32) -> Result<u32, AllocError>
    requires tape { IsTape (tree_of tape.old) }
    requires slot { slot < length (tree_of tape.old).gates }
    requires bits { bits ≤ 64 }
    ensures extends { Extends (tree_of tape.old) (tree_of tape.new) }
    ensures slots { IfOk result (λ s. s < length (tree_of tape.new).gates) }
    ensures says { IfOk result (λ s. Says (tree_of tape.new) (λ cells ns. number_at ns slot < 2 ^ bits → number_at ns s ≡ 2 ^ bits - 1 - number_at ns slot)) }
{
    let mask = tape.constant(mask_of(bits))?;
    let less = tape.operate(Operator::Minus, mask, slot, mask)?;
    Ok(less)
}

/// The complement of a number of some bits.
pub fn invert(tape: &mut Tape, pair: Pair, bits: u32) -> Result<Pair, AllocError>
    requires tape { IsTape (tree_of tape.old) }
    requires bits { bits ≤ 128 }
    requires pair { PairBefore (length (tree_of tape.old).gates) pair }
    ensures extends { Extends (tree_of tape.old) (tree_of tape.new) }
    ensures slots { IfOk result (λ p. PairBefore (length (tree_of tape.new).gates) p) }
    ensures says { IfOk result (λ p. Says (tree_of tape.new) (λ cells ns. pair_value ns pair < 2 ^ bits → pair_value ns p ≡ 2 ^ bits - 1 - pair_value ns pair)) }
{
    if bits <= 64 {
        let whole = complement(tape, pair.low, bits)?;
        return Ok(Pair {
            low: whole,
            high: 0,
        });
    }
    let low = complement(tape, pair.low, 64)?;
    let high = complement(tape, pair.high, bits - 64)?;
    Ok(Pair { low, high })
}

// A slot with the second or the third slot, by whether the first one is 1.
fn choose_half(tape: &mut Tape, test: u32, yes: u32, no: u32) -> Result<u32, AllocError>
    requires tape { IsTape (tree_of tape.old) }
    requires test { test < length (tree_of tape.old).gates }
    requires yes { yes < length (tree_of tape.old).gates }
    requires no { no < length (tree_of tape.old).gates }
    ensures extends { Extends (tree_of tape.old) (tree_of tape.new) }
    ensures slots { IfOk result (λ s. s < length (tree_of tape.new).gates) }
    ensures says { IfOk result (λ s. Says (tree_of tape.new) (λ cells ns. number_at ns s ≡ (if number_at ns test == 1 then number_at ns yes else number_at ns no))) }
{
    if yes == no {
        return Ok(yes);
    }
    let chosen = tape.operate(Operator::Choose, test, yes, no)?;
    Ok(chosen)
}

/// The second or the third number, by whether the slot is 1.
pub fn choose(tape: &mut Tape, test: u32, yes: Pair, no: Pair) -> Result<Pair, AllocError>
    requires tape { IsTape (tree_of tape.old) }
    requires test { test < length (tree_of tape.old).gates }
    requires yes { PairBefore (length (tree_of tape.old).gates) yes }
    requires no { PairBefore (length (tree_of tape.old).gates) no }
    ensures extends { Extends (tree_of tape.old) (tree_of tape.new) }
    ensures slots { IfOk result (λ p. PairBefore (length (tree_of tape.new).gates) p) }
    ensures says { IfOk result (λ p. Says (tree_of tape.new) (λ cells ns. pair_value ns p ≡ (if number_at ns test == 1 then pair_value ns yes else pair_value ns no))) }
{
    let low = choose_half(tape, test, yes.low, no.low)?;
    let high = choose_half(tape, test, yes.high, no.high)?;
    Ok(Pair { low, high })
}
