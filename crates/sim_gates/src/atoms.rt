// Atoms on a tape.

ghost use Rattle.std.specs.Prelude.{◌≡◌, ◌+◌, ◌-◌, ◌*◌, ◌/◌, ◌%◌, ◌^◌, ◌<◌, ◌≤◌, length, IfOk, IfSome, IsSome, IsTrue};
ghost use Rattle.vlog_tree.specs.declared.tree.Atom.TheVariants as atom_variants;
ghost use Rattle.vlog_tree.specs.V3.{atom_fits};
ghost use Rattle.vlog_tree.specs.Loops.{atom_nets};
ghost use Rattle.sim_tape.specs.Tape.{number_at, pair_value, Extends, IsTape, PairBefore};
ghost use Rattle.sim_tape.specs.Solved.{Says};
ghost use Rattle.sim_tape.specs.Trees.{tree_of};
ghost use Rattle.sim_gates.specs.Nets.{HavePairs, IsAtom, SlotsBefore, Told};

use crate::nets::Nets;
use sim_tape::{Operator, Pair, Tape};
use std::alloc::AllocError;
use tapa_base::Text;
use vlog_tree::{Atom, BinaryOp};

/// The highest number of some bits.
pub(crate) fn mask_of(bits: u32) -> u64
    requires { bits ≤ 64 }
    ensures { result ≡ 2 ^ bits - 1 }
{
    if bits < 64 { (1 << bits) - 1 } else { u64::MAX }
}

/// A pair with a number.
pub fn literal(tape: &mut Tape, n: u128) -> Result<Pair, AllocError>
    requires { IsTape (tree_of tape.old) }
    ensures extends { Extends (tree_of tape.old) (tree_of tape.new) }
    ensures slots { IfOk result (λ p. PairBefore (length (tree_of tape.new).gates) p) }
    ensures says { IfOk result (λ p. Says (tree_of tape.new) (λ cells ns. pair_value ns p ≡ n)) }
{
    let low = tape.constant((n % (1 << 64)) as u64)?;
    let high = tape.constant((n >> 64) as u64)?;
    Ok(Pair { low, high })
}

// The given number of bits of a slot, from a low one on, as a gate.
fn cut_part(tape: &mut Tape, slot: u32, low: u32, bits: u32) -> Result<Pair, AllocError>
    requires tape { IsTape (tree_of tape.old) }
    requires slot { slot < length (tree_of tape.old).gates }
    requires bits { bits ≤ 64 }
    ensures extends { Extends (tree_of tape.old) (tree_of tape.new) }
    ensures slots { IfOk result (λ p. PairBefore (length (tree_of tape.new).gates) p) }
    ensures says { IfOk result (λ p. Says (tree_of tape.new) (λ cells ns. pair_value ns p ≡ (number_at ns slot / 2 ^ low) % 2 ^ bits)) }
{
    let shift = tape.constant(u64::from(low))?;
    let mask = tape.constant(mask_of(bits))?;
    let cut = tape.operate(Operator::Part, slot, shift, mask)?;
    Ok(Pair { low: cut, high: 0 })
}

// Some bits of a slot, where all 64 bits need no gate.
fn short_part(tape: &mut Tape, slot: u32, low: u32, bits: u32) -> Result<Pair, AllocError>
    requires tape { IsTape (tree_of tape.old) }
    requires slot { slot < length (tree_of tape.old).gates }
    requires bits { bits ≤ 64 }
    ensures extends { Extends (tree_of tape.old) (tree_of tape.new) }
    ensures slots { IfOk result (λ p. PairBefore (length (tree_of tape.new).gates) p) }
    ensures says { IfOk result (λ p. Says (tree_of tape.new) (λ cells ns. pair_value ns p ≡ (number_at ns slot / 2 ^ low) % 2 ^ bits)) }
{
    if low != 0 {
        let cut = cut_part(tape, slot, low, bits)?;
        return Ok(cut);
    }
    if bits != 64 {
        let cut = cut_part(tape, slot, low, bits)?;
        return Ok(cut);
    }
    Ok(Pair { low: slot, high: 0 })
}

// The given number of bits of a pair, from a low one on, as a shift and a cut of numbers of 128 bits.
fn long_part(tape: &mut Tape, pair: Pair, low: u32, bits: u32) -> Result<Pair, AllocError>
    requires tape { IsTape (tree_of tape.old) }
    requires pair { PairBefore (length (tree_of tape.old).gates) pair }
    requires bits { bits ≤ 128 }
    ensures extends { Extends (tree_of tape.old) (tree_of tape.new) }
    ensures slots { IfOk result (λ p. PairBefore (length (tree_of tape.new).gates) p) }
    ensures says { IfOk result (λ p. Says (tree_of tape.new) (λ cells ns. pair_value ns p ≡ (pair_value ns pair / 2 ^ low) % 2 ^ bits)) }
{
    let shift = literal(tape, u128::from(low))?;
    let shifted = tape.wide(BinaryOp::ShiftRight, 128, pair, shift)?;
    let cut = tape.wide(BinaryOp::Plus, bits, shifted, Pair { low: 0, high: 0 })?;
    Ok(cut)
}

/// The bits of a pair from a high one to a low one.
pub(crate) fn part(tape: &mut Tape, pair: Pair, high: u32, low: u32) -> Result<Pair, AllocError>
    requires tape { IsTape (tree_of tape.old) }
    requires pair { PairBefore (length (tree_of tape.old).gates) pair }
    requires order { low ≤ high }
    requires high { high < 128 }
    ensures extends { Extends (tree_of tape.old) (tree_of tape.new) }
    ensures slots { IfOk result (λ p. PairBefore (length (tree_of tape.new).gates) p) }
    ensures says { IfOk result (λ p. Says (tree_of tape.new) (λ cells ns. pair_value ns p ≡ (pair_value ns pair / 2 ^ low) % 2 ^ (high + 1 - low))) }
{
    let bits = high - low + 1;
    if high < 64 {
        let below = short_part(tape, pair.low, low, bits)?;
        return Ok(below);
    }
    if low >= 64 {
        let above = short_part(tape, pair.high, low - 64, bits)?;
        return Ok(above);
    }
    let across = long_part(tape, pair, low, bits)?;
    Ok(across)
}

// A pair with a part of a net, and none where the net has no slots or the part's bits do not fit.
fn pair_of_part(
    tape: &mut Tape,
    nets: &Nets,
    name: &Text,
    high: u32,
    low: u32,
) -> Result<Option<Pair>, AllocError>
    requires tape { IsTape (tree_of tape.old) }
    requires nets { SlotsBefore nets.now.pairs.now (length (tree_of tape.old).gates) }
    ensures extends { Extends (tree_of tape.old) (tree_of tape.new) }
    ensures slots { IfOk result (λ o. IfSome o (λ p. PairBefore (length (tree_of tape.new).gates) p)) }
    ensures says { IfOk result (λ o. IfSome o (λ p. Told nets.now.scope.now nets.now.pairs.now (tree_of tape.new)
        (λ s c ns. IsAtom nets.now.scope.now (atom_variants.Part name.now high low) s c ns p))) }
    ensures some { IsTrue (atom_fits nets.now.scope.now (atom_variants.Part name.now high low))
        → HavePairs nets.now.scope.now nets.now.pairs.now (atom_nets (atom_variants.Part name.now high low)) → IfOk result (λ o. IsSome o) }
{
    let Some(whole) = nets.pair(name) else {
        return Ok(None);
    };
    if low > high {
        return Ok(None);
    }
    if high >= 128 {
        return Ok(None);
    }
    let cut = part(tape, whole, high, low)?;
    Ok(Some(cut))
}

/// A pair with the number of an atom, and none where its net has no slots yet or its bits do not fit.
pub fn pair_of_atom(tape: &mut Tape, nets: &Nets, atom: &Atom) -> Result<Option<Pair>, AllocError>
    requires tape { IsTape (tree_of tape.old) }
    requires nets { SlotsBefore nets.now.pairs.now (length (tree_of tape.old).gates) }
    ensures extends { Extends (tree_of tape.old) (tree_of tape.new) }
    ensures slots { IfOk result (λ o. IfSome o (λ p. PairBefore (length (tree_of tape.new).gates) p)) }
    ensures says { IfOk result (λ o. IfSome o (λ p. Told nets.now.scope.now nets.now.pairs.now (tree_of tape.new) (λ s c ns. IsAtom nets.now.scope.now atom.now s c ns p))) }
    ensures some { IsTrue (atom_fits nets.now.scope.now atom.now) → HavePairs nets.now.scope.now nets.now.pairs.now (atom_nets atom.now) → IfOk result (λ o. IsSome o) }
{
    match atom {
        Atom::Net(x) => Ok(nets.pair(x)),
        Atom::Part { net: x, high, low } => pair_of_part(tape, nets, x, *high, *low),
        Atom::Literal { value: n, .. } => {
            let pair = literal(tape, *n)?;
            Ok(Some(pair))
        }
    }
}
