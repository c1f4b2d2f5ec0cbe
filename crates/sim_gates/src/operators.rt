// Atoms alone and operators as drivers.

ghost use Rattle.std.specs.Prelude.{◌≡◌, ◌≤◌, ◌&&◌, length, nat_le, IfOk, IfSome, IsSome, IsTrue};
ghost use Rattle.vlog_tree.specs.declared.tree.Value.TheVariants as driver;
ghost use Rattle.vlog_tree.specs.V3.{value_fits};
ghost use Rattle.sim_tape.specs.Tape.{Extends, IsTape, PairBefore};
ghost use Rattle.sim_tape.specs.Trees.{tree_of};
ghost use Rattle.sim_gates.specs.Nets.{SlotsBefore};
ghost use Rattle.sim_gates.specs.Drivers.{HasParts, IsDriven};

use crate::atoms::pair_of_atom;
use crate::binary::pair_of_operator;
use crate::joins::{choose, invert};
use crate::nets::Nets;
use sim_tape::{Pair, Tape};
use std::alloc::AllocError;
use vlog_tree::{Atom, BinaryOp};

/// Whether a target and two operands have at most 64 bits each.
pub(crate) fn are_narrow(bits: u32, left: u64, right: u64) -> bool
    ensures { result ≡ (nat_le bits 64 && nat_le left 64 && nat_le right 64) }
{
    bits <= 64 && left <= 64 && right <= 64
}

/// A pair with an atom's number.
pub(crate) fn pair_of_plain(
    tape: &mut Tape,
    nets: &Nets,
    bits: u32,
    atom: &Atom,
) -> Result<Option<Pair>, AllocError>
    requires tape { IsTape (tree_of tape.old) }
    requires nets { SlotsBefore nets.now.pairs.now (length (tree_of tape.old).gates) }
    requires bits { bits ≤ 128 }
    ensures extends { Extends (tree_of tape.old) (tree_of tape.new) }
    ensures slots { IfOk result (λ o. IfSome o (λ p. PairBefore (length (tree_of tape.new).gates) p)) }
    ensures says { IsTrue (value_fits nets.now.scope.now bits (driver.Plain atom.now))
        → IfOk result (λ o. IfSome o (λ p. IsDriven nets.now.scope.now nets.now.pairs.now nets.now.memories.now bits (driver.Plain atom.now) (tree_of tape.new) p)) }
    ensures some { IsTrue (value_fits nets.now.scope.now bits (driver.Plain atom.now))
        → HasParts nets.now.scope.now nets.now.pairs.now nets.now.memories.now (driver.Plain atom.now) → IfOk result (λ o. IsSome o) }
{
    let Some(pair) = pair_of_atom(tape, nets, atom)? else {
        return Ok(None);
    };
    Ok(Some(pair))
}

/// A pair with the complement of an atom's number.
pub(crate) fn pair_of_inverse(
    tape: &mut Tape,
    nets: &Nets,
    bits: u32,
    atom: &Atom,
) -> Result<Option<Pair>, AllocError>
    requires tape { IsTape (tree_of tape.old) }
    requires nets { SlotsBefore nets.now.pairs.now (length (tree_of tape.old).gates) }
    requires bits { bits ≤ 128 }
    ensures extends { Extends (tree_of tape.old) (tree_of tape.new) }
    ensures slots { IfOk result (λ o. IfSome o (λ p. PairBefore (length (tree_of tape.new).gates) p)) }
    ensures says { IsTrue (value_fits nets.now.scope.now bits (driver.Invert atom.now))
        → IfOk result (λ o. IfSome o (λ p. IsDriven nets.now.scope.now nets.now.pairs.now nets.now.memories.now bits (driver.Invert atom.now) (tree_of tape.new) p)) }
    ensures some { IsTrue (value_fits nets.now.scope.now bits (driver.Invert atom.now))
        → HasParts nets.now.scope.now nets.now.pairs.now nets.now.memories.now (driver.Invert atom.now) → IfOk result (λ o. IsSome o) }
{
    let Some(pair) = pair_of_atom(tape, nets, atom)? else {
        return Ok(None);
    };
    let inverse = invert(tape, pair, bits)?;
    Ok(Some(inverse))
}

/// A pair with what an operator makes of two atoms.
pub(crate) fn pair_of_binary(
    tape: &mut Tape,
    nets: &Nets,
    bits: u32,
    left: &Atom,
    op: BinaryOp,
    right: &Atom,
) -> Result<Option<Pair>, AllocError>
    requires tape { IsTape (tree_of tape.old) }
    requires nets { SlotsBefore nets.now.pairs.now (length (tree_of tape.old).gates) }
    requires bits { bits ≤ 128 }
    ensures extends { Extends (tree_of tape.old) (tree_of tape.new) }
    ensures slots { IfOk result (λ o. IfSome o (λ p. PairBefore (length (tree_of tape.new).gates) p)) }
    ensures says { IsTrue (value_fits nets.now.scope.now bits (driver.Binary left.now op right.now))
        → IfOk result (λ o. IfSome o (λ p. IsDriven nets.now.scope.now nets.now.pairs.now nets.now.memories.now bits (driver.Binary left.now op right.now)
        (tree_of tape.new) p)) }
    ensures some { IsTrue (value_fits nets.now.scope.now bits (driver.Binary left.now op right.now))
        → HasParts nets.now.scope.now nets.now.pairs.now nets.now.memories.now (driver.Binary left.now op right.now) → IfOk result (λ o. IsSome o) }
{
    let Some(a) = pair_of_atom(tape, nets, left)? else {
        return Ok(None);
    };
    let Some(b) = pair_of_atom(tape, nets, right)? else {
        return Ok(None);
    };
    let is_narrow = are_narrow(bits, nets.atom_bits(left), nets.atom_bits(right));
    let made = pair_of_operator(tape, bits, op, a, b, is_narrow)?;
    Ok(Some(made))
}

/// A pair with the second or the third atom's number, by whether the first atom is 1.
pub(crate) fn pair_of_choice(
    tape: &mut Tape,
    nets: &Nets,
    bits: u32,
    condition: &Atom,
    yes: &Atom,
    no: &Atom,
) -> Result<Option<Pair>, AllocError>
    requires tape { IsTape (tree_of tape.old) }
    requires nets { SlotsBefore nets.now.pairs.now (length (tree_of tape.old).gates) }
    requires bits { bits ≤ 128 }
    ensures extends { Extends (tree_of tape.old) (tree_of tape.new) }
    ensures slots { IfOk result (λ o. IfSome o (λ p. PairBefore (length (tree_of tape.new).gates) p)) }
    ensures says { IsTrue (value_fits nets.now.scope.now bits (driver.Choose condition.now yes.now no.now))
        → IfOk result (λ o. IfSome o (λ p. IsDriven nets.now.scope.now nets.now.pairs.now nets.now.memories.now bits (driver.Choose condition.now yes.now no.now)
        (tree_of tape.new) p)) }
    ensures some { IsTrue (value_fits nets.now.scope.now bits (driver.Choose condition.now yes.now no.now))
        → HasParts nets.now.scope.now nets.now.pairs.now nets.now.memories.now (driver.Choose condition.now yes.now no.now) → IfOk result (λ o. IsSome o) }
{
    let Some(test) = pair_of_atom(tape, nets, condition)? else {
        return Ok(None);
    };
    let Some(a) = pair_of_atom(tape, nets, yes)? else {
        return Ok(None);
    };
    let Some(b) = pair_of_atom(tape, nets, no)? else {
        return Ok(None);
    };
    let chosen = choose(tape, test.low, a, b)?;
    Ok(Some(chosen))
}
