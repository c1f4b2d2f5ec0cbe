// Copies as drivers.

ghost use Rattle.std.specs.Prelude.{◌≡◌, ◌≤◌, length, IfOk, IfSome, IsSome, IsTrue};
ghost use Rattle.vlog_tree.specs.Cycle.{copies};
ghost use Rattle.vlog_values.specs.Numbers.{fitting};
ghost use Rattle.vlog_tree.specs.declared.tree.Value.TheVariants as driver;
ghost use Rattle.vlog_tree.specs.V3.{value_fits};
ghost use Rattle.sim_tape.specs.Tape.{Extends, IsTape, PairBefore};
ghost use Rattle.sim_tape.specs.Trees.{tree_of};
ghost use Rattle.sim_gates.specs.Nets.{SlotsBefore};
ghost use Rattle.sim_gates.specs.Drivers.{HasParts, IsDriven};

use crate::atoms::{literal, pair_of_atom};
use crate::binary::pair_of_operator;
use crate::nets::Nets;
use crate::operators::are_narrow;
use sim_tape::{Pair, Tape};
use std::alloc::AllocError;
use vlog_tree::{Atom, BinaryOp, Value};
use vlog_values::value_of;

// The number that has 1 in each of `count` copies of `bits` bits.
fn one_in_each(bits: u32, count: u32) -> Option<u128>
    ensures { result ≡ fitting (copies bits 1 count) }
{
    let one = Atom::Literal {
        width: bits,
        value: 1,
    };
    value_of(&[], &[], 0, &Value::Repeat { count, atom: one })
}

/// A pair with copies of an atom below each other: a product with the number that has 1 in each.
pub(crate) fn pair_of_copies(
    tape: &mut Tape,
    nets: &Nets,
    bits: u32,
    count: u32,
    atom: &Atom,
) -> Result<Option<Pair>, AllocError>
    requires tape { IsTape (tree_of tape.old) }
    requires nets { SlotsBefore nets.now.pairs.now (length (tree_of tape.old).gates) }
    requires bits { bits ≤ 128 }
    ensures extends { Extends (tree_of tape.old) (tree_of tape.new) }
    ensures slots { IfOk result (λ o. IfSome o (λ p. PairBefore (length (tree_of tape.new).gates) p)) }
    ensures says { IsTrue (value_fits nets.now.scope.now bits (driver.Repeat count atom.now))
        → IfOk result (λ o. IfSome o (λ p. IsDriven nets.now.scope.now nets.now.pairs.now nets.now.memories.now bits (driver.Repeat count atom.now) (tree_of tape.new) p)) }
    ensures some { IsTrue (value_fits nets.now.scope.now bits (driver.Repeat count atom.now))
        → HasParts nets.now.scope.now nets.now.pairs.now nets.now.memories.now (driver.Repeat count atom.now) → IfOk result (λ o. IsSome o) }
{
    let width = nets.atom_bits(atom);
    let Some(pair) = pair_of_atom(tape, nets, atom)? else {
        return Ok(None);
    };
    if width > 128 {
        return Ok(None);
    }
    let Some(number) = one_in_each(width as u32, count) else {
        return Ok(None);
    };
    let ones = literal(tape, number)?;
    let is_narrow = are_narrow(bits, width, u64::from(bits));
    let made = pair_of_operator(tape, bits, BinaryOp::Times, pair, ones, is_narrow)?;
    Ok(Some(made))
}
