// Drivers on a tape.

ghost use Rattle.std.specs.Prelude.{◌≤◌, length, IfOk, IfSome, IsSome, IsTrue};
ghost use Rattle.vlog_tree.specs.V3.{value_fits};
ghost use Rattle.sim_tape.specs.Tape.{Extends, IsTape, PairBefore};
ghost use Rattle.sim_tape.specs.Trees.{tree_of};
ghost use Rattle.sim_gates.specs.Nets.{SlotsBefore};
ghost use Rattle.sim_gates.specs.Drivers.{HasParts, IsDriven};

use crate::cells::pair_of_cell;
use crate::copies::pair_of_copies;
use crate::joining::pair_of_concat;
use crate::nets::Nets;
use crate::operators::{pair_of_binary, pair_of_choice, pair_of_inverse, pair_of_plain};
use sim_tape::{Pair, Tape};
use std::alloc::AllocError;
use vlog_tree::Value;

/// A pair with the value of a driver, for a target of some bits, and none where a net has no slots yet or bits do not fit.
pub fn pair_of_driver(
    tape: &mut Tape,
    nets: &Nets,
    bits: u32,
    value: &Value,
) -> Result<Option<Pair>, AllocError>
    requires tape { IsTape (tree_of tape.old) }
    requires nets { SlotsBefore nets.now.pairs.now (length (tree_of tape.old).gates) }
    ensures extends { Extends (tree_of tape.old) (tree_of tape.new) }
    ensures slots { IfOk result (λ o. IfSome o (λ p. PairBefore (length (tree_of tape.new).gates) p)) }
    ensures says { IsTrue (value_fits nets.now.scope.now bits value.now)
        → IfOk result (λ o. IfSome o (λ p. IsDriven nets.now.scope.now nets.now.pairs.now nets.now.memories.now bits value.now (tree_of tape.new) p)) }
    ensures some { bits ≤ 128 → IsTrue (value_fits nets.now.scope.now bits value.now) → HasParts nets.now.scope.now nets.now.pairs.now nets.now.memories.now value.now
        → IfOk result (λ o. IsSome o) }
{
    if bits > 128 {
        return Ok(None);
    }
    match value {
        Value::Plain(a) => pair_of_plain(tape, nets, bits, a),
        Value::Invert(a) => pair_of_inverse(tape, nets, bits, a),
        Value::Binary { left, op, right } => pair_of_binary(tape, nets, bits, left, *op, right),
        Value::Choose { condition, yes, no } => {
            pair_of_choice(tape, nets, bits, condition, yes, no)
        }
        Value::Concat(atoms) => pair_of_concat(tape, nets, bits, atoms.atoms()),
        Value::Repeat { count, atom } => pair_of_copies(tape, nets, bits, *count, atom),
        Value::Cell { memory, index } => pair_of_cell(tape, nets, bits, memory, index),
    }
}
