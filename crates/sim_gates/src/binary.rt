// Operators on pairs.

ghost use Rattle.std.specs.Prelude.{◌≡◌, ◌+◌, ◌<◌, ◌≤◌, ◌^◌, ℕ, length, IfOk, IsTrue};
ghost use Rattle.vlog_tree.specs.Cycle.{op_value};
ghost use Rattle.vlog_tree.specs.declared.tree.BinaryOp.TheVariants as binary;
ghost use Rattle.sim_tape.specs.Tape.{Extends, IsTape, number_at, pair_value, PairBefore};
ghost use Rattle.sim_tape.specs.Solved.{Says};
ghost use Rattle.sim_tape.specs.Trees.{tree_of};
ghost use Rattle.sim_gates.specs.Operands.{narrow_of, IsBitwise};

use crate::atoms::mask_of;
use sim_tape::{Operator, Pair, Tape};
use std::alloc::AllocError;
use vlog_tree::BinaryOp;

fn narrow(op: BinaryOp) -> Operator
    ensures { result ≡ narrow_of op }
{
    match op {
        BinaryOp::Plus => Operator::Plus,
        BinaryOp::Minus => Operator::Minus,
        BinaryOp::Times => Operator::Times,
        BinaryOp::Divide => Operator::Divide,
        BinaryOp::Remainder => Operator::Remainder,
        BinaryOp::And => Operator::And,
        BinaryOp::Or => Operator::Or,
        BinaryOp::Xor => Operator::Xor,
        BinaryOp::ShiftLeft => Operator::ShiftLeft,
        BinaryOp::ShiftRight => Operator::ShiftRight,
        BinaryOp::Equals => Operator::Equals,
        BinaryOp::Differs => Operator::Differs,
        BinaryOp::Less => Operator::Less,
    }
}

fn is_bitwise(op: BinaryOp) -> bool
    ensures { IsTrue result → IsBitwise op }
{
    matches!(op, BinaryOp::And | BinaryOp::Or | BinaryOp::Xor)
}

// One gate, where all is of at most 64 bits.
fn one_gate(
    tape: &mut Tape,
    bits: u32,
    op: BinaryOp,
    left: Pair,
    right: Pair,
) -> Result<Pair, AllocError>
    requires tape { IsTape (tree_of tape.old) }
    requires bits { bits ≤ 64 }
    requires left { PairBefore (length (tree_of tape.old).gates) left }
    requires right { PairBefore (length (tree_of tape.old).gates) right }
    ensures extends { Extends (tree_of tape.old) (tree_of tape.new) }
    ensures slots { IfOk result (λ p. PairBefore (length (tree_of tape.new).gates) p) }
    ensures says { IfOk result (λ p. Says (tree_of tape.new)
        (λ cells ns. pair_value ns left < 2 ^ 64 → pair_value ns right < 2 ^ 64 → (op ≡ binary.Minus → pair_value ns right < 2 ^ bits)
        → pair_value ns p ≡ op_value bits op (pair_value ns left) (pair_value ns right))) }
{
    let mask = tape.constant(mask_of(bits))?;
    let low = tape.operate(narrow(op), left.low, right.low, mask)?;
    Ok(Pair { low, high: 0 })
}

// A gate for each half, where the operator goes bit by bit.
fn two_gates(
    tape: &mut Tape,
    bits: u32,
    op: BinaryOp,
    left: Pair,
    right: Pair,
) -> Result<Pair, AllocError>
    requires tape { IsTape (tree_of tape.old) }
    requires bitwise { IsBitwise op }
    requires left { PairBefore (length (tree_of tape.old).gates) left }
    requires right { PairBefore (length (tree_of tape.old).gates) right }
    ensures extends { Extends (tree_of tape.old) (tree_of tape.new) }
    ensures slots { IfOk result (λ p. PairBefore (length (tree_of tape.new).gates) p) }
    ensures says { IfOk result (λ p. Says (tree_of tape.new) (λ cells ns. pair_value ns p ≡ op_value bits op (pair_value ns left) (pair_value ns right))) }
{
    let by = narrow(op);
    let low = tape.operate(by, left.low, right.low, 0)?;
    let high = tape.operate(by, left.high, right.high, 0)?;
    Ok(Pair { low, high })
}

/// A pair with what an operator makes of two pairs of `bits` bits each, for a target of some bits.
pub fn pair_of_operator(
    tape: &mut Tape,
    bits: u32,
    op: BinaryOp,
    left: Pair,
    right: Pair,
    is_narrow: bool,
) -> Result<Pair, AllocError>
    requires tape { IsTape (tree_of tape.old) }
    requires bits { bits ≤ 128 }
    requires narrow { IsTrue is_narrow → bits ≤ 64 }
    requires left { PairBefore (length (tree_of tape.old).gates) left }
    requires right { PairBefore (length (tree_of tape.old).gates) right }
    ensures extends { Extends (tree_of tape.old) (tree_of tape.new) }
    ensures slots { IfOk result (λ p. PairBefore (length (tree_of tape.new).gates) p) }
    ensures says { IfOk result (λ p. Says (tree_of tape.new)
        (λ cells ns. (IsTrue is_narrow → (pair_value ns left < 2 ^ 64) × (pair_value ns right < 2 ^ 64)) → (op ≡ binary.Minus → pair_value ns right < 2 ^ bits)
        → pair_value ns p ≡ op_value bits op (pair_value ns left) (pair_value ns right))) }
{
    if is_narrow {
        let one = one_gate(tape, bits, op, left, right)?;
        return Ok(one);
    }
    if is_bitwise(op) {
        let two = two_gates(tape, bits, op, left, right)?;
        return Ok(two);
    }
    let wide = tape.wide(op, bits, left, right)?;
    Ok(wide)
}
