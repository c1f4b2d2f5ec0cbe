// Cells of memories as drivers.

ghost use Rattle.std.specs.Prelude.{◌≡◌, ◌^◌, ◌<◌, ◌≤◌, length, IfOk, IfSome, IsSome, IsTrue};
ghost use Rattle.sim_tape.specs.Operators.{cell_in};
ghost use Rattle.sim_tape.specs.Tape.{number_at, pair_value};
ghost use Rattle.sim_tape.specs.Solved.{Says};
ghost use Rattle.sim_gates.specs.Drivers.{cell_at};
ghost use Rattle.vlog_tree.specs.declared.tree.Value.TheVariants as driver;
ghost use Rattle.vlog_tree.specs.V3.{value_fits};
ghost use Rattle.sim_tape.specs.Tape.{Extends, IsTape, PairBefore};
ghost use Rattle.sim_tape.specs.Trees.{tree_of};
ghost use Rattle.sim_gates.specs.Nets.{SlotsBefore};
ghost use Rattle.sim_gates.specs.Drivers.{HasParts, IsDriven};

use crate::nets::Nets;
use sim_tape::{Operator, Pair, Tape};
use std::alloc::AllocError;
use tapa_base::Text;

// Half of a cell at an address of at most 64 bits.
fn near_half(tape: &mut Tape, memory: u32, at: Pair) -> Result<u32, AllocError>
    requires tape { IsTape (tree_of tape.old) }
    requires at { PairBefore (length (tree_of tape.old).gates) at }
    ensures extends { Extends (tree_of tape.old) (tree_of tape.new) }
    ensures slot { IfOk result (λ r. r < length (tree_of tape.new).gates) }
    ensures says { IfOk result (λ r. Says (tree_of tape.new) (λ cells ns. number_at ns r ≡ cell_in cells memory (number_at ns at.low))) }
{
    let number = tape.constant(u64::from(memory))?;
    let cell = tape.operate(Operator::Cell, at.low, number, 0)?;
    Ok(cell)
}

// Half of a cell at an address: none is read past 2^64.
fn half_of_cell(tape: &mut Tape, memory: u32, at: Pair, is_narrow: bool) -> Result<u32, AllocError>
    requires tape { IsTape (tree_of tape.old) }
    requires at { PairBefore (length (tree_of tape.old).gates) at }
    ensures extends { Extends (tree_of tape.old) (tree_of tape.new) }
    ensures slot { IfOk result (λ r. r < length (tree_of tape.new).gates) }
    ensures says { IfOk result (λ r. Says (tree_of tape.new) (λ cells ns. (IsTrue is_narrow → pair_value ns at < 2 ^ 64) → number_at ns r ≡ cell_at cells memory (pair_value ns at))) }
{
    let cell = near_half(tape, memory, at)?;
    if is_narrow {
        return Ok(cell);
    }
    let inside = tape.operate(Operator::Equals, at.high, 0, 0)?;
    let half = tape.operate(Operator::Choose, inside, cell, 0)?;
    Ok(half)
}

/// A pair with a memory's cell whose address is on a net.
pub(crate) fn pair_of_cell(
    tape: &mut Tape,
    nets: &Nets,
    bits: u32,
    memory: &Text,
    index: &Text,
) -> Result<Option<Pair>, AllocError>
    requires tape { IsTape (tree_of tape.old) }
    requires nets { SlotsBefore nets.now.pairs.now (length (tree_of tape.old).gates) }
    requires bits { bits ≤ 128 }
    ensures extends { Extends (tree_of tape.old) (tree_of tape.new) }
    ensures slots { IfOk result (λ o. IfSome o (λ p. PairBefore (length (tree_of tape.new).gates) p)) }
    ensures says { IsTrue (value_fits nets.now.scope.now bits (driver.Cell memory.now index.now))
        → IfOk result (λ o. IfSome o (λ p. IsDriven nets.now.scope.now nets.now.pairs.now nets.now.memories.now bits (driver.Cell memory.now index.now)
        (tree_of tape.new) p)) }
    ensures some { IsTrue (value_fits nets.now.scope.now bits (driver.Cell memory.now index.now))
        → HasParts nets.now.scope.now nets.now.pairs.now nets.now.memories.now (driver.Cell memory.now index.now) → IfOk result (λ o. IsSome o) }
{
    let Some(halves) = nets.memory(memory) else {
        return Ok(None);
    };
    let Some(at) = nets.pair(index) else {
        return Ok(None);
    };
    let width = nets.bits(index);
    let is_narrow = width <= 64;
    let low = half_of_cell(tape, halves.low, at, is_narrow)?;
    if nets.bits(memory) <= 64 {
        return Ok(Some(Pair { low, high: 0 }));
    }
    let high = half_of_cell(tape, halves.high, at, is_narrow)?;
    Ok(Some(Pair { low, high }))
}
