// What a task's module has for each register, array, stream or memory of its task.

ghost use Rattle.std.specs.Prelude.{◌≡◌, IfOk};
ghost use Rattle.hw_build.specs.Elements.{with_all};
ghost use Rattle.hw_build.specs.Scope.{each};
ghost use Rattle.hw_nets.specs.Shapes.{form};
ghost use Rattle.hw_outputs.specs.Parts.{part_count, part_of};

use crate::blocks::{add_array_block, add_variable_block};
use crate::outputs::{add_array_choices, add_memory, add_stream, add_variable_choices};
use hw_build::Draft;
use hw_states::Machine;
use std::alloc::{AllocError, Global};

/// A part of a task's module that each register, array, stream or memory has.
#[derive(Clone, Copy)]
pub(crate) enum Part {
    /// The choices of registers.
    Variables,
    /// The choices of arrays.
    Arrays,
    /// The outputs to streams.
    Streams,
    /// The outputs to memories.
    Memories,
    /// The blocks of registers.
    VariableBlocks,
    /// The blocks of arrays.
    ArrayBlocks,
}

fn count_of(machine: &Machine, part: Part) -> Result<u32, AllocError>
    ensures { IfOk result (λ n. n ≡ part_count (form machine.now.shape) part) }
{
    match part {
        Part::Variables => machine.shape.registers(),
        Part::Arrays => machine.shape.arrays(),
        Part::Streams => machine.shape.streams(),
        Part::Memories => machine.shape.memories(),
        Part::VariableBlocks => machine.shape.registers(),
        Part::ArrayBlocks => machine.shape.arrays(),
    }
}

fn add_one(
    alloc: Global,
    draft: &mut Draft,
    machine: &Machine,
    part: Part,
    i: u32,
) -> Result<(), AllocError>
    ensures { IfOk result (λ u. draft.new ≡ with_all draft.old (part_of (form machine.now.shape) part i)) }
{
    match part {
        Part::Variables => add_variable_choices(alloc, draft, machine, i),
        Part::Arrays => add_array_choices(alloc, draft, machine, i),
        Part::Streams => add_stream(alloc, draft, machine, i),
        Part::Memories => add_memory(alloc, draft, machine, i),
        Part::VariableBlocks => add_variable_block(alloc, draft, machine, i),
        Part::ArrayBlocks => add_array_block(alloc, draft, machine, i),
    }
}

/// Adds a part for each register, array, stream or memory.
#[tactic(auto, using(hw_nets::proofs::Grows::each_step))]
pub(crate) fn add_each(
    alloc: Global,
    draft: &mut Draft,
    machine: &Machine,
    part: Part,
) -> Result<(), AllocError>
    ensures { IfOk result (λ u. draft.new ≡ with_all draft.old (each (part_of (form machine.now.shape) part) (part_count (form machine.now.shape) part))) }
{
    let count = count_of(machine, part)?;
    for i in 0..count {
        add_one(alloc, draft, machine, part, i)?;
    }
    Ok(())
}
