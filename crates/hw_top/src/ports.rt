// The ports of the top: scalars and memories.

ghost use Rattle.std.specs.Prelude.{◌≡◌, ◌++◌, IfOk, length, slice_get};
ghost use Rattle.hw_build.specs.Elements.{with_all};
ghost use Rattle.hw_build.specs.Scope.{each};
ghost use Rattle.hw_top_lines.specs.Texts.{scalar_port, memory_ports, ports};

use crate::names::{ack, addr, rdata, scalar, wdata, we};
use hw_build::Draft;
use std::alloc::{AllocError, Global};
use tapa_base::narrow;
use tapa_syntax::Program;

fn add_scalar(alloc: Global, draft: &mut Draft, program: &Program, x: u32) -> Result<(), AllocError>
    ensures { IfOk result (λ u. draft.new ≡ with_all draft.old (scalar_port (slice_get program.now.scalars.items x))) }
{
    match program.scalars.get(x as usize) {
        Some(c) => {
            let port = scalar(alloc, &c.name)?;
            draft.input(alloc, c.kind.bits(), port.bytes())
        }
        None => Ok(()),
    }
}

fn add_memory(alloc: Global, draft: &mut Draft, program: &Program, m: u32) -> Result<(), AllocError>
    ensures { IfOk result (λ u. draft.new ≡ with_all draft.old (memory_ports (slice_get program.now.memories.items m))) }
{
    match program.memories.get(m as usize) {
        Some(memory) => {
            let width = memory.kind.bits();
            draft.outlet(alloc, 64, addr(alloc, &memory.name)?.bytes())?;
            draft.outlet(alloc, width, wdata(alloc, &memory.name)?.bytes())?;
            draft.outlet(alloc, 1, we(alloc, &memory.name)?.bytes())?;
            draft.input(alloc, 1, ack(alloc, &memory.name)?.bytes())?;
            draft.input(alloc, width, rdata(alloc, &memory.name)?.bytes())
        }
        None => Ok(()),
    }
}

fn add_scalars(alloc: Global, draft: &mut Draft, program: &Program) -> Result<(), AllocError>
    ensures { IfOk result (λ u. draft.new ≡ with_all draft.old (each (λ x. scalar_port (slice_get program.now.scalars.items x)) (length program.now.scalars.items))) }
{
    let count = narrow(program.scalars.len())?;
    for x in 0..count {
        add_scalar(alloc, draft, program, x)?;
    }
    Ok(())
}

fn add_memories(alloc: Global, draft: &mut Draft, program: &Program) -> Result<(), AllocError>
    ensures { IfOk result (λ u. draft.new ≡ with_all draft.old (each (λ m. memory_ports (slice_get program.now.memories.items m)) (length program.now.memories.items))) }
{
    let count = narrow(program.memories.len())?;
    for m in 0..count {
        add_memory(alloc, draft, program, m)?;
    }
    Ok(())
}

/// Adds the ports of the scalars and the memories.
pub(crate) fn add_ports(
    alloc: Global,
    draft: &mut Draft,
    program: &Program,
) -> Result<(), AllocError>
    ensures { IfOk result (λ u. draft.new ≡ with_all draft.old (ports program.now)) }
{
    add_scalars(alloc, draft, program)?;
    add_memories(alloc, draft, program)?;
    Ok(())
}
