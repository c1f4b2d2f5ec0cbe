// The blocks of registers and memories.

ghost use Rattle.std.specs.Prelude.{◌≡◌, IfOk};
ghost use Rattle.std.specs.Str.{IsAscii};
ghost use Rattle.hw_build.specs.Elements.{copied, reset_or, reset_or_set, stored};
ghost use Rattle.vlog_tree.specs.declared.tree.Step.TheVariants.{NonblockingAssign};
ghost use Rattle.vlog_module_laws.specs.Forms.{reset_block};

use crate::texts::{reset_name, text};
use std::alloc::{AllocError, Global};
use vlog_tree::{Atom, Step};

fn assign(alloc: Global, register: &[u8], value: Atom) -> Result<Step, AllocError>
    requires { IsAscii register.now }
    ensures { IfOk result (λ step. step ≡ NonblockingAssign register.now value) }
{
    Ok(Step::NonblockingAssign {
        register: text(alloc, register)?,
        value,
    })
}

/// The register takes a value in each cycle.
pub fn copy_steps(alloc: Global, register: &[u8], value: Atom) -> Result<Vec<Step>, AllocError>
    requires { IsAscii register.now }
    ensures { IfOk result (λ steps. steps.items ≡ copied register.now value) }
{
    let mut steps = Vec::new(alloc);
    steps.push(assign(alloc, register, value)?)?;
    Ok(steps)
}

/// The register takes its first value in a cycle of reset, and else the next one.
pub fn reset_steps(
    alloc: Global,
    register: &[u8],
    first: Atom,
    next: Atom,
) -> Result<Vec<Step>, AllocError>
    requires { IsAscii register.now }
    ensures { IfOk result (λ steps. steps.items ≡ reset_or register.now first next) }
{
    let mut steps = Vec::new(alloc);
    steps.push(Step::If(reset_name(alloc)?))?;
    steps.push(assign(alloc, register, first)?)?;
    steps.push(Step::Else)?;
    steps.push(assign(alloc, register, next)?)?;
    steps.push(Step::End)?;
    Ok(steps)
}

/// The register takes its first value where `reset` is 1, and else the next one where `set` is 1.
pub fn first_set_steps(
    alloc: Global,
    reset: &[u8],
    register: &[u8],
    first: Atom,
    set: &[u8],
    next: Atom,
) -> Result<Vec<Step>, AllocError>
    requires reset { IsAscii reset.now }
    requires register { IsAscii register.now }
    requires set { IsAscii set.now }
    ensures { IfOk result (λ steps. steps.items ≡ reset_block reset.now set.now register.now first next) }
{
    let mut steps = Vec::new(alloc);
    steps.push(Step::If(text(alloc, reset)?))?;
    steps.push(assign(alloc, register, first)?)?;
    steps.push(Step::Else)?;
    steps.push(Step::If(text(alloc, set)?))?;
    steps.push(assign(alloc, register, next)?)?;
    steps.push(Step::End)?;
    steps.push(Step::End)?;
    Ok(steps)
}

/// The register takes its first value in a cycle of reset, and else the next one where `set` is 1.
#[tactic(auto, unfolding(vlog_tree::specs::Labels::rst))]
pub fn reset_set_steps(
    alloc: Global,
    register: &[u8],
    first: Atom,
    set: &[u8],
    next: Atom,
) -> Result<Vec<Step>, AllocError>
    requires register { IsAscii register.now }
    requires set { IsAscii set.now }
    ensures { IfOk result (λ steps. steps.items ≡ reset_or_set register.now first set.now next) }
{
    first_set_steps(alloc, b"rst", register, first, set, next)
}

/// The memory takes a value at an index where `write` is 1.
pub fn store_steps(
    alloc: Global,
    memory: &[u8],
    write: &[u8],
    index: &[u8],
    value: Atom,
) -> Result<Vec<Step>, AllocError>
    requires memory { IsAscii memory.now }
    requires write { IsAscii write.now }
    requires index { IsAscii index.now }
    ensures { IfOk result (λ steps. steps.items ≡ stored memory.now write.now index.now value) }
{
    let mut steps = Vec::new(alloc);
    steps.push(Step::If(text(alloc, write)?))?;
    steps.push(Step::MemoryAssign {
        memory: text(alloc, memory)?,
        index: text(alloc, index)?,
        value,
    })?;
    steps.push(Step::End)?;
    Ok(steps)
}
