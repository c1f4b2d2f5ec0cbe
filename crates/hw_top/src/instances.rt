// The instances of tasks and channels.

ghost use Rattle.std.specs.Prelude.{◌≡◌, ◌++◌, IfOk, length, slice_get, slice_index};
ghost use Rattle.hw_build.specs.Elements.{with_all};
ghost use Rattle.hw_build.specs.Scope.{each};
ghost use Rattle.hw_top_lines.specs.Texts.{at_instance, channel_part, instances, task_part};

use crate::ends::{channel_connections, task_connections};
use crate::names::{channel_instance, channel_name, task_instance, task_name};
use hw_build::Draft;
use std::alloc::{AllocError, Global};
use tapa_base::{narrow, number_at};
use tapa_syntax::{Instance, Leaf, Program};

fn add_part(
    alloc: Global,
    draft: &mut Draft,
    program: &Program,
    i: u32,
    x: &Instance,
    leaf: &Leaf,
) -> Result<(), AllocError>
    ensures { IfOk result (λ u. draft.new ≡ with_all draft.old (task_part program.now i x.now leaf.now)) }
{
    let module = task_name(alloc, &leaf.name)?;
    let name = task_instance(alloc, &x.label)?;
    let ends = task_connections(alloc, program, i, x, leaf)?;
    draft.instance(module, name, ends)
}

fn add_task(alloc: Global, draft: &mut Draft, program: &Program, i: u32) -> Result<(), AllocError>
    ensures { IfOk result (λ u. draft.new ≡ with_all draft.old (at_instance program.now (task_part program.now) i)) }
{
    match program.instances.get(i as usize) {
        Some(x) => {
            match program.bodies.get(x.body as usize) {
                Some(leaf) => add_part(alloc, draft, program, i, x, leaf),
                None => Ok(()),
            }
        }
        None => Ok(()),
    }
}

fn add_channel(
    alloc: Global,
    draft: &mut Draft,
    program: &Program,
    added: &[u32],
    s: u32,
) -> Result<(), AllocError>
    ensures { IfOk result (λ u. draft.new ≡ with_all draft.old (channel_part (slice_index added.now s) (slice_get program.now.streams.items s))) }
{
    match program.streams.get(s as usize) {
        Some(r) => {
            let module = channel_name(alloc, r.kind.token_bits(), r.depth, number_at(added, s))?;
            let name = channel_instance(alloc, &r.label)?;
            let ends = channel_connections(alloc, &r.label)?;
            draft.instance(module, name, ends)
        }
        None => Ok(()),
    }
}

fn add_tasks(alloc: Global, draft: &mut Draft, program: &Program) -> Result<(), AllocError>
    ensures { IfOk result (λ u. draft.new ≡ with_all draft.old (each (at_instance program.now (task_part program.now)) (length program.now.instances.items))) }
{
    let count = narrow(program.instances.len())?;
    for i in 0..count {
        add_task(alloc, draft, program, i)?;
    }
    Ok(())
}

fn add_channels(
    alloc: Global,
    draft: &mut Draft,
    program: &Program,
    added: &[u32],
) -> Result<(), AllocError>
    ensures { IfOk result (λ u. draft.new ≡ with_all draft.old (each (λ s. channel_part (slice_index added.now s) (slice_get program.now.streams.items s)) (length program.now.streams.items))) }
{
    let count = narrow(program.streams.len())?;
    for s in 0..count {
        add_channel(alloc, draft, program, added, s)?;
    }
    Ok(())
}

/// Adds the instances of tasks and channels.
pub(crate) fn add_instances(
    alloc: Global,
    draft: &mut Draft,
    program: &Program,
    added: &[u32],
) -> Result<(), AllocError>
    ensures { IfOk result (λ u. draft.new ≡ with_all draft.old (instances program.now added.now)) }
{
    add_tasks(alloc, draft, program)?;
    add_channels(alloc, draft, program, added)?;
    Ok(())
}
