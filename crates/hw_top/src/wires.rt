// The wires of the top, and when all is done.

ghost use Rattle.std.specs.Prelude.{◌≡◌, ◌-◌, ◌≤◌, ◌++◌, ◌∷◌, [], IfOk, length, slice_get};
ghost use Rattle.hw_build.specs.Elements.{Output, with_all};
ghost use Rattle.hw_build.specs.Trees.{tree_nodes};
ghost use Rattle.hw_build.specs.Scope.{each};
ghost use Rattle.vlog_tree.specs.Labels.{done as done_lem};
ghost use Rattle.hw_top_lines.specs.Names.{waits as waits_lem};
ghost use Rattle.hw_top_lines.specs.Bounds.{parameters};
ghost use Rattle.hw_top_lines.specs.Texts.{at_instance, doneness, ended_wire, is_detached as is_detached_lem, none_waits as none_waits_lem, still_waits as still_waits_lem};
ghost use Rattle.hw_top_lines.specs.Texts.{stream_wires, take_wire, waiting, wires};

use crate::bounds::add_parameters;
use crate::names::{din, done, dout, ended_net, has, rdy, take, waits, wr};
use hw_build::{Draft, net, numbered};
use hw_nets::literal;
use std::alloc::{AllocError, Global};
use tapa_base::{Kind, narrow};
use tapa_syntax::Program;
use vlog_tree::{Atom, Value};

fn add_stream(alloc: Global, draft: &mut Draft, program: &Program, s: u32) -> Result<(), AllocError>
    ensures { IfOk result (λ u. draft.new ≡ with_all draft.old (stream_wires (slice_get program.now.streams.items s))) }
{
    match program.streams.get(s as usize) {
        Some(r) => {
            let width = r.kind.token_bits();
            draft.link(alloc, width, din(alloc, &r.label)?.bytes())?;
            draft.link(alloc, 1, wr(alloc, &r.label)?.bytes())?;
            draft.link(alloc, 1, rdy(alloc, &r.label)?.bytes())?;
            draft.link(alloc, 1, has(alloc, &r.label)?.bytes())?;
            draft.link(alloc, width, dout(alloc, &r.label)?.bytes())
        }
        None => Ok(()),
    }
}

fn add_take(alloc: Global, draft: &mut Draft, program: &Program, s: u32) -> Result<(), AllocError>
    ensures { IfOk result (λ u. draft.new ≡ with_all draft.old (take_wire (slice_get program.now.streams.items s))) }
{
    match program.streams.get(s as usize) {
        Some(r) => draft.link(alloc, 1, take(alloc, &r.label)?.bytes()),
        None => Ok(()),
    }
}

fn add_ended(alloc: Global, draft: &mut Draft, i: u32) -> Result<(), AllocError>
    ensures { IfOk result (λ u. draft.new ≡ with_all draft.old (ended_wire i)) }
{
    draft.link(alloc, 1, ended_net(alloc, i)?.bytes())
}

fn add_instance(
    alloc: Global,
    draft: &mut Draft,
    program: &Program,
    i: u32,
) -> Result<(), AllocError>
    ensures { IfOk result (λ u. draft.new ≡ with_all draft.old (at_instance program.now (parameters program.now) i)) }
{
    match program.instances.get(i as usize) {
        Some(x) => {
            match program.bodies.get(x.body as usize) {
                Some(leaf) => add_parameters(alloc, draft, program, i, x, leaf),
                None => Ok(()),
            }
        }
        None => Ok(()),
    }
}

fn add_streams(alloc: Global, draft: &mut Draft, program: &Program) -> Result<(), AllocError>
    ensures { IfOk result (λ u. draft.new ≡ with_all draft.old (each (λ s. stream_wires (slice_get program.now.streams.items s)) (length program.now.streams.items))) }
{
    let count = narrow(program.streams.len())?;
    for s in 0..count {
        add_stream(alloc, draft, program, s)?;
    }
    Ok(())
}

fn add_takes(alloc: Global, draft: &mut Draft, program: &Program) -> Result<(), AllocError>
    ensures { IfOk result (λ u. draft.new ≡ with_all draft.old (each (λ s. take_wire (slice_get program.now.streams.items s)) (length program.now.streams.items))) }
{
    let count = narrow(program.streams.len())?;
    for s in 0..count {
        add_take(alloc, draft, program, s)?;
    }
    Ok(())
}

fn add_bounds(alloc: Global, draft: &mut Draft, program: &Program) -> Result<(), AllocError>
    ensures { IfOk result (λ u. draft.new ≡ with_all draft.old (each (at_instance program.now (parameters program.now)) (length program.now.instances.items))) }
{
    let count = narrow(program.instances.len())?;
    for i in 0..count {
        add_instance(alloc, draft, program, i)?;
    }
    Ok(())
}

fn add_ends(alloc: Global, draft: &mut Draft, program: &Program) -> Result<(), AllocError>
    ensures { IfOk result (λ u. draft.new ≡ with_all draft.old (each ended_wire (length program.now.instances.items))) }
{
    let count = narrow(program.instances.len())?;
    for i in 0..count {
        add_ended(alloc, draft, i)?;
    }
    Ok(())
}

/// Adds the wires that instances drive, and the values that their scalar parameters are bound to.
pub fn add_all_wires(alloc: Global, draft: &mut Draft, program: &Program) -> Result<(), AllocError>
    ensures { IfOk result (λ u. draft.new ≡ with_all draft.old (wires program.now)) }
{
    add_streams(alloc, draft, program)?;
    add_bounds(alloc, draft, program)?;
    add_ends(alloc, draft, program)?;
    add_takes(alloc, draft, program)?;
    Ok(())
}

fn is_detached(program: &Program, i: u32) -> bool
    ensures { result ≡ is_detached_lem (slice_get program.now.instances.items i) }
{
    match program.instances.get(i as usize) {
        Some(x) => x.detached,
        None => true,
    }
}

// Whether an instance is waited for.
fn still_waits(alloc: Global, i: u32, detached: bool) -> Result<Value, AllocError>
    ensures { IfOk result (λ v. v ≡ still_waits_lem i detached) }
{
    if detached {
        return Ok(Value::Plain(literal(1, 0)));
    }
    let ended = ended_net(alloc, i)?;
    Ok(Value::Invert(net(alloc, ended.bytes())?))
}

fn add_waiting(
    alloc: Global,
    draft: &mut Draft,
    program: &Program,
    i: u32,
) -> Result<(), AllocError>
    ensures { IfOk result (λ u. draft.new ≡ with_all draft.old (waiting program.now i)) }
{
    let front = waits(alloc)?;
    let name = numbered(alloc, front.bytes(), i)?;
    let value = still_waits(alloc, i, is_detached(program, i))?;
    draft.wire(alloc, 1, name.bytes(), value)
}

fn add_all_waiting(alloc: Global, draft: &mut Draft, program: &Program) -> Result<(), AllocError>
    ensures { IfOk result (λ u. draft.new ≡ with_all draft.old (each (waiting program.now) (length program.now.instances.items))) }
{
    let count = narrow(program.instances.len())?;
    for i in 0..count {
        add_waiting(alloc, draft, program, i)?;
    }
    Ok(())
}

// That no instance is waited for.
fn none_waits(alloc: Global, count: u32) -> Result<Value, AllocError>
    requires { count ≤ 512 }
    ensures { IfOk result (λ v. v ≡ none_waits_lem count) }
{
    if count == 0 {
        return Ok(Value::Plain(literal(1, 1)));
    }
    let front = waits(alloc)?;
    let root = numbered(alloc, front.bytes(), 2 * count - 2)?;
    Ok(Value::Invert(Atom::Net(root)))
}

fn add_tree(alloc: Global, draft: &mut Draft, count: u32) -> Result<(), AllocError>
    requires { count ≤ 512 }
    ensures { IfOk result (λ u. draft.new ≡ with_all draft.old (tree_nodes 1 waits_lem count (count - 1))) }
{
    let front = waits(alloc)?;
    draft.or_tree(alloc, 1, front.bytes(), count)
}

fn add_output(alloc: Global, draft: &mut Draft, count: u32) -> Result<(), AllocError>
    requires { count ≤ 512 }
    ensures { IfOk result (λ u. draft.new ≡ with_all draft.old (Output 1 done_lem (none_waits_lem count) ∷ [])) }
{
    let name = done(alloc)?;
    let value = none_waits(alloc, count)?;
    draft.output(alloc, 1, name.bytes(), value)
}

/// Adds the output that says that all is done.
pub fn add_done(alloc: Global, draft: &mut Draft, program: &Program) -> Result<(), AllocError>
    requires { length program.now.instances.items ≤ 512 }
    ensures { IfOk result (λ u. draft.new ≡ with_all draft.old (doneness program.now)) }
{
    add_all_waiting(alloc, draft, program)?;
    let count = narrow(program.instances.len())?;
    add_tree(alloc, draft, count)?;
    add_output(alloc, draft, count)?;
    Ok(())
}
