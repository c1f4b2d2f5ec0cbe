// Inputs, registers and arrays, and the nets at the reader's end of a stream.

ghost use Rattle.std.specs.Prelude.{◌≡◌, ◌∷◌, ◌++◌, [], IfOk, length};
ghost use Rattle.hw_build.specs.Elements.{Input, Register, with, with_all};
ghost use Rattle.hw_build.specs.Scope.{each};
ghost use Rattle.hw_lines.specs.declared.nets.Net.TheVariants.{Ended, State};
ghost use Rattle.hw_lines.specs.Nets.{name as name_lem};
ghost use Rattle.hw_lines.specs.Shape.{state_bits};
ghost use Rattle.hw_lines.specs.Texts.{array, held, inputs, memory_inputs, offered, offers, scalar_port, stream_inputs, variable};
ghost use Rattle.hw_nets.specs.Shapes.{form};

use hw_build::Draft;
use hw_lines::Net;
use hw_nets::{Shape, binary, name, net};
use hw_states::{add_wire, end_of_transaction};
use std::alloc::{AllocError, Global};
use vlog_tree::{BinaryOp, Value};

fn add_input(alloc: Global, draft: &mut Draft, width: u32, port: Net) -> Result<(), AllocError>
    ensures { IfOk result (λ u. draft.new ≡ with draft.old (Input width (name_lem port))) }
{
    let name = name(alloc, port)?;
    draft.input(alloc, width, name.bytes())
}

fn add_register(alloc: Global, draft: &mut Draft, width: u32, net: Net) -> Result<(), AllocError>
    ensures { IfOk result (λ u. draft.new ≡ with draft.old (Register width (name_lem net))) }
{
    let name = name(alloc, net)?;
    draft.register(alloc, width, name.bytes())
}

fn add_scalar(alloc: Global, draft: &mut Draft, shape: &Shape, i: u32) -> Result<(), AllocError>
    ensures { IfOk result (λ u. draft.new ≡ with_all draft.old (scalar_port (form shape.now) i)) }
{
    let kind = shape.register_kind(shape.scalar(i));
    add_input(alloc, draft, kind.bits(), Net::Scalar(i))
}

#[tactic(auto, using(hw_nets::proofs::Grows::each_step))]
fn add_scalars(alloc: Global, draft: &mut Draft, shape: &Shape) -> Result<(), AllocError>
    ensures { IfOk result (λ u. draft.new ≡ with_all draft.old (each (scalar_port (form shape.now)) (length (form shape.now).scalars))) }
{
    let count = shape.scalars()?;
    for i in 0..count {
        add_scalar(alloc, draft, shape, i)?;
    }
    Ok(())
}

fn add_stream_inputs(
    alloc: Global,
    draft: &mut Draft,
    shape: &Shape,
    s: u32,
) -> Result<(), AllocError>
    ensures { IfOk result (λ u. draft.new ≡ with_all draft.old (stream_inputs (form shape.now) s)) }
{
    if shape.writes(s) {
        add_input(alloc, draft, 1, Net::Rdy(s))
    } else {
        add_input(alloc, draft, 1, Net::Has(s))?;
        add_input(alloc, draft, shape.token_bits(s), Net::Dout(s))
    }
}

#[tactic(auto, using(hw_nets::proofs::Grows::each_step))]
fn add_streams(alloc: Global, draft: &mut Draft, shape: &Shape) -> Result<(), AllocError>
    ensures { IfOk result (λ u. draft.new ≡ with_all draft.old (each (stream_inputs (form shape.now)) (length (form shape.now).streams))) }
{
    let count = shape.streams()?;
    for s in 0..count {
        add_stream_inputs(alloc, draft, shape, s)?;
    }
    Ok(())
}

fn add_memory_inputs(
    alloc: Global,
    draft: &mut Draft,
    shape: &Shape,
    m: u32,
) -> Result<(), AllocError>
    ensures { IfOk result (λ u. draft.new ≡ with_all draft.old (memory_inputs (form shape.now) m)) }
{
    add_input(alloc, draft, 1, Net::Ack(m))?;
    add_input(alloc, draft, shape.memory_kind(m).bits(), Net::Rdata(m))
}

#[tactic(auto, using(hw_nets::proofs::Grows::each_step))]
fn add_memories(alloc: Global, draft: &mut Draft, shape: &Shape) -> Result<(), AllocError>
    ensures { IfOk result (λ u. draft.new ≡ with_all draft.old (each (memory_inputs (form shape.now)) (length (form shape.now).memories))) }
{
    let count = shape.memories()?;
    for m in 0..count {
        add_memory_inputs(alloc, draft, shape, m)?;
    }
    Ok(())
}

/// Adds the inputs: scalars, streams, memories.
#[tactic(auto, using(hw_nets::proofs::Grows::all_append))]
pub(crate) fn add_inputs(alloc: Global, draft: &mut Draft, shape: &Shape) -> Result<(), AllocError>
    ensures { IfOk result (λ u. draft.new ≡ with_all draft.old (inputs (form shape.now))) }
{
    add_scalars(alloc, draft, shape)?;
    add_streams(alloc, draft, shape)?;
    add_memories(alloc, draft, shape)?;
    Ok(())
}

fn add_variable(alloc: Global, draft: &mut Draft, shape: &Shape, r: u32) -> Result<(), AllocError>
    ensures { IfOk result (λ u. draft.new ≡ with_all draft.old (variable (form shape.now) r)) }
{
    add_register(
        alloc,
        draft,
        shape.register_kind(r).bits(),
        Net::Variable(r),
    )
}

#[tactic(auto, using(hw_nets::proofs::Grows::each_step))]
fn add_variables(alloc: Global, draft: &mut Draft, shape: &Shape) -> Result<(), AllocError>
    ensures { IfOk result (λ u. draft.new ≡ with_all draft.old (each (variable (form shape.now)) (length (form shape.now).registers))) }
{
    let count = shape.registers()?;
    for r in 0..count {
        add_variable(alloc, draft, shape, r)?;
    }
    Ok(())
}

fn add_array(alloc: Global, draft: &mut Draft, shape: &Shape, a: u32) -> Result<(), AllocError>
    ensures { IfOk result (λ u. draft.new ≡ with_all draft.old (array (form shape.now) a)) }
{
    let name = name(alloc, Net::Array(a))?;
    let width = shape.array_kind(a).bits();
    draft.memory(alloc, width, name.bytes(), shape.array_cells(a))
}

#[tactic(auto, using(hw_nets::proofs::Grows::each_step))]
fn add_arrays(alloc: Global, draft: &mut Draft, shape: &Shape) -> Result<(), AllocError>
    ensures { IfOk result (λ u. draft.new ≡ with_all draft.old (each (array (form shape.now)) (length (form shape.now).arrays))) }
{
    let count = shape.arrays()?;
    for a in 0..count {
        add_array(alloc, draft, shape, a)?;
    }
    Ok(())
}

// The registers that every task has.
fn add_state(alloc: Global, draft: &mut Draft, shape: &Shape) -> Result<(), AllocError>
    ensures { IfOk result (λ u. draft.new ≡ with_all draft.old (Register (state_bits (form shape.now)) (name_lem State) ∷ Register 1 (name_lem Ended) ∷ [])) }
{
    let width = shape.state_bits()?;
    add_register(alloc, draft, width, Net::State)?;
    add_register(alloc, draft, 1, Net::Ended)
}

/// Adds the registers and the arrays.
#[tactic(auto, using(hw_nets::proofs::Grows::all_append))]
pub(crate) fn add_held(alloc: Global, draft: &mut Draft, shape: &Shape) -> Result<(), AllocError>
    ensures { IfOk result (λ u. draft.new ≡ with_all draft.old (held (form shape.now))) }
{
    add_state(alloc, draft, shape)?;
    add_variables(alloc, draft, shape)?;
    add_arrays(alloc, draft, shape)?;
    Ok(())
}

fn add_offer(alloc: Global, draft: &mut Draft, shape: &Shape, s: u32) -> Result<(), AllocError>
    ensures { IfOk result (λ u. draft.new ≡ with_all draft.old (offers (form shape.now) s)) }
{
    let plain = Value::Invert(end_of_transaction(alloc, shape, s)?);
    add_wire(alloc, draft, 1, Net::Plain(s), plain)?;
    let has = net(alloc, Net::Has(s))?;
    let datum = binary(has, BinaryOp::And, net(alloc, Net::Plain(s))?);
    add_wire(alloc, draft, 1, Net::Datum(s), datum)?;
    let there = net(alloc, Net::Has(s))?;
    let end = binary(there, BinaryOp::And, end_of_transaction(alloc, shape, s)?);
    add_wire(alloc, draft, 1, Net::Eot(s), end)
}

fn add_offered(alloc: Global, draft: &mut Draft, shape: &Shape, s: u32) -> Result<(), AllocError>
    ensures { IfOk result (λ u. draft.new ≡ with_all draft.old (offered (form shape.now) s)) }
{
    if shape.writes(s) {
        Ok(())
    } else {
        add_offer(alloc, draft, shape, s)
    }
}

/// Adds the nets at the reader's ends of streams.
#[tactic(auto, using(hw_nets::proofs::Grows::each_step))]
pub(crate) fn add_offers(alloc: Global, draft: &mut Draft, shape: &Shape) -> Result<(), AllocError>
    ensures { IfOk result (λ u. draft.new ≡ with_all draft.old (each (offered (form shape.now)) (length (form shape.now).streams))) }
{
    let count = shape.streams()?;
    for s in 0..count {
        add_offered(alloc, draft, shape, s)?;
    }
    Ok(())
}
