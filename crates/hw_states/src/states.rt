// The wires of one state.

ghost use Rattle.std.specs.Prelude.{◌≡◌, ◌<◌, ◌++◌, IfOk};
ghost use Rattle.hw_build.specs.Elements.{Wire, with, with_all};
ghost use Rattle.hw_build.specs.Trees.{numbered as numbered_lem};
ghost use Rattle.hw_build.specs.Scope.{each};
ghost use Rattle.task_fsm.specs.Machine.{form_of};
ghost use Rattle.hw_lines.specs.declared.nets.Net.TheVariants.{Variable};
ghost use Rattle.hw_lines.specs.Nets.{name as name_lem};
ghost use Rattle.hw_lines.specs.Shape.{form_at, state_count};
ghost use Rattle.hw_lines.specs.States.{counting, decoded, go_of, index_wires, into_of, more_wires, net as net_lem, next_of, next_wires, number_of as number_of_lem, packed, state_wires, value_wires};
ghost use Rattle.hw_states.specs.Operands.{IsOperands};
ghost use Rattle.hw_nets.specs.Shapes.{form};

use crate::operands::Operands;
use crate::parts::{awaited, index_of, index_reads, needs_go, value_kind, value_of};
use hw_build::{Draft, numbered};
use hw_expressions::compile;
use hw_lines::Net;
use hw_nets::{Shape, binary, choose, concat, copy, index_front, literal, name, net, value_front};
use hw_operators::Numbered;
use std::alloc::{AllocError, Global};
use tapa_base::{Kind, Text};
use task_fsm::State;
use vlog_tree::{Atom, BinaryOp, Value};

/// Adds the wire of a net.
pub fn add_wire(
    alloc: Global,
    draft: &mut Draft,
    width: u32,
    target: Net,
    value: Value,
) -> Result<(), AllocError>
    ensures { IfOk result (λ u. draft.new ≡ with draft.old (Wire width (name_lem target) value)) }
{
    let name = name(alloc, target)?;
    draft.wire(alloc, width, name.bytes(), value)
}

// Adds the wires of the index, and returns its atom.
fn add_index(
    alloc: Global,
    draft: &mut Draft,
    shape: &Shape,
    k: u32,
    state: &State,
) -> Result<Atom, AllocError>
    requires { form_of state.now ≡ form_at (form shape.now) k }
    ensures draft { IfOk result (λ a. draft.new ≡ with_all draft.old (index_wires (form shape.now) k).elements) }
    ensures atom { IfOk result (λ a. a ≡ (index_wires (form shape.now) k).atom) }
{
    let front = index_front(alloc, k)?;
    let at = Numbered::from_zero(&front);
    match index_of(state) {
        Some(index) => Ok(compile(alloc, draft, &at, 0, Kind::U64, index)?.atom),
        None => Ok(literal(64, 0)),
    }
}

// Adds the wires of the value, and returns its atom.
fn add_value(
    alloc: Global,
    draft: &mut Draft,
    shape: &Shape,
    k: u32,
    state: &State,
) -> Result<Atom, AllocError>
    requires { form_of state.now ≡ form_at (form shape.now) k }
    ensures draft { IfOk result (λ a. draft.new ≡ with_all draft.old (value_wires (form shape.now) k).elements) }
    ensures atom { IfOk result (λ a. a ≡ (value_wires (form shape.now) k).atom) }
{
    let front = value_front(alloc, k)?;
    let at = Numbered::from_zero(&front);
    let kind = value_kind(shape, state);
    let reads = index_reads(state)?;
    match value_of(state) {
        Some(value) => Ok(compile(alloc, draft, &at, reads, kind, value)?.atom),
        None => Ok(literal(kind.bits(), 0)),
    }
}

fn add_go(
    alloc: Global,
    draft: &mut Draft,
    k: u32,
    waits: Option<Net>,
    late: bool,
) -> Result<(), AllocError>
    ensures { IfOk result (λ u. draft.new ≡ with_all draft.old (go_of k waits late)) }
{
    match waits {
        None => Ok(()),
        Some(waits) => {
            if !late {
                return Ok(());
            }
            let go = binary(net(alloc, Net::At(k))?, BinaryOp::And, net(alloc, waits)?);
            add_wire(alloc, draft, 1, Net::Go(k), go)
        }
    }
}

/// The number of a state.
pub fn number_of(shape: &Shape, k: u32) -> Result<Atom, AllocError>
    ensures { IfOk result (λ a. a ≡ number_of_lem (form shape.now) k) }
{
    let width = shape.state_bits()?;
    Ok(literal(width, u128::from(k)))
}

fn add_next(
    alloc: Global,
    draft: &mut Draft,
    shape: &Shape,
    k: u32,
    test: Atom,
    yes: u32,
    no: u32,
) -> Result<(), AllocError>
    ensures { IfOk result (λ u. draft.new ≡ with_all draft.old (next_of (form shape.now) k test yes no)) }
{
    let width = shape.state_bits()?;
    let value = choose(test, number_of(shape, yes)?, number_of(shape, no)?);
    add_wire(alloc, draft, width, Net::Next(k), value)
}

// Where a state leads whose tick waits for a net.
fn add_waiting(
    alloc: Global,
    draft: &mut Draft,
    shape: &Shape,
    k: u32,
    waits: Net,
    next: u32,
) -> Result<(), AllocError>
    ensures { IfOk result (λ u. draft.new ≡ with_all draft.old (next_of (form shape.now) k (net_lem waits) next k)) }
{
    let test = net(alloc, waits)?;
    add_next(alloc, draft, shape, k, test, next, k)
}

fn add_next_wire(
    alloc: Global,
    draft: &mut Draft,
    shape: &Shape,
    k: u32,
    state: &State,
    value: &Atom,
) -> Result<(), AllocError>
    requires { value.now ≡ (value_wires (form shape.now) k).atom }
    ensures { IfOk result (λ u. draft.new ≡ with_all draft.old (next_wires (form shape.now) k (form_of state.now))) }
{
    match state {
        State::Test { yes, no, .. } => {
            let test = copy(alloc, value)?;
            add_next(alloc, draft, shape, k, test, *yes, *no)
        }
        State::Read { stream, next, .. } => {
            add_waiting(alloc, draft, shape, k, Net::Datum(*stream), *next)
        }
        State::Write { stream, next, .. } => {
            add_waiting(alloc, draft, shape, k, Net::Rdy(*stream), *next)
        }
        State::Peek { stream, next, .. } => {
            add_waiting(alloc, draft, shape, k, Net::Datum(*stream), *next)
        }
        State::Eot { stream, next, .. } => {
            add_waiting(alloc, draft, shape, k, Net::Has(*stream), *next)
        }
        State::Open { stream, next } => {
            add_waiting(alloc, draft, shape, k, Net::Eot(*stream), *next)
        }
        State::Close { stream, next } => {
            add_waiting(alloc, draft, shape, k, Net::Rdy(*stream), *next)
        }
        State::Load { memory, next, .. } => {
            add_waiting(alloc, draft, shape, k, Net::Ack(*memory), *next)
        }
        State::Store { memory, next, .. } => {
            add_waiting(alloc, draft, shape, k, Net::Ack(*memory), *next)
        }
        State::Clear { next, .. } => {
            let more = net(alloc, Net::Value(k, 0))?;
            add_next(alloc, draft, shape, k, more, k, *next)
        }
        _ => Ok(()),
    }
}

// Whether an index is one of an array's, and the cell is written.
fn add_into(
    alloc: Global,
    draft: &mut Draft,
    shape: &Shape,
    k: u32,
    array: u32,
    index: Atom,
    bits: u32,
) -> Result<(), AllocError>
    ensures { IfOk result (λ u. draft.new ≡ with_all draft.old (into_of (form shape.now) k array index bits)) }
{
    let cells = literal(bits, u128::from(shape.array_cells(array)));
    let inside = binary(index, BinaryOp::Less, cells);
    add_wire(alloc, draft, 1, Net::Inside(k), inside)?;
    let at = net(alloc, Net::At(k))?;
    let into = binary(at, BinaryOp::And, net(alloc, Net::Inside(k))?);
    add_wire(alloc, draft, 1, Net::Into(k), into)
}

// A wire of a number.
fn add_numbered(
    alloc: Global,
    draft: &mut Draft,
    width: u32,
    front: &Text,
    n: u32,
    value: Value,
) -> Result<(), AllocError>
    ensures { IfOk result (λ u. draft.new ≡ with draft.old (Wire width (numbered_lem front.now n) value)) }
{
    let name = numbered(alloc, front.bytes(), n)?;
    draft.wire(alloc, width, name.bytes(), value)
}

// A Clear's counter: whether more cells follow, one more, and what comes next.
fn add_counting(
    alloc: Global,
    draft: &mut Draft,
    shape: &Shape,
    k: u32,
    array: u32,
    counter: u32,
) -> Result<(), AllocError>
    ensures { IfOk result (λ u. draft.new ≡ with_all draft.old (counting (form shape.now) k array counter)) }
{
    let front = value_front(alloc, k)?;
    let last = literal(32, u128::from(shape.array_cells(array).saturating_sub(1)));
    let more = binary(net(alloc, Net::Variable(counter))?, BinaryOp::Less, last);
    add_numbered(alloc, draft, 1, &front, 0, more)?;
    let count = net(alloc, Net::Variable(counter))?;
    let up = binary(count, BinaryOp::Plus, literal(32, 1));
    add_numbered(alloc, draft, 32, &front, 1, up)?;
    let follows = net(alloc, Net::Value(k, 0))?;
    let next = choose(follows, net(alloc, Net::Value(k, 1))?, literal(32, 0));
    add_numbered(alloc, draft, 32, &front, 2, next)
}

// The token of a datum: its top bit, 0, says that it ends no transaction.
fn add_packed(
    alloc: Global,
    draft: &mut Draft,
    shape: &Shape,
    k: u32,
    stream: u32,
    value: &Atom,
) -> Result<(), AllocError>
    ensures { IfOk result (λ u. draft.new ≡ with_all draft.old (packed (form shape.now) k stream value.now)) }
{
    let token = concat(alloc, literal(1, 0), copy(alloc, value)?)?;
    add_wire(
        alloc,
        draft,
        shape.token_bits(stream),
        Net::Packed(k),
        token,
    )
}

// The wires of a Clear beside those that it shares with others.
fn add_clearing(
    alloc: Global,
    draft: &mut Draft,
    shape: &Shape,
    k: u32,
    array: u32,
    counter: u32,
) -> Result<(), AllocError>
    ensures { IfOk result (λ u. draft.new ≡ with_all draft.old (into_of (form shape.now) k array (net_lem (Variable counter)) 32 ++ counting (form shape.now) k array counter)) }
{
    let index = net(alloc, Net::Variable(counter))?;
    add_into(alloc, draft, shape, k, array, index, 32)?;
    add_counting(alloc, draft, shape, k, array, counter)?;
    Ok(())
}

fn add_more(
    alloc: Global,
    draft: &mut Draft,
    shape: &Shape,
    k: u32,
    state: &State,
    operands: &Operands,
) -> Result<(), AllocError>
    requires { IsOperands (form shape.now) k operands.now }
    ensures { IfOk result (λ u. draft.new ≡ with_all draft.old (more_wires (form shape.now) k (form_of state.now))) }
{
    match state {
        State::Cell { array, .. } => {
            let index = copy(alloc, &operands.index)?;
            add_into(alloc, draft, shape, k, *array, index, 64)
        }
        State::Write { stream, .. } => {
            add_packed(alloc, draft, shape, k, *stream, &operands.value)
        }
        State::Clear { array, count, .. } => {
            add_clearing(alloc, draft, shape, k, *array, *count)
        }
        _ => Ok(()),
    }
}

/// Adds the wires of a state, and returns the atoms of its index and value.
pub fn add_state(
    alloc: Global,
    draft: &mut Draft,
    shape: &Shape,
    k: u32,
) -> Result<Operands, AllocError>
    requires { k < state_count (form shape.now) }
    ensures draft { IfOk result (λ o. draft.new ≡ with_all draft.old (state_wires (form shape.now) k)) }
    ensures operands { IfOk result (λ o. IsOperands (form shape.now) k o) }
{
    let state = shape.state(k);
    let index = add_index(alloc, draft, shape, k, state)?;
    let value = add_value(alloc, draft, shape, k, state)?;
    let operands = Operands { index, value };
    add_more(alloc, draft, shape, k, state, &operands)?;
    add_go(alloc, draft, k, awaited(state), needs_go(state))?;
    add_next_wire(alloc, draft, shape, k, state, &operands.value)?;
    Ok(operands)
}

fn add_decode(alloc: Global, draft: &mut Draft, shape: &Shape, k: u32) -> Result<(), AllocError>
    ensures { IfOk result (λ u. draft.new ≡ with_all draft.old (decoded (form shape.now) k)) }
{
    let state = net(alloc, Net::State)?;
    let at = binary(state, BinaryOp::Equals, number_of(shape, k)?);
    add_wire(alloc, draft, 1, Net::At(k), at)
}

/// Adds the decodes of all states.
#[tactic(auto, using(hw_nets::proofs::Grows::each_step))]
pub fn add_decodes(alloc: Global, draft: &mut Draft, shape: &Shape) -> Result<(), AllocError>
    ensures { IfOk result (λ u. draft.new ≡ with_all draft.old (each (decoded (form shape.now)) (state_count (form shape.now)))) }
{
    let count = shape.state_count()?;
    for k in 0..count {
        add_decode(alloc, draft, shape, k)?;
    }
    Ok(())
}
