// What each state gives a choice.

ghost use Rattle.std.specs.Prelude.{◌≡◌, ◌<◌, ◌++◌, IfOk};
ghost use Rattle.task_fsm.specs.Machine.{form_of};
ghost use Rattle.hw_lines.specs.declared.nets.Net.TheVariants.{At};
ghost use Rattle.hw_lines.specs.Shape.{form_at, state_count};
ghost use Rattle.hw_lines.specs.Effects.{askings, at, contents, datum_of as datum_of_lem, effect as effect_lem, end_token, endings, entries as entries_lem, entry, eot_of};
ghost use Rattle.hw_lines.specs.Effects.{places, savings, takings, tokens};
ghost use Rattle.hw_lines.specs.States.{next_atom};
ghost use Rattle.hw_nets.specs.Entries.{entries_in, entry_forms};
ghost use Rattle.hw_states.specs.ByState.{IsByState, first_of as first_of_lem};
ghost use Rattle.hw_states.specs.Operands.{IsOperands};
ghost use Rattle.hw_nets.specs.Shapes.{form};

use crate::machine::Machine;
use crate::operands::Operands;
use crate::registers::{clears, first_of, sets};
use crate::states::number_of;
use hw_lines::{Choice, Net};
use hw_nets::{Entry, Shape, add_found, copy, entry_of, literal, low_bits, name, net, power};
use std::alloc::{AllocError, Global};
use task_fsm::State;
use vlog_tree::Atom;

/// The datum of a token.
pub(crate) fn datum_of(alloc: Global, shape: &Shape, stream: u32) -> Result<Atom, AllocError>
    ensures { IfOk result (λ a. a ≡ datum_of_lem (form shape.now) stream) }
{
    Ok(Atom::Part {
        net: name(alloc, Net::Dout(stream))?,
        high: shape.stream_kind(stream).bits().saturating_sub(1),
        low: 0,
    })
}

/// Whether a token is the end of a transaction.
pub fn end_of_transaction(alloc: Global, shape: &Shape, stream: u32) -> Result<Atom, AllocError>
    ensures { IfOk result (λ a. a ≡ eot_of (form shape.now) stream) }
{
    let top = shape.stream_kind(stream).bits();
    Ok(Atom::Part {
        net: name(alloc, Net::Dout(stream))?,
        high: top,
        low: top,
    })
}

// The token of an end of a transaction.
fn end_of(shape: &Shape, stream: u32) -> Atom
    ensures { result ≡ end_token (form shape.now) stream }
{
    let datum = shape.stream_kind(stream).bits();
    literal(shape.token_bits(stream), power(datum))
}

/// An entry for one thing of its sort alone.
pub(crate) fn entry_at(
    alloc: Global,
    x: u32,
    y: u32,
    condition: Net,
    value: Atom,
) -> Result<Option<Entry>, AllocError>
    ensures { IfOk result (λ o. entries_in o ≡ at x y (entry condition value)) }
{
    if x == y {
        entry_of(alloc, condition, value)
    } else {
        Ok(None)
    }
}

// Where array a is written, under the condition of a net.
fn places(
    alloc: Global,
    shape: &Shape,
    condition: Net,
    a: u32,
    k: u32,
    state: &State,
    operands: &Operands,
) -> Result<Option<Entry>, AllocError>
    requires { IsOperands (form shape.now) k operands.now }
    ensures { IfOk result (λ o. entries_in o ≡ places (form shape.now) condition a k (form_of state.now)) }
{
    match state {
        State::Cell { array, .. } => {
            let place = low_bits(alloc, shape.index_bits(a), &operands.index)?;
            entry_at(alloc, *array, a, condition, place)
        }
        State::Clear { array, count, .. } => {
            let counter = net(alloc, Net::Variable(*count))?;
            let place = low_bits(alloc, shape.index_bits(a), &counter)?;
            entry_at(alloc, *array, a, condition, place)
        }
        _ => Ok(None),
    }
}

// The value that a state writes into a cell.
fn contents(
    alloc: Global,
    shape: &Shape,
    a: u32,
    k: u32,
    state: &State,
    operands: &Operands,
) -> Result<Option<Entry>, AllocError>
    requires { IsOperands (form shape.now) k operands.now }
    ensures { IfOk result (λ o. entries_in o ≡ contents (form shape.now) a k (form_of state.now)) }
{
    match state {
        State::Cell { array, .. } => {
            let value = copy(alloc, &operands.value)?;
            entry_at(alloc, *array, a, Net::At(k), value)
        }
        State::Clear { array, .. } => {
            let zero = literal(shape.array_kind(a).bits(), 0);
            entry_at(alloc, *array, a, Net::At(k), zero)
        }
        _ => Ok(None),
    }
}

// The token for stream s.
fn tokens(
    alloc: Global,
    shape: &Shape,
    s: u32,
    k: u32,
    state: &State,
) -> Result<Option<Entry>, AllocError>
    ensures { IfOk result (λ o. entries_in o ≡ tokens (form shape.now) s k (form_of state.now)) }
{
    match state {
        State::Write { stream, .. } => {
            let token = net(alloc, Net::Packed(k))?;
            entry_at(alloc, *stream, s, Net::At(k), token)
        }
        State::Close { stream, .. } => { entry_at(alloc, *stream, s, Net::At(k), end_of(shape, s)) }
        _ => Ok(None),
    }
}

// Whether a token of stream s is taken.
fn takings(
    alloc: Global,
    shape: &Shape,
    s: u32,
    k: u32,
    state: &State,
) -> Result<Option<Entry>, AllocError>
    ensures { IfOk result (λ o. entries_in o ≡ takings (form shape.now) s k (form_of state.now)) }
{
    match state {
        State::Read { stream, .. } => { entry_at(alloc, *stream, s, Net::Go(k), literal(1, 1)) }
        State::Open { stream, .. } => { entry_at(alloc, *stream, s, Net::Go(k), literal(1, 1)) }
        _ => Ok(None),
    }
}

// Where memory m is asked.
fn askings(
    alloc: Global,
    shape: &Shape,
    m: u32,
    k: u32,
    state: &State,
    operands: &Operands,
) -> Result<Option<Entry>, AllocError>
    requires { IsOperands (form shape.now) k operands.now }
    ensures { IfOk result (λ o. entries_in o ≡ askings (form shape.now) m k (form_of state.now)) }
{
    match state {
        State::Load { memory, .. } => {
            let index = copy(alloc, &operands.index)?;
            entry_at(alloc, *memory, m, Net::At(k), index)
        }
        State::Store { memory, .. } => {
            let index = copy(alloc, &operands.index)?;
            entry_at(alloc, *memory, m, Net::At(k), index)
        }
        _ => Ok(None),
    }
}

// What is stored in memory m.
fn savings(
    alloc: Global,
    shape: &Shape,
    m: u32,
    k: u32,
    state: &State,
    operands: &Operands,
) -> Result<Option<Entry>, AllocError>
    requires { IsOperands (form shape.now) k operands.now }
    ensures { IfOk result (λ o. entries_in o ≡ savings (form shape.now) m k (form_of state.now)) }
{
    match state {
        State::Store { memory, .. } => {
            let value = copy(alloc, &operands.value)?;
            entry_at(alloc, *memory, m, Net::At(k), value)
        }
        _ => Ok(None),
    }
}

// Whether End is made.
fn endings(alloc: Global, k: u32, state: &State) -> Result<Option<Entry>, AllocError>
    ensures { IfOk result (λ o. entries_in o ≡ endings k (form_of state.now)) }
{
    match state {
        State::End => entry_of(alloc, Net::At(k), literal(1, 1)),
        _ => Ok(None),
    }
}

// The number of the next state.
fn next_of(alloc: Global, shape: &Shape, k: u32, state: &State) -> Result<Atom, AllocError>
    ensures { IfOk result (λ a. a ≡ next_atom (form shape.now) k (form_of state.now)) }
{
    match state {
        State::Set { next, .. } => number_of(shape, *next),
        State::Cell { next, .. } => number_of(shape, *next),
        State::End => number_of(shape, k),
        State::Trap => number_of(shape, k),
        _ => net(alloc, Net::Next(k)),
    }
}

// Where the state leads.
fn leading(alloc: Global, shape: &Shape, k: u32, state: &State) -> Result<Option<Entry>, AllocError>
    ensures { IfOk result (λ o. entries_in o ≡ entry (At k) (next_atom (form shape.now) k (form_of state.now))) }
{
    let next = next_of(alloc, shape, k, state)?;
    entry_of(alloc, Net::At(k), next)
}

fn effect(
    alloc: Global,
    shape: &Shape,
    choice: Choice,
    first: &Atom,
    k: u32,
    state: &State,
    operands: &Operands,
) -> Result<Option<Entry>, AllocError>
    requires by_state { IsByState choice }
    requires first { first.now ≡ first_of_lem (form shape.now) choice }
    requires form { form_of state.now ≡ form_at (form shape.now) k }
    requires operands { IsOperands (form shape.now) k operands.now }
    ensures { IfOk result (λ o. entries_in o ≡ effect_lem (form shape.now) choice k) }
{
    match choice {
        Choice::ToState => leading(alloc, shape, k, state),
        Choice::ToEnd => endings(alloc, k, state),
        Choice::Clear(r) => clears(alloc, shape, first, r, k, state, operands),
        Choice::Set(r) => sets(alloc, shape, first, r, k, state, operands),
        Choice::NextValue(r) => sets(alloc, shape, first, r, k, state, operands),
        Choice::Stores(a) => places(alloc, shape, Net::Into(k), a, k, state, operands),
        Choice::WriteIndex(a) => places(alloc, shape, Net::At(k), a, k, state, operands),
        Choice::WriteData(a) => contents(alloc, shape, a, k, state, operands),
        Choice::Reads(_, _) => Ok(None),
        Choice::ArrayIndex(_, _) => Ok(None),
        Choice::Puts(s) => tokens(alloc, shape, s, k, state),
        Choice::Token(s) => tokens(alloc, shape, s, k, state),
        Choice::Takes(s) => takings(alloc, shape, s, k, state),
        Choice::Address(m) => askings(alloc, shape, m, k, state, operands),
        Choice::StoreEnable(m) => savings(alloc, shape, m, k, state, operands),
        Choice::Data(m) => savings(alloc, shape, m, k, state, operands),
    }
}

// Adds what a state gives a choice.
fn add_effect(
    alloc: Global,
    machine: &Machine,
    choice: Choice,
    first: &Atom,
    k: u32,
    found: &mut Vec<Entry>,
) -> Result<(), AllocError>
    requires by_state { IsByState choice }
    requires first { first.now ≡ first_of_lem (form machine.now.shape) choice }
    requires below { k < state_count (form machine.now.shape) }
    ensures { IfOk result (λ u. entry_forms found.new.items ≡ entry_forms found.old.items ++ effect_lem (form machine.now.shape) choice k) }
{
    let shape = &machine.shape;
    let state = shape.state(k);
    let atoms = machine.operands_of(k);
    let entry = effect(alloc, shape, choice, first, k, state, atoms)?;
    add_found(found, entry)
}

/// What all states give a choice.
pub fn entries_of(
    alloc: Global,
    machine: &Machine,
    choice: Choice,
) -> Result<Vec<Entry>, AllocError>
    requires { IsByState choice }
    ensures { IfOk result (λ v. entry_forms v.items ≡ entries_lem (form machine.now.shape) choice) }
{
    let mut found = Vec::new(alloc);
    let first = first_of(alloc, &machine.shape, choice)?;
    let count = machine.shape.state_count()?;
    for k in 0..count {
        add_effect(alloc, machine, choice, &first, k, &mut found)?;
    }
    Ok(found)
}
