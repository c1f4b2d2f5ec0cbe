// What each state gives a register: the number that the register has first, or another value.

ghost use Rattle.std.specs.Prelude.{◌≡◌, IfOk, if◌then◌else◌, ◌==◌, slice_index};
ghost use Rattle.task_fsm.specs.Machine.{form_of};
ghost use Rattle.hw_lines.specs.declared.nets.Net.TheVariants.{Scalar};
ghost use Rattle.hw_lines.specs.Effects.{clears as clears_lem, entry, first_value as first_value_lem, gives, into_register, is_number as is_number_lem, is_same_number as is_same_number_lem};
ghost use Rattle.hw_lines.specs.Effects.{sets as sets_lem, with_number as with_number_lem, without_number as without_number_lem};
ghost use Rattle.hw_lines.specs.States.{net as net_lem};
ghost use Rattle.hw_nets.specs.Entries.{entries_in};
ghost use Rattle.hw_states.specs.ByState.{first_of as first_of_lem};
ghost use Rattle.hw_states.specs.Operands.{IsOperands};
ghost use Rattle.hw_nets.specs.Shapes.{form};

use crate::effects::{datum_of, end_of_transaction, entry_at};
use crate::operands::Operands;
use hw_lines::{Choice, Net};
use hw_nets::{Entry, Shape, copy, literal, net};
use std::alloc::{AllocError, Global};
use task_fsm::State;
use vlog_tree::Atom;

fn entry_into(
    alloc: Global,
    into: Option<u32>,
    r: u32,
    condition: Net,
    value: Atom,
) -> Result<Option<Entry>, AllocError>
    ensures { IfOk result (λ o. entries_in o ≡ into_register into r (entry condition value)) }
{
    match into {
        None => Ok(None),
        Some(x) => entry_at(alloc, x, r, condition, value),
    }
}

// What register r gets.
fn gives(
    alloc: Global,
    shape: &Shape,
    r: u32,
    k: u32,
    state: &State,
    operands: &Operands,
) -> Result<Option<Entry>, AllocError>
    requires { IsOperands (form shape.now) k operands.now }
    ensures { IfOk result (λ o. entries_in o ≡ gives (form shape.now) r k (form_of state.now)) }
{
    match state {
        State::Set { reg, .. } => {
            let value = copy(alloc, &operands.value)?;
            entry_at(alloc, *reg, r, Net::At(k), value)
        }
        State::Read { stream, into, .. } => {
            let value = datum_of(alloc, shape, *stream)?;
            entry_into(alloc, *into, r, Net::Go(k), value)
        }
        State::Peek { stream, into, .. } => {
            let value = datum_of(alloc, shape, *stream)?;
            entry_into(alloc, *into, r, Net::Go(k), value)
        }
        State::Eot { stream, into, .. } => {
            let value = end_of_transaction(alloc, shape, *stream)?;
            entry_into(alloc, *into, r, Net::Go(k), value)
        }
        State::Load { memory, into, .. } => {
            let value = net(alloc, Net::Rdata(*memory))?;
            entry_into(alloc, *into, r, Net::Go(k), value)
        }
        State::Clear { count, .. } => {
            let value = net(alloc, Net::Value(k, 2))?;
            entry_at(alloc, *count, r, Net::At(k), value)
        }
        _ => Ok(None),
    }
}

// The scalar parameter i, if it is the one of register r.
fn next_first(
    alloc: Global,
    shape: &Shape,
    r: u32,
    i: u32,
    before: Atom,
) -> Result<Atom, AllocError>
    ensures { IfOk result (λ a. a ≡ (if slice_index (form shape.now).scalars i == r then net_lem (Scalar i) else before)) }
{
    if shape.scalar(i) == r {
        net(alloc, Net::Scalar(i))
    } else {
        Ok(before)
    }
}

/// What a register has first: its last scalar parameter, if there is one, and else 0.
#[tactic(auto, using(crate::proofs::Firsts::first_more))]
pub fn first_value(alloc: Global, shape: &Shape, r: u32) -> Result<Atom, AllocError>
    ensures { IfOk result (λ a. a ≡ first_value_lem (form shape.now) r) }
{
    let mut first = literal(shape.register_kind(r).bits(), 0);
    let count = shape.scalars()?;
    for i in 0..count {
        first = next_first(alloc, shape, r, i, first)?;
    }
    Ok(first)
}

/// What the register of a choice has first.
pub(crate) fn first_of(alloc: Global, shape: &Shape, choice: Choice) -> Result<Atom, AllocError>
    ensures { IfOk result (λ a. a ≡ first_of_lem (form shape.now) choice) }
{
    match choice {
        Choice::Clear(r) => first_value(alloc, shape, r),
        Choice::Set(r) => first_value(alloc, shape, r),
        Choice::NextValue(r) => first_value(alloc, shape, r),
        _ => Ok(literal(1, 0)),
    }
}

// Whether an atom is this number.
fn is_number(n: u128, atom: &Atom) -> bool
    ensures { result ≡ is_number_lem n atom.now }
{
    match atom {
        Atom::Literal { value, .. } => n == *value,
        _ => false,
    }
}

// Whether two atoms are one number.
fn is_same_number(a: &Atom, b: &Atom) -> bool
    ensures { result ≡ is_same_number_lem a.now b.now }
{
    match a {
        Atom::Literal { value, .. } => is_number(*value, b),
        _ => false,
    }
}

// The entry, if its value is this number.
fn with_number(number: &Atom, found: Option<Entry>) -> Option<Entry>
    ensures { entries_in result ≡ with_number_lem number.now (entries_in found) }
{
    match found {
        None => None,
        Some(entry) => {
            if is_same_number(&entry.value, number) {
                Some(entry)
            } else {
                None
            }
        }
    }
}

// The entry, if its value is not this number.
fn without_number(number: &Atom, found: Option<Entry>) -> Option<Entry>
    ensures { entries_in result ≡ without_number_lem number.now (entries_in found) }
{
    match found {
        None => None,
        Some(entry) => {
            if is_same_number(&entry.value, number) {
                None
            } else {
                Some(entry)
            }
        }
    }
}

/// Where a state gives register r the number that it has first.
pub(crate) fn clears(
    alloc: Global,
    shape: &Shape,
    first: &Atom,
    r: u32,
    k: u32,
    state: &State,
    operands: &Operands,
) -> Result<Option<Entry>, AllocError>
    requires first { first.now ≡ first_value_lem (form shape.now) r }
    requires operands { IsOperands (form shape.now) k operands.now }
    ensures { IfOk result (λ o. entries_in o ≡ clears_lem (form shape.now) r k (form_of state.now)) }
{
    let found = gives(alloc, shape, r, k, state, operands)?;
    Ok(with_number(first, found))
}

/// Where a state gives it another value.
pub(crate) fn sets(
    alloc: Global,
    shape: &Shape,
    first: &Atom,
    r: u32,
    k: u32,
    state: &State,
    operands: &Operands,
) -> Result<Option<Entry>, AllocError>
    requires first { first.now ≡ first_value_lem (form shape.now) r }
    requires operands { IsOperands (form shape.now) k operands.now }
    ensures { IfOk result (λ o. entries_in o ≡ sets_lem (form shape.now) r k (form_of state.now)) }
{
    let found = gives(alloc, shape, r, k, state, operands)?;
    Ok(without_number(first, found))
}
