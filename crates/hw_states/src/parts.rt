// What a state is made of, as its form says.

ghost use Rattle.std.specs.Prelude.{◌≡◌, ◌++◌, IfOk, length};
ghost use Rattle.std.specs.Option.{option_copied};
ghost use Rattle.task_fsm.specs.Machine.{form_of};
ghost use Rattle.hw_lines.specs.Wires.{read_count as read_count_lem, reads_in};
ghost use Rattle.hw_lines.specs.States.{needs_go as needs_go_lem, awaited as awaited_lem, index_of as index_of_lem, value_kind as value_kind_lem, value_of as value_of_lem};
ghost use Rattle.hw_expressions.specs.Reads.{read_forms};
ghost use Rattle.hw_states.specs.Operands.{expression_in};
ghost use Rattle.hw_nets.specs.Shapes.{form};

use hw_expressions::{ArrayRead, add_reads, read_count};
use hw_lines::Net;
use hw_nets::Shape;
use std::alloc::{AllocError, Global};
use tapa_base::{Kind, plus};
use task_fsm::{Expr, State};

/// The index of a state.
pub fn index_of(state: &State) -> Option<&Expr>
    ensures { expression_in (option_copied result) ≡ index_of_lem (form_of state.now) }
{
    match state {
        State::Cell { index, .. } => Some(index),
        State::Load { index, .. } => Some(index),
        State::Store { index, .. } => Some(index),
        _ => None,
    }
}

/// The value of a state.
pub fn value_of(state: &State) -> Option<&Expr>
    ensures { expression_in (option_copied result) ≡ value_of_lem (form_of state.now) }
{
    match state {
        State::Set { value, .. } => Some(value),
        State::Cell { value, .. } => Some(value),
        State::Test { test, .. } => Some(test),
        State::Write { value, .. } => Some(value),
        State::Store { value, .. } => Some(value),
        _ => None,
    }
}

/// The kind of its value.
pub fn value_kind(shape: &Shape, state: &State) -> Kind
    ensures { result ≡ value_kind_lem (form shape.now) (form_of state.now) }
{
    match state {
        State::Set { reg, .. } => shape.register_kind(*reg),
        State::Cell { array, .. } => shape.array_kind(*array),
        State::Write { stream, .. } => shape.stream_kind(*stream),
        State::Store { memory, .. } => shape.memory_kind(*memory),
        _ => Kind::Bool,
    }
}

/// How many reads its index has.
pub fn index_reads(state: &State) -> Result<u32, AllocError>
    ensures { IfOk result (λ n. n ≡ read_count_lem (index_of_lem (form_of state.now))) }
{
    match index_of(state) {
        Some(index) => read_count(index),
        None => Ok(0),
    }
}

/// How many reads of arrays a state has.
#[tactic(auto, using(crate::proofs::ReadCounts::reads_total))]
pub fn reads_count(state: &State) -> Result<u32, AllocError>
    ensures { IfOk result (λ n. n ≡ length (reads_in 0 (index_of_lem (form_of state.now)) ++ reads_in (read_count_lem (index_of_lem (form_of state.now))) (value_of_lem (form_of state.now)))) }
{
    let index = index_reads(state)?;
    match value_of(state) {
        Some(value) => plus(index, read_count(value)?),
        None => Ok(index),
    }
}

/// The reads of a state's index and value.
pub fn reads_at(alloc: Global, state: &State) -> Result<Vec<ArrayRead<'_>>, AllocError>
    ensures { IfOk result (λ v. read_forms v.items ≡ reads_in 0 (index_of_lem (form_of state.now))
        ++ reads_in (read_count_lem (index_of_lem (form_of state.now))) (value_of_lem (form_of state.now))) }
{
    let mut reads = Vec::new(alloc);
    add_index_reads(&mut reads, state)?;
    add_value_reads(&mut reads, state)?;
    Ok(reads)
}

fn add_index_reads<'a>(reads: &mut Vec<ArrayRead<'a>>, state: &'a State) -> Result<(), AllocError>
    ensures { IfOk result (λ u. read_forms reads.new.items ≡ read_forms reads.old.items ++ reads_in 0 (index_of_lem (form_of state.now))) }
{
    match index_of(state) {
        Some(index) => add_reads(reads, 0, index),
        None => Ok(()),
    }
}

fn add_value_reads<'a>(reads: &mut Vec<ArrayRead<'a>>, state: &'a State) -> Result<(), AllocError>
    ensures { IfOk result (λ u. read_forms reads.new.items ≡ read_forms reads.old.items ++ reads_in (read_count_lem (index_of_lem (form_of state.now))) (value_of_lem (form_of state.now))) }
{
    let first = index_reads(state)?;
    match value_of(state) {
        Some(value) => add_reads(reads, first, value),
        None => Ok(()),
    }
}

/// What a state's tick waits for.
pub fn awaited(state: &State) -> Option<Net>
    ensures { result ≡ awaited_lem (form_of state.now) }
{
    match state {
        State::Read { stream, .. } => Some(Net::Datum(*stream)),
        State::Write { stream, .. } => Some(Net::Rdy(*stream)),
        State::Peek { stream, .. } => Some(Net::Datum(*stream)),
        State::Eot { stream, .. } => Some(Net::Has(*stream)),
        State::Open { stream, .. } => Some(Net::Eot(*stream)),
        State::Close { stream, .. } => Some(Net::Rdy(*stream)),
        State::Load { memory, .. } => Some(Net::Ack(*memory)),
        State::Store { memory, .. } => Some(Net::Ack(*memory)),
        _ => None,
    }
}

/// Whether something is done by its tick alone.
pub fn needs_go(state: &State) -> bool
    ensures { result ≡ needs_go_lem (form_of state.now) }
{
    match state {
        State::Read { .. } => true,
        State::Peek { into, .. } => into.is_some(),
        State::Eot { into, .. } => into.is_some(),
        State::Open { .. } => true,
        State::Load { into, .. } => into.is_some(),
        _ => false,
    }
}
