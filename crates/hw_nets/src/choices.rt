// Choices among the states: rows of nets, of which the last has the result.

ghost use Rattle.std.specs.Prelude.{◌≡◌, ◌-◌, IfOk, length};
ghost use Rattle.hw_build.specs.Elements.{Wire, with, with_all};
ghost use Rattle.hw_build.specs.Trees.{numbered as numbered_lem};
ghost use Rattle.hw_build.specs.Choices.{any_driver as any_driver_lem, any_elements, choice as choice_lem, pick_driver as pick_driver_lem, pick_elements};
ghost use Rattle.hw_lines.specs.Nets.{front as front_lem};
ghost use Rattle.hw_lines.specs.Texts.{result_of as result_lem};
ghost use Rattle.hw_nets.specs.Entries.{entry_form, entry_forms};

use crate::atoms::{binary, choose, copy, wire};
use crate::entries::Entry;
use crate::names::front;
use hw_build::{Draft, numbered};
use hw_lines::Choice;
use std::alloc::{AllocError, Global};
use tapa_base::{Text, narrow};
use vlog_tree::{Atom, BinaryOp, Value};

// Whether the condition of an entry or of one before it holds.
#[tactic(auto, using(crate::proofs::Rows::first_any, crate::proofs::Rows::later_any))]
fn any_driver(alloc: Global, front: &Text, j: u32, entry: &Entry) -> Result<Value, AllocError>
    ensures { IfOk result (λ v. v ≡ any_driver_lem front.now j (entry_form entry.now)) }
{
    let condition = Atom::Net(entry.condition.copy(alloc)?);
    if j == 0 {
        return Ok(Value::Plain(condition));
    }
    let before = wire(alloc, front, j - 1)?;
    Ok(binary(before, BinaryOp::Or, condition))
}

fn add_any_net(
    alloc: Global,
    draft: &mut Draft,
    front: &Text,
    j: u32,
    entry: &Entry,
) -> Result<(), AllocError>
    ensures { IfOk result (λ u. draft.new ≡ with draft.old (Wire 1 (numbered_lem front.now j) (any_driver_lem front.now j (entry_form entry.now)))) }
{
    let name = numbered(alloc, front.bytes(), j)?;
    let driver = any_driver(alloc, front, j, entry)?;
    draft.wire(alloc, 1, name.bytes(), driver)
}

fn add_any_row(
    alloc: Global,
    draft: &mut Draft,
    front: &Text,
    entries: &[Entry],
) -> Result<(), AllocError>
    ensures { IfOk result (λ u. draft.new ≡ with_all draft.old (any_elements front.now (entry_forms entries.now))) }
{
    for (j, entry) in entries.iter().enumerate() {
        add_any_net(alloc, draft, front, narrow(j)?, entry)?;
    }
    Ok(())
}

/// Adds whether one of the conditions holds.
pub fn add_any(
    alloc: Global,
    draft: &mut Draft,
    choice: Choice,
    entries: &[Entry],
) -> Result<(), AllocError>
    ensures { IfOk result (λ u. draft.new ≡ with_all draft.old (any_elements (front_lem choice) (entry_forms entries.now))) }
{
    let front = front(alloc, choice)?;
    add_any_row(alloc, draft, &front, entries)?;
    Ok(())
}

// The value of an entry where its condition holds, and that of the net before it otherwise.
#[tactic(auto, using(crate::proofs::Rows::first_pick, crate::proofs::Rows::later_pick))]
fn pick_driver(alloc: Global, front: &Text, j: u32, entry: &Entry) -> Result<Value, AllocError>
    ensures { IfOk result (λ v. v ≡ pick_driver_lem front.now j (entry_form entry.now)) }
{
    let value = copy(alloc, &entry.value)?;
    if j == 0 {
        return Ok(Value::Plain(value));
    }
    let condition = Atom::Net(entry.condition.copy(alloc)?);
    let before = wire(alloc, front, j - 1)?;
    Ok(choose(condition, value, before))
}

fn add_pick_net(
    alloc: Global,
    draft: &mut Draft,
    width: u32,
    front: &Text,
    j: u32,
    entry: &Entry,
) -> Result<(), AllocError>
    ensures { IfOk result (λ u. draft.new ≡ with draft.old (Wire width (numbered_lem front.now j) (pick_driver_lem front.now j (entry_form entry.now)))) }
{
    let name = numbered(alloc, front.bytes(), j)?;
    let driver = pick_driver(alloc, front, j, entry)?;
    draft.wire(alloc, width, name.bytes(), driver)
}

fn add_pick_row(
    alloc: Global,
    draft: &mut Draft,
    width: u32,
    front: &Text,
    entries: &[Entry],
) -> Result<(), AllocError>
    ensures { IfOk result (λ u. draft.new ≡ with_all draft.old (pick_elements width front.now (entry_forms entries.now))) }
{
    for (j, entry) in entries.iter().enumerate() {
        add_pick_net(alloc, draft, width, front, narrow(j)?, entry)?;
    }
    Ok(())
}

/// Adds the value whose condition holds.
pub fn add_pick(
    alloc: Global,
    draft: &mut Draft,
    width: u32,
    choice: Choice,
    entries: &[Entry],
) -> Result<(), AllocError>
    ensures { IfOk result (λ u. draft.new ≡ with_all draft.old (pick_elements width (front_lem choice) (entry_forms entries.now))) }
{
    let front = front(alloc, choice)?;
    add_pick_row(alloc, draft, width, &front, entries)?;
    Ok(())
}

/// The net that has the result of a choice.
pub fn root(alloc: Global, choice: Choice, entries: &[Entry]) -> Result<Text, AllocError>
    ensures { IfOk result (λ t. t ≡ choice_lem (front_lem choice) (entry_forms entries.now)) }
{
    let front = front(alloc, choice)?;
    let count = narrow(entries.len())?;
    numbered(alloc, front.bytes(), count.saturating_sub(1))
}

/// The result of a choice, and 0 where there is nothing to choose.
#[tactic(auto, using(crate::proofs::Rows::no_result, crate::proofs::Rows::some_result))]
pub fn result_of(
    alloc: Global,
    width: u32,
    choice: Choice,
    entries: &[Entry],
) -> Result<Value, AllocError>
    ensures { IfOk result (λ v. v ≡ result_lem width (front_lem choice) (entry_forms entries.now)) }
{
    let count = entries.len();
    if count == 0 {
        return Ok(Value::Plain(Atom::Literal { width, value: 0 }));
    }
    Ok(Value::Plain(Atom::Net(root(alloc, choice, entries)?)))
}
