// The blocks of registers and arrays.

ghost use Rattle.std.specs.Prelude.{◌≡◌, ◌∷◌, [], IfOk};
ghost use Rattle.vlog_tree.specs.declared.tree.Atom.TheVariants.{Literal, Net as NetAtom};
ghost use Rattle.vlog_tree.specs.Labels.{rst};
ghost use Rattle.vlog_module_laws.specs.Forms.{set_block};
ghost use Rattle.hw_build.specs.Elements.{Block, with, with_all, reset_or};
ghost use Rattle.hw_build.specs.Choices.{choice as choice_lem};
ghost use Rattle.hw_lines.specs.declared.nets.Choice.TheVariants.{ToEnd, ToState};
ghost use Rattle.hw_lines.specs.declared.nets.Net.TheVariants.{Ended, State};
ghost use Rattle.hw_lines.specs.Nets.{front as front_lem, name as name_lem};
ghost use Rattle.hw_lines.specs.Shape.{state_bits};
ghost use Rattle.hw_lines.specs.Effects.{entries as entries_lem};
ghost use Rattle.hw_lines.specs.Texts.{array_block, blocks, register_block, reset_of as reset_of_lem, root as root_lem, variable_block};
ghost use Rattle.hw_nets.specs.Entries.{entry_forms};
ghost use Rattle.hw_nets.specs.Shapes.{form};

use crate::parts::{Part, add_each};
use hw_build::{Draft, first_set_steps, reset_name, reset_steps, store_steps};
use hw_lines::{Choice, Net};
use hw_nets::{Entry, literal, name, root};
use hw_states::{Machine, entries_of, first_value};
use std::alloc::{AllocError, Global};
use tapa_base::Text;
use vlog_tree::{Atom, Step};

// A register that nothing sets keeps its first value.
fn held_steps(
    alloc: Global,
    reset: &Text,
    register: &Text,
    first: Atom,
) -> Result<Vec<Step>, AllocError>
    ensures { IfOk result (λ v. v.items ≡ set_block reset.now register.now first) }
{
    let mut steps = Vec::new(alloc);
    steps.push(Step::If(reset.copy(alloc)?))?;
    steps.push(Step::NonblockingAssign {
        register: register.copy(alloc)?,
        value: first,
    })?;
    steps.push(Step::End)?;
    Ok(steps)
}

// The steps of a register with its first value, and the next one where a choice's conditions hold.
#[tactic(auto, using(crate::proofs::BlockSteps::none_set, crate::proofs::BlockSteps::some_set))]
fn register_steps(
    alloc: Global,
    reset: &Text,
    register: &Text,
    first: Atom,
    found: &[Entry],
    set: &Text,
    next: Atom,
) -> Result<Vec<Step>, AllocError>
    ensures { IfOk result (λ v. v.items ≡ register_block reset.now register.now first (entry_forms found.now) set.now next) }
{
    let count = found.len();
    if count == 0 {
        return held_steps(alloc, reset, register, first);
    }
    let steps = first_set_steps(
        alloc,
        reset.bytes(),
        register.bytes(),
        first,
        set.bytes(),
        next,
    )?;
    Ok(steps)
}

// The net at which a register gets its first value.
#[tactic(auto, using(crate::proofs::BlockSteps::none_clear, crate::proofs::BlockSteps::some_clear))]
fn reset_of(alloc: Global, r: u32, clears: &[Entry]) -> Result<Text, AllocError>
    ensures { IfOk result (λ t. t ≡ reset_of_lem r (entry_forms clears.now)) }
{
    let count = clears.len();
    if count == 0 {
        return reset_name(alloc);
    }
    name(alloc, Net::Reset(r))
}

fn add_state_block(alloc: Global, draft: &mut Draft, machine: &Machine) -> Result<(), AllocError>
    ensures { IfOk result (λ u. draft.new ≡ with_all draft.old
        (Block (reset_or (name_lem State) (Literal (state_bits (form machine.now.shape)) 0) (NetAtom (root_lem (form machine.now.shape) ToState))) ∷ [])) }
{
    let found = entries_of(alloc, machine, Choice::ToState)?;
    let next = Atom::Net(root(alloc, Choice::ToState, &found)?);
    let register = name(alloc, Net::State)?;
    let first = literal(machine.shape.state_bits()?, 0);
    let steps = reset_steps(alloc, register.bytes(), first, next)?;
    draft.block(steps)?;
    Ok(())
}

fn add_end_block(alloc: Global, draft: &mut Draft, machine: &Machine) -> Result<(), AllocError>
    ensures { IfOk result (λ u. draft.new ≡ with_all draft.old
        (Block (register_block rst (name_lem Ended) (Literal 1 0) (entries_lem (form machine.now.shape) ToEnd) (root_lem (form machine.now.shape) ToEnd) (Literal 1 1)) ∷ [])) }
{
    let found = entries_of(alloc, machine, Choice::ToEnd)?;
    let register = name(alloc, Net::Ended)?;
    let set = root(alloc, Choice::ToEnd, &found)?;
    let first = literal(1, 0);
    let reset = reset_name(alloc)?;
    let steps = register_steps(alloc, &reset, &register, first, &found, &set, literal(1, 1))?;
    draft.block(steps)?;
    Ok(())
}

/// The block of a register.
pub(crate) fn add_variable_block(
    alloc: Global,
    draft: &mut Draft,
    machine: &Machine,
    r: u32,
) -> Result<(), AllocError>
    ensures { IfOk result (λ u. draft.new ≡ with_all draft.old (variable_block (form machine.now.shape) r)) }
{
    let clears = entries_of(alloc, machine, Choice::Clear(r))?;
    let found = entries_of(alloc, machine, Choice::Set(r))?;
    let reset = reset_of(alloc, r, &clears)?;
    let register = name(alloc, Net::Variable(r))?;
    let first = first_value(alloc, &machine.shape, r)?;
    let set = root(alloc, Choice::Set(r), &found)?;
    let next = Atom::Net(root(alloc, Choice::NextValue(r), &found)?);
    let steps = register_steps(alloc, &reset, &register, first, &found, &set, next)?;
    draft.block(steps)?;
    Ok(())
}

/// The block of an array, if a state stores in it.
pub(crate) fn add_array_block(
    alloc: Global,
    draft: &mut Draft,
    machine: &Machine,
    a: u32,
) -> Result<(), AllocError>
    ensures { IfOk result (λ u. draft.new ≡ with_all draft.old (array_block (form machine.now.shape) a)) }
{
    let found = entries_of(alloc, machine, Choice::Stores(a))?;
    let count = found.len();
    if count == 0 {
        return Ok(());
    }
    let places = entries_of(alloc, machine, Choice::WriteIndex(a))?;
    let contents = entries_of(alloc, machine, Choice::WriteData(a))?;
    let array = name(alloc, Net::Array(a))?;
    let write = root(alloc, Choice::Stores(a), &found)?;
    let place = root(alloc, Choice::WriteIndex(a), &places)?;
    let content = Atom::Net(root(alloc, Choice::WriteData(a), &contents)?);
    let steps = store_steps(alloc, array.bytes(), write.bytes(), place.bytes(), content)?;
    draft.block(steps)?;
    Ok(())
}

/// Adds the blocks.
#[tactic(auto, using(hw_nets::proofs::Grows::all_append))]
pub fn add_blocks(alloc: Global, draft: &mut Draft, machine: &Machine) -> Result<(), AllocError>
    ensures { IfOk result (λ u. draft.new ≡ with_all draft.old (blocks (form machine.now.shape))) }
{
    add_state_block(alloc, draft, machine)?;
    add_end_block(alloc, draft, machine)?;
    add_each(alloc, draft, machine, Part::VariableBlocks)?;
    add_each(alloc, draft, machine, Part::ArrayBlocks)?;
    Ok(())
}
