// From a leaf task's statements to its machine.

ghost use Rattle.std.specs.Prelude.{◌≡◌, ◌<◌, ◌++◌, ◌∷◌, [], length, slice_get, Some, IfOk};
ghost use Rattle.tapa_syntax.specs.declared.program.Leaf.{Leaf};
ghost use Rattle.tapa_syntax.specs.WellFormed.{IsLeaf};
ghost use Rattle.task_fsm.specs.Lowered.{IsLowered};
ghost use Rattle.task_fsm.specs.Draft.{emitted};
ghost use Rattle.task_fsm.specs.Machine.{EndAt, TrapAt, forms_of};

use crate::draft::Emission;
use crate::machine::{Fsm, State};
use crate::size::size_list;
use crate::statements::write_list;
use std::alloc::{AllocError, Global};
use tapa_base::{Kind, OutOfMemory, Text, narrow, plus};
use tapa_syntax::{Array, Leaf, Program};

fn copied_kinds(alloc: Global, kinds: &[Kind]) -> Result<Vec<Kind>, AllocError>
    ensures { IfOk result (λ v. v.items ≡ kinds.now) }
{
    kinds.iter().copied().collect(alloc)
}

fn copied_numbers(alloc: Global, numbers: &[u32]) -> Result<Vec<u32>, AllocError>
    ensures { IfOk result (λ v. v.items ≡ numbers.now) }
{
    numbers.iter().copied().collect(alloc)
}

fn copied_arrays(alloc: Global, arrays: &[Array]) -> Result<Vec<Array>, AllocError>
    ensures { IfOk result (λ v. v.items ≡ arrays.now) }
{
    arrays.iter().copied().collect(alloc)
}

// The last two states and the registers that each machine has.
fn last_states(alloc: Global, vars: &[Kind], entry: u32) -> Result<Emission, AllocError>
    ensures { IfOk result (λ d. emitted d ≡ record { places = EndAt ∷ TrapAt ∷ []; entry = entry; regs = vars.now ++ Kind.U32 ∷ [] }) }
{
    let mut regs = copied_kinds(alloc, vars)?;
    regs.push(Kind::U32)?;
    let mut states = Vec::new(alloc);
    states.push(State::Trap)?;
    states.push(State::End)?;
    Ok(Emission {
        states,
        entry,
        regs,
    })
}

// The machine that is written, with its first state first.
fn finished(draft: Emission, name: Text, scalars: Vec<u32>, arrays: Vec<Array>) -> Fsm
    ensures name { result.name ≡ name }
    ensures places { let w = emitted draft in forms_of result.states.items ≡ w.places }
    ensures regs { result.regs.items ≡ draft.regs.items }
    ensures scalars { result.scalars.items ≡ scalars.items }
    ensures arrays { result.arrays.items ≡ arrays.items }
{
    let mut states = draft.states;
    states.reverse();
    Fsm {
        name,
        scalars,
        regs: draft.regs,
        arrays,
        states,
    }
}

// The machine of a leaf.
fn lower_leaf(alloc: Global, leaf: &Leaf) -> Result<Fsm, AllocError>
    ensures { IfOk result (λ fsm. IsLeaf leaf.now → IsLowered leaf.now fsm) }
{
    let size = size_list(&leaf.code)?;
    let total = plus(size, 2)?;
    let counter = narrow(leaf.vars.len())?;
    let mut draft = last_states(alloc, &leaf.vars, size)?;
    write_list(
        alloc, &mut draft, leaf, total, counter, &leaf.code, size, size,
    )?;
    let scalars = copied_numbers(alloc, &leaf.scalars)?;
    let arrays = copied_arrays(alloc, &leaf.arrays)?;
    let name = leaf.name.copy(alloc)?;
    Ok(finished(draft, name, scalars, arrays))
}

/// The machine of a leaf task of a program. Of a well-formed leaf it makes the ticks of each job, one state a tick. Numbers
/// of states and registers have 32 bits, far above the limits of a task; a body with more is answered as want of memory.
pub fn lower(alloc: Global, program: &Program, body: u32) -> Result<Fsm, OutOfMemory>
    requires { body < length program.now.bodies.items }
    ensures { IfOk result (λ fsm. (leaf : Leaf) → slice_get program.now.bodies.items body ≡ Some leaf → IsLeaf leaf → IsLowered leaf fsm) }
{
    let leaf = &program.bodies[body as usize];
    Ok(lower_leaf(alloc, leaf)?)
}
