// The first state of an instance, computed as it is defined.

ghost use Rattle.std.specs.Prelude.{◌≡◌, ◌↔◌, length, map, replicate, slice_index, slice_set, Some, IfOk, IsTrue};
ghost use Rattle.tapa_syntax.specs.declared.program.Array.{Array};
ghost use Rattle.kahn_model.specs.Fits.{ScalarsFit};
ghost use Rattle.kahn_model.specs.Rows.{rows_of};
ghost use Rattle.kahn_model.specs.Start.{bound_value, kinds_in, with_values, leaf_state};
ghost use Rattle.kahn_reference.specs.Slow.{state_of};

use crate::slow::Variables;
use kahn_model::start::{bound_values, first_cells};
use std::alloc::{AllocError, Global};
use tapa_syntax::{Array, Instance, Leaf, Program};

// A variable gets a value, where it is there.
fn set_in(vars: &mut Vec<u64>, x: u32, v: u64)
    ensures { vars.new.items ≡ slice_set vars.old.items x v }
{
    let i = x as usize;
    if i < vars.len() {
        vars[i] = v;
    }
}

// The variables, which hold zeros but for the scalar parameters.
fn first_vars(alloc: Global, leaf: &Leaf, values: &[u64]) -> Result<Vec<u64>, AllocError>
    ensures { IfOk result (λ v. v.items ≡ with_values leaf.now.scalars.items values.now (replicate (length leaf.now.vars.items) 0)) }
{
    let mut vars = vec![in alloc; 0; leaf.vars.len()]?;
    let params: &[u32] = &leaf.scalars;
    for p in 0..params.len() {
        if p < values.len() {
            set_in(&mut vars, params[p], values[p]);
        }
    }
    Ok(vars)
}

// The arrays, which hold zeros.
fn first_arrays(alloc: Global, arrays: &[Array]) -> Result<Vec<Vec<u64>>, AllocError>
    ensures { IfOk result (λ v. rows_of v.items ≡ map (λ (a : Array). replicate a.cells 0) arrays.now) }
{
    let mut rows = Vec::new(alloc);
    for array in arrays {
        rows.push(vec![in alloc; 0; array.cells as usize]?)?;
    }
    Ok(rows)
}

/// The first state of an instance of a leaf, given the values of the top task's scalars and the first cells of its
/// memories.
pub(crate) fn first_variables(
    alloc: Global,
    program: &Program,
    scalars: &[u64],
    memories: &[Vec<u64>],
    instance: &Instance,
    leaf: &Leaf,
) -> Result<Variables, AllocError>
    requires { ScalarsFit program.now scalars.now }
    ensures { IfOk result (λ v. state_of v ≡ leaf_state (kinds_in program.now) scalars.now (rows_of memories.now) instance.now (Some leaf.now)) }
{
    let values = bound_values(alloc, program, scalars, instance)?;
    Ok(Variables {
        vars: first_vars(alloc, leaf, &values)?,
        arrays: first_arrays(alloc, &leaf.arrays)?,
        cells: first_cells(alloc, memories, &instance.memories)?,
    })
}

// The value at a position, and 0 past the end.
fn scalar_at(scalars: &[u64], x: usize) -> u64
    ensures { result ≡ slice_index scalars.now x }
{
    match scalars.get(x) {
        Some(n) => *n,
        None => 0,
    }
}

/// Whether the values of the top task's scalars have their kinds.
pub(crate) fn scalars_fit(program: &Program, scalars: &[u64]) -> bool
    ensures { IsTrue result ↔ ScalarsFit program.now scalars.now }
{
    for x in 0..program.scalars.len() {
        let kind = program.scalars[x].kind;
        if !kind.holds(scalar_at(scalars, x)) {
            return false;
        }
    }
    true
}
