//! What an instance begins with: the values of its scalar parameters and the first cells of its memories.

ghost use Rattle.std.specs.Prelude.{◌≡◌, ◌<◌, map, slice_index_or, [], IfOk};
ghost use Rattle.tapa_base.specs.declared.kind.Kind.TheVariants.{U64};
ghost use Rattle.tapa_base.specs.Kinds.{values_of};
ghost use Rattle.kahn_model.specs.Fits.{ScalarsFit};
ghost use Rattle.kahn_model.specs.Rows.{rows_of};
ghost use Rattle.kahn_model.specs.Start.{through, bound_value, kinds_in};

use std::alloc::{AllocError, Global};
use tapa_base::{Kind, convert, value_at};
use tapa_syntax::{Bound, Instance, Program};

// A value, converted through these kinds in order.
fn convert_through(from: Kind, kinds: &[Kind], v: u64) -> u64
    requires { v < values_of from }
    ensures { result ≡ through from kinds.now v }
{
    let mut last = from;
    let mut value = v;
    for kind in kinds {
        value = convert(last, *kind, value);
        last = *kind;
    }
    value
}

// The kind of a scalar of the top task by its number; where it has none, the kind of 64 bits without sign.
fn scalar_kind(program: &Program, x: u32) -> Kind
    ensures { result ≡ slice_index_or (kinds_in program.now) x U64 }
{
    match program.scalars.get(x as usize) {
        Some(scalar) => scalar.kind,
        None => Kind::U64,
    }
}

/// The value that a scalar parameter is bound to, given the values of the top task's scalars.
pub fn value_of_bound(program: &Program, scalars: &[u64], bound: &Bound) -> u64
    requires { ScalarsFit program.now scalars.now }
    ensures { result ≡ bound_value (kinds_in program.now) scalars.now bound.now }
{
    match bound {
        Bound::Number(n) => *n,
        Bound::Top { scalar, kinds } => {
            convert_through(
                scalar_kind(program, *scalar),
                kinds,
                value_at(scalars, *scalar),
            )
        }
    }
}

/// The values that an instance's scalar parameters are bound to, given the values of the top task's scalars.
pub fn bound_values(
    alloc: Global,
    program: &Program,
    scalars: &[u64],
    instance: &Instance,
) -> Result<Vec<u64>, AllocError>
    requires { ScalarsFit program.now scalars.now }
    ensures { IfOk result (λ values. values.items ≡ map (bound_value (kinds_in program.now) scalars.now) instance.now.scalars.items) }
{
    let mut values = Vec::new(alloc);
    for bound in &instance.scalars {
        values.push(value_of_bound(program, scalars, bound))?;
    }
    Ok(values)
}

// A copy of the first cells of a memory.
fn copy_of(alloc: Global, memories: &[Vec<u64>], m: u32) -> Result<Vec<u64>, AllocError>
    ensures { IfOk result (λ v. v.items ≡ slice_index_or (rows_of memories.now) m []) }
{
    match memories.get(m as usize) {
        Some(cells) => cells.to_vec(alloc),
        None => Ok(Vec::new(alloc)),
    }
}

/// The first cells of the memories that an instance is bound to by their numbers, in order: copies of those of the
/// top task.
pub fn first_cells(
    alloc: Global,
    memories: &[Vec<u64>],
    bound: &[u32],
) -> Result<Vec<Vec<u64>>, AllocError>
    ensures { IfOk result (λ v. rows_of v.items ≡ map (λ m. slice_index_or (rows_of memories.now) m []) bound.now) }
{
    let mut rows = Vec::new(alloc);
    for m in bound {
        rows.push(copy_of(alloc, memories, *m)?)?;
    }
    Ok(rows)
}
