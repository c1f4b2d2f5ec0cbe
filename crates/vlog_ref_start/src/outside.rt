// The environment of a design in cycle 0.

ghost use Rattle.std.specs.Prelude.{◌≡◌, ◌∷◌, ◌++◌, [], map, IfOk, OnOk, slice_index, slice_index_or};
ghost use Rattle.vlog_ref_start.specs.Outside.{labelled_from, outside_tree, outside_from};
ghost use Rattle.vlog_design.specs.Environments.{environment_of, lists_of};

use std::alloc::{AllocError, Global};
use tapa_base::Port;
use vlog_design::Env;
use vlog_values::{NetNumber, OutsideMemory};

fn number_at(numbers: &[u64], at: usize) -> u128
    ensures { result ≡ slice_index numbers.now at }
{
    match numbers.get(at) {
        Some(n) => u128::from(*n),
        None => 0,
    }
}

/// The scalars of a design with their numbers.
pub(crate) fn first_scalars(
    alloc: Global,
    labels: &[Port],
    numbers: &[u64],
) -> Result<Vec<NetNumber>, AllocError>
    ensures { IfOk result (λ v. v.items ≡ labelled_from 0 labels.now numbers.now) }
{
    let mut out = Vec::new(alloc);
    for (at, label) in labels.iter().enumerate() {
        let name = label.name.copy(alloc)?;
        out.push(NetNumber {
            name,
            bits: label.bits,
            number: number_at(numbers, at),
        })?;
    }
    Ok(out)
}

fn wide(alloc: Global, numbers: &[u64]) -> Result<Vec<u128>, AllocError>
    ensures { IfOk result (λ v. v.items ≡ numbers.now) }
{
    let mut out = Vec::new(alloc);
    for n in numbers {
        out.push(u128::from(*n))?;
    }
    Ok(out)
}

fn cells_at(alloc: Global, memories: &[Vec<u64>], at: usize) -> Result<Vec<u128>, AllocError>
    ensures { IfOk result (λ v. v.items ≡ slice_index_or (lists_of memories.now) at []) }
{
    match memories.get(at) {
        Some(cells) => wide(alloc, cells),
        None => Ok(Vec::new(alloc)),
    }
}

fn ready_at(alloc: Global, ready: &[Vec<bool>], at: usize) -> Result<Vec<bool>, AllocError>
    ensures { IfOk result (λ v. v.items ≡ slice_index_or (lists_of ready.now) at []) }
{
    match ready.get(at) {
        Some(bits) => bits.as_slice().to_vec(alloc),
        None => Ok(Vec::new(alloc)),
    }
}

/// The memories around a design with their first cells and their ready bits.
pub(crate) fn first_memories(
    alloc: Global,
    labels: &[Port],
    around: &Env,
) -> Result<Vec<OutsideMemory>, AllocError>
    ensures { IfOk result (λ v. map outside_tree v.items ≡ outside_from 0 labels.now (environment_of around.now)) }
{
    let mut out = Vec::new(alloc);
    for (at, label) in labels.iter().enumerate() {
        let name = label.name.copy(alloc)?;
        let cells = cells_at(alloc, &around.memories, at)?;
        let ready = ready_at(alloc, &around.ready, at)?;
        out.push(OutsideMemory { name, cells, ready })?;
    }
    Ok(out)
}
