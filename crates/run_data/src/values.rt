// The data that a data file gives the inputs of a shape: scalars, first cells of memories, and the cycles in which they are ready.
ghost use Rattle.std.specs.Prelude.{◌≡◌, ◌≤◌, map, IfOk, All};
ghost use Rattle.serde_json.specs.View.{view};
ghost use Rattle.run_data.specs.Data.{bits_or_zero, is_ready, scalars_of, memories_of, waits_of};

use crate::data::Data;
use crate::find::{bits_of, group_in};
use crate::group::Group;
use crate::json::{items, member};
use serde_json::Value;
use std::alloc::{AllocError, Global};
use tapa_base::Shape;

// The bits of a value, and 0 where it has none.
fn bits_or_zero(bits: u32, value: &Value) -> u64
    requires { bits ≤ 64 }
    ensures { result ≡ bits_or_zero bits (view value.now) }
{
    match bits_of(bits, value) {
        Some(number) => number,
        None => 0,
    }
}

// The value of each scalar.
fn scalars(alloc: Global, file: &Value, shape: &Shape) -> Result<Vec<u64>, AllocError>
    requires { All (λ port. port.bits ≤ 64) shape.now.scalars.items }
    ensures { IfOk result (λ values. values.items ≡ scalars_of shape.now (view file.now)) }
{
    let found = group_in(Group::Scalars, file);
    let mut values = Vec::with_capacity(alloc, shape.scalars.len())?;
    for port in &shape.scalars {
        let value = match member(found, port.name.bytes()) {
            Some(value) => bits_or_zero(port.bits, value),
            None => 0,
        };
        values.push(value)?;
    }
    Ok(values)
}

// The bits of each value.
fn cells(alloc: Global, bits: u32, values: &[Value]) -> Result<Vec<u64>, AllocError>
    requires { bits ≤ 64 }
    ensures { IfOk result (λ cells. cells.items ≡ map (bits_or_zero bits) (map view values.now)) }
{
    let mut cells = Vec::with_capacity(alloc, values.len())?;
    for value in values {
        cells.push(bits_or_zero(bits, value))?;
    }
    Ok(cells)
}

// The first cells of each memory.
fn memories(alloc: Global, file: &Value, shape: &Shape) -> Result<Vec<Vec<u64>>, AllocError>
    requires { All (λ port. port.bits ≤ 64) shape.now.memories.items }
    ensures { IfOk result (λ memories. map (λ cells. cells.items) memories.items ≡ memories_of shape.now (view file.now)) }
{
    let found = group_in(Group::Memories, file);
    let mut memories = Vec::with_capacity(alloc, shape.memories.len())?;
    for port in &shape.memories {
        let values = items(member(found, port.name.bytes()));
        memories.push(cells(alloc, port.bits, values)?)?;
    }
    Ok(memories)
}

// Whether each value is 1.
fn ready(alloc: Global, values: &[Value]) -> Result<Vec<bool>, AllocError>
    ensures { IfOk result (λ ready. ready.items ≡ map is_ready (map view values.now)) }
{
    let mut ready = Vec::with_capacity(alloc, values.len())?;
    for value in values {
        ready.push(bits_or_zero(1, value) == 1)?;
    }
    Ok(ready)
}

// In which cycles each memory is ready.
fn waits(alloc: Global, file: &Value, shape: &Shape) -> Result<Vec<Vec<bool>>, AllocError>
    ensures { IfOk result (λ waits. map (λ ready. ready.items) waits.items ≡ waits_of shape.now (view file.now)) }
{
    let found = group_in(Group::Waits, file);
    let mut waits = Vec::with_capacity(alloc, shape.memories.len())?;
    for port in &shape.memories {
        let values = items(member(found, port.name.bytes()));
        waits.push(ready(alloc, values)?)?;
    }
    Ok(waits)
}

// The data of a file.
pub(crate) fn values(alloc: Global, file: &Value, shape: &Shape) -> Result<Data, AllocError>
    requires scalars { All (λ port. port.bits ≤ 64) shape.now.scalars.items }
    requires memories { All (λ port. port.bits ≤ 64) shape.now.memories.items }
    ensures scalars { IfOk result (λ given. given.scalars.items ≡ scalars_of shape.now (view file.now)) }
    ensures memories { IfOk result (λ given. map (λ cells. cells.items) given.memories.items ≡ memories_of shape.now (view file.now)) }
    ensures waits { IfOk result (λ given. map (λ ready. ready.items) given.waits.items ≡ waits_of shape.now (view file.now)) }
{
    let scalars = scalars(alloc, file, shape)?;
    let memories = memories(alloc, file, shape)?;
    let waits = waits(alloc, file, shape)?;
    Ok(Data {
        scalars,
        memories,
        waits,
    })
}
