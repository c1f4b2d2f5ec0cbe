// What a device file gives: the registers at each border of slots, the capacities of the slots, and what each instance uses.
ghost use Rattle.std.specs.Prelude.{◌≡◌, ◌<◌, ◌≤◌, ◌-◌, ◌^◌, ℕ, Some, All, map, length, replicate, option_and_then, slice_get, slice_index, IfOk};
ghost use Rattle.std.specs.Option.{option_map_or};
ghost use Rattle.serde_json.specs.Find.{get_member};
ghost use Rattle.serde_json.specs.View.{view};
ghost use Rattle.tapa_syntax.specs.declared.program.Leaf.{Leaf};
ghost use Rattle.task_graph.specs.Uses.{use_of};
ghost use Rattle.task_graph.specs.Streams.{amount_at};
ghost use Rattle.run_data.specs.Data.{members_at};
ghost use Rattle.run_data.specs.Seen.{seen};
ghost use Rattle.plan_device.specs.Amounts.{amounts_of};
ghost use Rattle.plan_device.specs.Contents as spec;

use crate::amounts::amounts_of;
use crate::json::number_or;
use crate::key::{Format, Group, Key};
use run_data::{items, member};
use serde_json::Value;
use std::alloc::{AllocError, Global};
use tapa_syntax::{Instance, Leaf, Program};
use task_graph::Use;

/// The registers at a border of which the file says nothing.
const LEVELS: u32 = 2;

fn levels_of(found: Option<&Value>) -> u32
    ensures value { result ≡ spec.levels_of (seen found.entry) }
    ensures few { result ≤ 16 }
{
    number_or(2, 0, 17, found) as u32
}

fn levels_each(alloc: Global, values: &[Value]) -> Result<Vec<u32>, AllocError>
    ensures value { IfOk result (λ levels. levels.items ≡ map (λ item. spec.levels_of (Some item)) (map view values.now)) }
    ensures few { IfOk result (λ levels. All (λ n. n ≤ 16) levels.items) }
{
    let mut levels = Vec::with_capacity(alloc, values.len())?;
    for value in values {
        levels.push(levels_of(Some(value)))?;
    }
    Ok(levels)
}

fn same_levels(alloc: Global, count: u32, levels: u32) -> Result<Vec<u32>, AllocError>
    requires { levels ≤ 16 }
    ensures value { IfOk result (λ each. each.items ≡ replicate (count - 1) levels) }
    ensures few { IfOk result (λ each. All (λ n. n ≤ 16) each.items) }
{
    let each = vec![in alloc; levels; count.saturating_sub(1) as usize]?;
    Ok(each)
}

// By what a file has at a list of borders.
fn listed_borders(alloc: Global, found: Option<&Value>, count: u32) -> Result<Vec<u32>, AllocError>
    ensures value { IfOk result (λ levels. levels.items ≡ spec.listed (seen found.entry) count) }
    ensures few { IfOk result (λ levels. All (λ n. n ≤ 16) levels.items) }
{
    match found {
        Some(list) => levels_each(alloc, items(Some(list))),
        None => same_levels(alloc, count, LEVELS),
    }
}

/// The registers at each border between rows or columns.
pub(crate) fn borders(
    alloc: Global,
    format: Format,
    key: Key,
    count: u32,
    file: &Value,
) -> Result<Vec<u32>, AllocError>
    ensures value { IfOk result (λ levels. levels.items ≡ spec.borders format key count (view file.now)) }
    ensures few { IfOk result (λ levels. All (λ n. n ≤ 16) levels.items) }
{
    match format {
        Format::One => same_levels(alloc, count, levels_of(file.get("levels"))),
        Format::Two | Format::Neither => listed_borders(alloc, file.get(key.name()), count),
    }
}

pub(crate) fn percent_of(file: &Value) -> u32
    ensures value { result ≡ spec.percent_of (view file.now) }
    ensures some { 0 < result }
    ensures most { result ≤ 100 }
{
    number_or(70, 1, 101, file.get("percent")) as u32
}

/// The capacities of slots.
pub(crate) fn slots_of(alloc: Global, file: &Value) -> Result<Vec<Use>, AllocError>
    ensures value { IfOk result (λ slots. slots.items ≡ spec.slots_of (view file.now)) }
    ensures below { IfOk result (λ slots. (s k : ℕ) → amount_at slots.items s k < 2 ^ 32) }
{
    let values = items(file.get("slots"));
    let mut slots = Vec::with_capacity(alloc, values.len())?;
    for value in values {
        slots.push(amounts_of(value))?;
    }
    Ok(slots)
}

// What a file says of an instance's leaf task by what it has at `tasks`, and else the estimate.
fn use_in(tasks: Option<&Value>, leaves: &[Leaf], instance: &Instance, estimate: Use) -> Use
    ensures { result ≡ spec.use_by (seen tasks.entry) leaves.now instance.now estimate }
{
    match leaves.get(instance.body as usize) {
        Some(leaf) => match member(tasks, leaf.name.bytes()) {
            Some(value) => amounts_of(value),
            None => estimate,
        },
        None => estimate,
    }
}

/// What each instance uses.
pub(crate) fn uses_of(
    alloc: Global,
    program: &Program,
    estimates: &[Use],
    file: &Value,
) -> Result<Vec<Use>, AllocError>
    requires { estimates.now ≡ map (use_of program.now.bodies.items) program.now.instances.items }
    ensures { IfOk result (λ uses. uses.items ≡ spec.uses_of program.now (view file.now)) }
{
    let tasks = file.get(Group::Tasks.name());
    let leaves = program.bodies.as_slice();
    let instances = program.instances.as_slice();
    let mut uses = Vec::with_capacity(alloc, instances.len())?;
    for i in 0..instances.len() {
        uses.push(use_in(tasks, leaves, &instances[i], estimates[i]))?;
    }
    Ok(uses)
}
