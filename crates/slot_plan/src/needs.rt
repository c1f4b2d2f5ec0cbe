//! The needs of groups.
ghost use Rattle.std.specs.Prelude.{◌≡◌, ◌<◌, ◌≤◌, ◌^◌, ◌*◌, ◌+◌, ℕ, IfOk, length};
ghost use Rattle.task_graph.specs.Streams.{amount, amount_at};
ghost use Rattle.slot_plan.specs.Grids.{IsGrid};
ghost use Rattle.slot_plan.specs.Plan.{need_of, AreNeeds};

use crate::amounts::{NOTHING, add_at};
use plan_device::Device;
use std::alloc::{AllocError, Global};
use task_graph::{Graph, Use};

/// Returns the sum of what the members of a group use.
fn need(graph: &Graph, device: &Device, group: usize) -> Use
    requires { IsGrid graph.now device.now }
    ensures value { (k : ℕ) → amount result k ≡ need_of graph.now device.now group k }
    ensures small { (k : ℕ) → amount result k < 2 ^ 49 }
{
    let mut sum = NOTHING;
    for i in 0..graph.group.len() {
        if graph.group[i] as usize == group {
            sum = add_at(sum, &device.uses, i);
        }
    }
    sum
}

/// Lists the needs of all groups.
pub fn group_needs(alloc: Global, graph: &Graph, device: &Device) -> Result<Vec<Use>, AllocError>
    requires { IsGrid graph.now device.now }
    ensures { IfOk result (λ needs. AreNeeds graph.now device.now needs.items) }
{
    let mut needs = Vec::new(alloc);
    for group in 0..graph.groups {
        needs.push(need(graph, device, group as usize))?;
    }
    Ok(needs)
}
