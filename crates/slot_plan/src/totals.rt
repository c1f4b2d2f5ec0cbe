//! The amounts that a plan uses, and its cost.
ghost use Rattle.std.specs.Prelude.{◌≡◌, IfOk};
ghost use Rattle.slot_plan.specs.Grids.{IsGrid};
ghost use Rattle.slot_plan.specs.Causes.{AreUsed};
ghost use Rattle.slot_plan.specs.Plan.{AreNeeds, IsPlanOf, cost};

use crate::amounts::{add_at, empty_slots};
use crate::slots::distance_of;
use plan_device::Device;
use std::alloc::{AllocError, Global};
use task_graph::{Graph, Use};

/// Returns the amounts that the groups of each slot use.
pub(crate) fn used_by(
    alloc: Global,
    graph: &Graph,
    device: &Device,
    needs: &[Use],
    slots: &[u32],
) -> Result<Vec<Use>, AllocError>
    requires needs { AreNeeds graph.now device.now needs.now }
    requires plan { IsPlanOf graph.now device.now slots.now }
    ensures { IfOk result (λ used. AreUsed graph.now device.now slots.now used.items) }
{
    let mut used = empty_slots(alloc, device.slots.len())?;
    for group in 0..graph.groups as usize {
        let slot = slots[group] as usize;
        let sum = add_at(used[slot], needs, group);
        used[slot] = sum;
    }
    Ok(used)
}

/// Returns the cost of a plan.
pub(crate) fn cost_of(graph: &Graph, device: &Device, slots: &[u32]) -> u64
    requires device { IsGrid graph.now device.now }
    requires plan { IsPlanOf graph.now device.now slots.now }
    ensures { result ≡ cost graph.now device.now slots.now }
{
    let mut sum: u64 = 0;
    for e in 0..graph.streams() {
        let distance = distance_of(device, slots[graph.tail(e)], slots[graph.head(e)]);
        sum += graph.width(e) as u64 * distance as u64;
    }
    sum
}
