//! The plan of a graph on a device.
ghost use Rattle.std.specs.Prelude.{◌≡◌, IfOk, IfErr};
ghost use Rattle.plan_device.specs.Devices.{IsDevice};
ghost use Rattle.slot_plan.specs.Grids.{IsGrid};
ghost use Rattle.slot_plan.specs.Causes.{IsPlanBy, IsPlanCause, AreUsed};
ghost use Rattle.slot_plan.specs.Plan.{AreNeeds, IsPlanOf, cost};

use crate::exact::exact_slots;
use crate::fit::first_fit;
use crate::floorplan::{Mode, Plan, PlanFault};
use crate::needs::group_needs;
use crate::totals::{cost_of, used_by};
use plan_device::Device;
use std::alloc::{AllocError, Global};
use task_graph::{Graph, Use};

/// Finds the slots of a plan by its mode.
fn slots_by(
    alloc: Global,
    graph: &Graph,
    device: &Device,
    needs: &[Use],
    mode: Mode,
) -> Result<Vec<u32>, PlanFault>
    requires device { IsGrid graph.now device.now }
    requires needs { AreNeeds graph.now device.now needs.now }
    ensures plan { IfOk result (λ slot. IsPlanOf graph.now device.now slot.items) }
    ensures by_mode { IfOk result (λ slot. IsPlanBy graph.now device.now mode slot.items) }
    ensures cause { IfErr result (IsPlanCause graph.now device.now mode) }
{
    match mode {
        Mode::Exact => exact_slots(alloc, graph, device, needs),
        Mode::Fit => first_fit(alloc, graph, device, needs),
    }
}

/// Returns the plan of these slots, with the amounts that they use and the cost.
pub fn plan_of(
    alloc: Global,
    graph: &Graph,
    device: &Device,
    needs: &[Use],
    slot: Vec<u32>,
) -> Result<Plan, AllocError>
    requires device { IsGrid graph.now device.now }
    requires needs { AreNeeds graph.now device.now needs.now }
    requires plan { IsPlanOf graph.now device.now slot.items }
    ensures slot { IfOk result (λ p. p.slot.items ≡ slot.items) }
    ensures used { IfOk result (λ p. AreUsed graph.now device.now p.slot.items p.used.items) }
    ensures cost { IfOk result (λ p. p.cost ≡ cost graph.now device.now p.slot.items) }
{
    let used = used_by(alloc, graph, device, needs, &slot)?;
    let cost = cost_of(graph, device, &slot);
    Ok(Plan { slot, used, cost })
}

/// Finds a plan of a graph on a device that was read for it.
#[tactic(auto, using(crate::proofs::Limits::grid_of))]
pub fn plan(alloc: Global, graph: &Graph, device: &Device, mode: Mode) -> Result<Plan, PlanFault>
    requires { IsDevice graph.now device.now }
    ensures plan { IfOk result (λ p. IsPlanOf graph.now device.now p.slot.items) }
    ensures by_mode { IfOk result (λ p. IsPlanBy graph.now device.now mode p.slot.items) }
    ensures used { IfOk result (λ p. AreUsed graph.now device.now p.slot.items p.used.items) }
    ensures cost { IfOk result (λ p. p.cost ≡ cost graph.now device.now p.slot.items) }
    ensures cause { IfErr result (IsPlanCause graph.now device.now mode) }
{
    let needs = group_needs(alloc, graph, device)?;
    let slot = slots_by(alloc, graph, device, &needs, mode)?;
    let used = used_by(alloc, graph, device, &needs, &slot)?;
    let cost = cost_of(graph, device, &slot);
    Ok(Plan { slot, used, cost })
}
