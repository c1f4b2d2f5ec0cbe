//! Plans level by level.
ghost use Rattle.std.specs.Prelude.{◌≡◌, ◌<◌, ◌≤◌, IfOk, IfErr, MatchOption};
ghost use Rattle.plan_device.specs.Devices.{IsDevice};
ghost use Rattle.slot_plan.specs.Causes.{AreUsed, free_groups as free_of};
ghost use Rattle.slot_plan.specs.Plan.{AreNeeds, IsPlanOf, cost};
ghost use Rattle.slot_split.specs.Causes.{IsSplitCause};
ghost use Rattle.slot_split.specs.Halving.{IsLevel, HasNone, IsHalvingPlan};
ghost use Rattle.slot_split.specs.Regions.{IsBehind};
ghost use Rattle.slot_split.specs.declared.planning.SplitFault.TheVariants as split_fault;

use crate::cuts::cuts;
use crate::regions::{corners_of, regions_of};
use plan_device::Device;
use slot_plan::{Plan, Regions, free_groups, group_needs, least_at_home, plan_of};
use std::alloc::{AllocError, Global};
use task_graph::{Graph, Use};

/// The reason why there is no plan by halving.
#[derive(Clone, Copy)]
pub enum SplitFault {
    /// More than 22 groups are free.
    TooMany { free: u32 },
    /// No list of regions fits at this level after those of the levels before.
    NoSplit { level: u32 },
    /// Memory ran out.
    OutOfMemory,
}

impl From<AllocError> for SplitFault {
    ghost from_gives = { λ _ fault. fault ≡ split_fault.OutOfMemory };

    fn from(_: AllocError) -> Self {
        SplitFault::OutOfMemory
    }
}

/// Finds the regions of the groups at a level, if `homes` are those at the level before. Returns `None` if no list of regions fits.
fn next_homes(
    alloc: Global,
    graph: &Graph,
    device: &Device,
    needs: &[Use],
    row_levels: u32,
    level: u32,
    homes: Vec<u32>,
) -> Result<Option<Vec<u32>>, AllocError>
    requires device { IsDevice graph.now device.now }
    requires needs { AreNeeds graph.now device.now needs.now }
    requires homes { IsBehind graph.now device.now row_levels level homes.items }
    ensures { IfOk result (λ found. MatchOption found (HasNone graph.now device.now row_levels level) (λ next. IsLevel graph.now device.now row_levels level next.items)) }
{
    let slots = corners_of(alloc, device, row_levels, level.saturating_sub(1))?;
    let corners = corners_of(alloc, device, row_levels, level)?;
    let grid = regions_of(alloc, graph, device, &corners)?;
    least_at_home(alloc, graph, &grid, needs, &Regions { homes, slots })
}

/// Finds the regions of the groups at all levels, one after the other: in the end their slots.
fn split_slots(
    alloc: Global,
    graph: &Graph,
    device: &Device,
    needs: &[Use],
) -> Result<Vec<u32>, SplitFault>
    requires device { IsDevice graph.now device.now }
    requires needs { AreNeeds graph.now device.now needs.now }
    requires few { free_of device.now ≤ 22 }
    ensures halving { IfOk result (λ slot. IsHalvingPlan graph.now device.now slot.items) }
    ensures cause { IfErr result (IsSplitCause graph.now device.now) }
{
    let row_levels = cuts(device.rows);
    let levels = row_levels + cuts(device.cols);
    let mut homes = vec![in alloc; 0; graph.groups as usize]?;
    for level in 0..levels + 1 {
        match next_homes(alloc, graph, device, needs, row_levels, level, homes)? {
            None => return Err(SplitFault::NoSplit { level }),
            Some(next) => homes = next,
        }
    }
    Ok(homes)
}

/// Finds the plan by halving of a graph on a device that was read for it. Level by level the regions are cut in two, rows before
/// columns, and each level divides the groups at the least cost (AutoBridge's partitioning).
pub fn split(alloc: Global, graph: &Graph, device: &Device) -> Result<Plan, SplitFault>
    requires { IsDevice graph.now device.now }
    ensures halving { IfOk result (λ p. IsHalvingPlan graph.now device.now p.slot.items) }
    ensures plan { IfOk result (λ p. IsPlanOf graph.now device.now p.slot.items) }
    ensures used { IfOk result (λ p. AreUsed graph.now device.now p.slot.items p.used.items) }
    ensures cost { IfOk result (λ p. p.cost ≡ cost graph.now device.now p.slot.items) }
    ensures cause { IfErr result (IsSplitCause graph.now device.now) }
{
    let free = free_groups(device) as u32;
    if free > 22 {
        return Err(SplitFault::TooMany { free });
    }
    let needs = group_needs(alloc, graph, device)?;
    let slot = split_slots(alloc, graph, device, &needs)?;
    let plan = plan_of(alloc, graph, device, &needs, slot)?;
    Ok(plan)
}
