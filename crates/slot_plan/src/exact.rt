//! Mode exact.
ghost use Rattle.std.specs.Prelude.{◌≡◌, ◌<◌, ℕ, List, false, length, slice_index, IfOk, IfErr, MatchOption};
ghost use Rattle.slot_plan.specs.Grids.{IsGrid};
ghost use Rattle.slot_plan.specs.Causes.{IsPlanBy, IsPlanCause};
ghost use Rattle.slot_plan.specs.Least.{IsLeastOf, HasNoneOf};
ghost use Rattle.slot_plan.specs.Merging.{StayAtHome, AreRegions};
ghost use Rattle.slot_plan.specs.Placing.{ArePlaced, CanPlace, IsStuck};
ghost use Rattle.slot_plan.specs.Plan.{AreNeeds, IsPlanOf};

use crate::fit::{Placing, nothing_placed};
use crate::floorplan::{Mode, PlanFault};
use crate::limit::check_ways;
use crate::search::{Best, least_layout};
use crate::tables::{Choice, Regions, tables_of};
use plan_device::Device;
use std::alloc::{AllocError, Global};
use task_graph::{Graph, Use};

/// Places the pinned groups in their slots. Returns `None` if one of them has no room.
fn pinned_placed(
    alloc: Global,
    device: &Device,
    needs: &[Use],
) -> Result<Option<Placing>, AllocError>
    requires { CanPlace device.now needs.now }
    ensures { IfOk result (λ found. MatchOption found ((b : List ℕ) × (v : ℕ) × IsStuck device.now needs.now false b v)
        (ArePlaced device.now needs.now false (length needs.now))) }
{
    let mut placing = nothing_placed(alloc, device, needs)?;
    match placing.place_all(device, needs, false) {
        Ok(()) => Ok(Some(placing)),
        Err(_) => Ok(None),
    }
}

/// Writes the slots of a layout's items beside those of pinned groups.
fn merge(slots: &mut Vec<u32>, choice: &Choice, best: &Best)
    requires long { length best.now.places.items ≡ length choice.now.items.items }
    requires items { (j : ℕ) → j < length choice.now.items.items → slice_index choice.now.items.items j < length slots.old.items }
    requires apart { (i j : ℕ) → i < j → j < length choice.now.items.items → slice_index choice.now.items.items i < slice_index choice.now.items.items j }
    requires places { (j : ℕ) → j < length best.now.places.items → slice_index best.now.places.items j < length choice.now.places.items }
    ensures long { length slots.new.items ≡ length slots.old.items }
    ensures items { (j : ℕ) → j < length choice.now.items.items
        → slice_index slots.new.items (slice_index choice.now.items.items j) ≡ slice_index choice.now.places.items (slice_index best.now.places.items j) }
    ensures others { (v : ℕ) → ((j : ℕ) → j < length choice.now.items.items → slice_index choice.now.items.items j ≡ v → ⊥)
        → slice_index slots.new.items v ≡ slice_index slots.old.items v }
{
    for j in 0..choice.items.len() {
        slots[choice.items[j] as usize] = choice.places[best.places[j] as usize];
    }
}

/// Finds the least of the plans beside pinned groups in their slots in which each free group stays in its region.
fn least_beside(
    alloc: Global,
    graph: &Graph,
    device: &Device,
    needs: &[Use],
    placing: Placing,
    regions: &Regions,
) -> Result<Option<Vec<u32>>, AllocError>
    requires device { IsGrid graph.now device.now }
    requires needs { AreNeeds graph.now device.now needs.now }
    requires placed { ArePlaced device.now needs.now false (length needs.now) placing }
    requires regions { AreRegions graph.now device.now regions.now }
    ensures { IfOk result (λ found. MatchOption found (HasNoneOf graph.now device.now (StayAtHome device.now regions.now.homes.items regions.now.slots.items))
        (λ slot. IsLeastOf graph.now device.now (StayAtHome device.now regions.now.homes.items regions.now.slots.items) slot.items)) }
{
    let choice = Choice::of(alloc, graph, device)?;
    let tables = tables_of(alloc, graph, device, needs, &placing, &choice, regions)?;
    match least_layout(alloc, &tables)? {
        None => Ok(None),
        Some(best) => {
            let mut slots = placing.slots;
            merge(&mut slots, &choice, &best);
            Ok(Some(slots))
        }
    }
}

/// Finds the slots of the least plan in which each free group stays in a slot of its home region; of several such plans, the first in order. Returns `None` if there is no such plan.
pub fn least_at_home(
    alloc: Global,
    graph: &Graph,
    device: &Device,
    needs: &[Use],
    regions: &Regions,
) -> Result<Option<Vec<u32>>, AllocError>
    requires device { IsGrid graph.now device.now }
    requires needs { AreNeeds graph.now device.now needs.now }
    requires regions { AreRegions graph.now device.now regions.now }
    ensures { IfOk result (λ found. MatchOption found (HasNoneOf graph.now device.now (StayAtHome device.now regions.now.homes.items regions.now.slots.items))
        (λ slot. IsLeastOf graph.now device.now (StayAtHome device.now regions.now.homes.items regions.now.slots.items) slot.items)) }
{
    match pinned_placed(alloc, device, needs)? {
        None => Ok(None),
        Some(placing) => least_beside(alloc, graph, device, needs, placing, regions),
    }
}

/// Finds the slots of the least plan. Pinned groups are placed before the search begins.
pub(crate) fn exact_slots(
    alloc: Global,
    graph: &Graph,
    device: &Device,
    needs: &[Use],
) -> Result<Vec<u32>, PlanFault>
    requires device { IsGrid graph.now device.now }
    requires needs { AreNeeds graph.now device.now needs.now }
    ensures plan { IfOk result (λ slot. IsPlanOf graph.now device.now slot.items) }
    ensures by_mode { IfOk result (λ slot. IsPlanBy graph.now device.now Mode.Exact slot.items) }
    ensures cause { IfErr result (IsPlanCause graph.now device.now Mode.Exact) }
{
    check_ways(device)?;
    let homes = vec![in alloc; 0; graph.groups as usize]?;
    let slots = vec![in alloc; 0; device.slots.len()]?;
    let regions = Regions { homes, slots };
    match least_at_home(alloc, graph, device, needs, &regions)? {
        None => Err(PlanFault::NoFit { group: None }),
        Some(slots) => Ok(slots),
    }
}
