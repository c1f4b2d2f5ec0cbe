//! First fit.
ghost use Rattle.std.specs.Prelude.{◌≡◌, ◌<◌, ◌+◌, ℕ, IsTrue, true, false, length, IfOk, IfErr, OnOk, Some};
ghost use Rattle.slot_plan.specs.Grids.{IsGrid};
ghost use Rattle.slot_plan.specs.Causes.{IsPlanBy, IsPlanCause};
ghost use Rattle.slot_plan.specs.Placing.{ArePlaced, CanPlace, IsStuck};
ghost use Rattle.slot_plan.specs.Plan.{AreNeeds, IsPlanOf};

use crate::amounts::empty_slots;
use crate::floorplan::{Mode, PlanFault};
use crate::slots::{first_room, is_free};
use plan_device::Device;
use std::alloc::{AllocError, Global};
use task_graph::{Graph, Use};

/// The slot of each group that was placed, 0 for the others, and the amount that each slot holds.
#[derive(Drop)]
pub(crate) struct Placing {
    pub slots: Vec<u32>,
    pub used: Vec<Use>,
}

impl Placing {
    /// Places the next group of its kind, pinned or free, in the first slot that has room for it. Returns false if no slot has. A
    /// group of the other kind stays.
    fn place(&mut self, device: &Device, needs: &[Use], free: bool, group: usize) -> bool
        requires group { group < length needs.now }
        requires placed { ArePlaced device.now needs.now free group self.old }
        ensures placed { IsTrue result → ArePlaced device.now needs.now free (group + 1) self.new }
        ensures none { result ≡ false → IsStuck device.now needs.now free self.new.slots.items group }
    {
        if is_free(device, group) != free {
            return true;
        }
        match first_room(device, needs, &self.used, group) {
            None => false,
            Some((slot, after)) => {
                self.slots[group] = slot as u32;
                self.used[slot] = after;
                true
            }
        }
    }

    /// Places the groups of one kind, pinned or free, in order. Returns `NoFit` if one of them finds no slot.
    pub(crate) fn place_all(
        &mut self,
        device: &Device,
        needs: &[Use],
        free: bool,
    ) -> Result<(), PlanFault>
        requires placed { ArePlaced device.now needs.now free 0 self.old }
        ensures placed { OnOk result (ArePlaced device.now needs.now free (length needs.now) self.new) }
        ensures none { IfErr result (λ fault. (v : ℕ) × (fault ≡ PlanFault.NoFit (Some v)) × IsStuck device.now needs.now free self.new.slots.items v) }
    {
        for group in 0..needs.len() {
            if !self.place(device, needs, free, group) {
                return Err(PlanFault::NoFit {
                    group: Some(group as u32),
                });
            }
        }
        Ok(())
    }
}

/// Returns a placing of no group.
pub(crate) fn nothing_placed(
    alloc: Global,
    device: &Device,
    needs: &[Use],
) -> Result<Placing, AllocError>
    requires { CanPlace device.now needs.now }
    ensures { IfOk result (ArePlaced device.now needs.now false 0) }
{
    let slots = vec![in alloc; 0; needs.len()]?;
    let used = empty_slots(alloc, device.slots.len())?;
    Ok(Placing { slots, used })
}

/// Finds the slots of first fit's plan.
pub(crate) fn first_fit(
    alloc: Global,
    graph: &Graph,
    device: &Device,
    needs: &[Use],
) -> Result<Vec<u32>, PlanFault>
    requires device { IsGrid graph.now device.now }
    requires needs { AreNeeds graph.now device.now needs.now }
    ensures plan { IfOk result (λ slot. IsPlanOf graph.now device.now slot.items) }
    ensures by_mode { IfOk result (λ slot. IsPlanBy graph.now device.now Mode.Fit slot.items) }
    ensures cause { IfErr result (IsPlanCause graph.now device.now Mode.Fit) }
{
    let mut placing = nothing_placed(alloc, device, needs)?;
    placing.place_all(device, needs, false)?;
    placing.place_all(device, needs, true)?;
    Ok(placing.slots)
}
