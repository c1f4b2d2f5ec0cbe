//! The number of ways to place the free groups.
ghost use Rattle.std.specs.Prelude.{◌≡◌, ◌<◌, ◌≤◌, ◌^◌, ◌↔◌, ℕ, IsTrue, length, OnOk, IfErr};
ghost use Rattle.slot_plan.specs.Causes.{HasFewWays, open_slots as open_of, free_groups as free_of};

use crate::floorplan::PlanFault;
use plan_device::Device;

/// Checks whether a power is above the number of plans that the search may visit.
fn is_too_many(slots: u32, free: u32) -> bool
    requires slots { slots ≤ 32 }
    ensures { IsTrue result ↔ (4194304 < slots ^ free) }
{
    if slots == 0 {
        return false;
    }
    let mut plans: u64 = 1;
    for _ in 0..free {
        plans *= slots as u64;
        if plans > 4194304 {
            return true;
        }
    }
    false
}

/// Returns the number of slots that are not forbidden.
pub(crate) fn open_slots(device: &Device) -> usize
    ensures { result ≡ open_of device.now }
{
    device
        .forbidden
        .iter()
        .filter(|forbidden| !**forbidden)
        .count()
}

/// Returns the number of groups that are not pinned.
pub fn free_groups(device: &Device) -> usize
    ensures { result ≡ free_of device.now }
{
    device.pins.iter().filter(|pin| pin.is_none()).count()
}

/// Returns `TooMany` if there are more than 4,194,304 ways to place the free groups.
pub(crate) fn check_ways(device: &Device) -> Result<(), PlanFault>
    requires slots { length device.now.forbidden.items ≤ 32 }
    requires groups { length device.now.pins.items ≤ 512 }
    ensures few { OnOk result (HasFewWays device.now) }
    ensures many { IfErr result (λ fault. (fault ≡ PlanFault.TooMany (open_of device.now) (free_of device.now)) × (4194304 < open_of device.now ^ free_of device.now)) }
{
    let slots = open_slots(device) as u32;
    let free = free_groups(device) as u32;
    if is_too_many(slots, free) {
        Err(PlanFault::TooMany { slots, free })
    } else {
        Ok(())
    }
}
