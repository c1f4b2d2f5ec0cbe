//! The slots in which a group may be and has room.
ghost use Rattle.std.specs.Prelude.{◌≡◌, ◌<◌, ◌≤◌, ◌+◌, ◌*◌, ◌^◌, ◌↔◌, ℕ, IsTrue, length, false, not, IfNone, IfSome, MatchOption};
ghost use Rattle.task_graph.specs.Streams.{amount, amount_at};
ghost use Rattle.slot_plan.specs.Plan.{distance, MayStand};
ghost use Rattle.slot_plan.specs.FirstFit.{is_pinned};
ghost use Rattle.slot_plan.specs.Placing.{AreLoads, HasSpace, IsFirstSpace};

use crate::amounts::{is_within, sum_of};
use plan_device::Device;
use task_graph::Use;

/// Checks whether no member of a group is pinned.
pub(crate) fn is_free(device: &Device, group: usize) -> bool
    requires { group < length device.now.pins.items }
    ensures { result ≡ not (is_pinned device.now group) }
{
    match device.pins[group] {
        None => true,
        Some(_) => false,
    }
}

/// Checks whether a group may be in a slot.
pub(crate) fn may_stand(device: &Device, group: usize, slot: usize) -> bool
    requires slot { slot < length device.now.slots.items }
    requires group { group < length device.now.pins.items }
    requires forbidden { length device.now.forbidden.items ≡ length device.now.slots.items }
    ensures { IsTrue result ↔ MayStand device.now group slot }
{
    if device.forbidden[slot] {
        return false;
    }
    match device.pins[group] {
        None => true,
        Some(pin) => pin as usize == slot,
    }
}

/// Returns the distance of two slots.
pub(crate) fn distance_of(device: &Device, a: u32, b: u32) -> u32
    requires cols { 0 < device.now.cols }
    requires few { device.now.cols ≤ 4 }
    requires first { a < 32 }
    requires second { b < 32 }
    ensures value { result ≡ distance device.now a b }
    ensures small { result ≤ 40 }
{
    let cols = device.cols;
    (a / cols).abs_diff(b / cols) + (a % cols).abs_diff(b % cols)
}

/// Returns what a slot holds with one more group, if that is within the slot's capacity.
pub(crate) fn loaded(
    device: &Device,
    needs: &[Use],
    used: &[Use],
    group: usize,
    slot: usize,
) -> Option<Use>
    requires slot { slot < length device.now.slots.items }
    requires used { slot < length used.now }
    requires group { group < length needs.now }
    requires percent { device.now.percent ≤ 100 }
    requires capacity { (k : ℕ) → amount_at device.now.slots.items slot k < 2 ^ 40 }
    requires low { (k : ℕ) → amount_at used.now slot k ≤ 2 ^ 40 }
    requires need { (k : ℕ) → amount_at needs.now group k < 2 ^ 49 }
    ensures none { IfNone result (((k : ℕ) → (amount_at used.now slot k + amount_at needs.now group k) * 100 ≤ amount_at device.now.slots.items slot k * device.now.percent) → ⊥) }
    ensures sum { IfSome result (λ after. (k : ℕ) → amount after k ≡ amount_at used.now slot k + amount_at needs.now group k) }
    ensures fits { IfSome result (λ after. (k : ℕ) → amount after k * 100 ≤ amount_at device.now.slots.items slot k * device.now.percent) }
{
    let after = sum_of(used[slot], needs[group]);
    if is_within(after, device.slots[slot], device.percent) {
        Some(after)
    } else {
        None
    }
}

/// Returns what a slot holds with one more group, if the group may be there and has room.
fn room_in(device: &Device, needs: &[Use], used: &[Use], group: usize, slot: usize) -> Option<Use>
    requires loads { AreLoads device.now needs.now used.now }
    requires group { group < length needs.now }
    requires slot { slot < length device.now.slots.items }
    ensures none { IfNone result (HasSpace device.now needs.now used.now group slot → ⊥) }
    ensures space { IfSome result (λ after. HasSpace device.now needs.now used.now group slot) }
    ensures sum { IfSome result (λ after. (k : ℕ) → amount after k ≡ amount_at used.now slot k + amount_at needs.now group k) }
{
    if !may_stand(device, group, slot) {
        return None;
    }
    loaded(device, needs, used, group, slot)
}

/// Finds the first slot that has room for a group, and what the slot holds then.
pub(crate) fn first_room(
    device: &Device,
    needs: &[Use],
    used: &[Use],
    group: usize,
) -> Option<(usize, Use)>
    requires loads { AreLoads device.now needs.now used.now }
    requires group { group < length needs.now }
    ensures { MatchOption result ((s : ℕ) → HasSpace device.now needs.now used.now group s → ⊥) (λ r. IsFirstSpace device.now needs.now used.now group r.0 r.1) }
{
    for slot in 0..device.slots.len() {
        match room_in(device, needs, used, group, slot) {
            Some(after) => return Some((slot, after)),
            None => {}
        }
    }
    None
}
