// The pins of a device file: the slots of instances and of groups, the forbidden slots, and the first instance in conflict with them.
ghost use Rattle.std.specs.Prelude.{◌≡◌, ◌<◌, ◌≤◌, ◌*◌, ◌↔◌};
ghost use Rattle.std.specs.Prelude.{ℕ, All, Some, None, map, filter, option_map, length, slice_get, slice_index, slice_set, get_or, false, IfOk, IfSome, IsTrue, IsFalse};
ghost use Rattle.serde_json.specs.View.{view};
ghost use Rattle.tapa_syntax.specs.declared.program.Instance.{Instance};
ghost use Rattle.run_data.specs.Data.{members_at};
ghost use Rattle.run_data.specs.Seen.{seen, first};
ghost use Rattle.plan_device.specs.Pins as spec;
ghost use Rattle.plan_device.specs.GroupPins.{IsPinning, IsFreeFor, IsTakenFrom};

use crate::grid::Grid;
use crate::json::slot_of;
use crate::key::Group;
use run_data::{items, member};
use serde_json::Value;
use std::alloc::{AllocError, Global};
use tapa_syntax::Instance;

/// The slots to which groups are pinned; or the first instance that is pinned elsewhere than an earlier one of its group.
#[derive(Drop)]
pub enum GroupPins {
    Slots(Vec<Option<u32>>),
    Elsewhere(usize),
}

// The slot to which a file pins a label, by what it has at `pins`.
fn pin_of(grid: Grid, pins: Option<&Value>, instance: &Instance) -> Option<u32>
    requires rows { grid.rows ≤ 8 }
    requires cols { grid.cols ≤ 4 }
    ensures value { result ≡ spec.pin_by grid (seen pins.entry) instance.now.label }
    ensures inside { IfSome result (λ s. s < grid.rows * grid.cols) }
{
    let place = member(pins, instance.label.bytes())?;
    slot_of(grid, place)
}

/// The pin of each instance.
pub fn pins_of(
    alloc: Global,
    grid: Grid,
    file: &Value,
    instances: &[Instance],
) -> Result<Vec<Option<u32>>, AllocError>
    requires rows { grid.rows ≤ 8 }
    requires cols { grid.cols ≤ 4 }
    ensures value { IfOk result (λ pins. pins.items ≡ map (λ (x : Instance). spec.pin_of grid (view file.now) x.label) instances.now) }
    ensures inside { IfOk result (λ pins. All (λ pin. IfSome pin (λ s. s < grid.rows * grid.cols)) pins.items) }
{
    let found = file.get(Group::Pins.name());
    let mut pins = Vec::with_capacity(alloc, instances.len())?;
    for instance in instances {
        pins.push(pin_of(grid, found, instance))?;
    }
    Ok(pins)
}

// Pins a group to a slot, unless it is pinned to another.
fn pin_group(slots: &mut [Option<u32>], group: usize, slot: u32) -> bool
    requires { group < length slots.old }
    ensures pinned { IsTrue result → slots.new ≡ slice_set slots.old group (Some slot) }
    ensures was { IsTrue result → IsFreeFor slot (get_or slots.old group None) }
    ensures another { IsFalse result → IsTakenFrom slot (get_or slots.old group None) }
{
    if let Some(taken) = slots[group] {
        if taken != slot {
            return false;
        }
    }
    slots[group] = Some(slot);
    true
}

/// The pins of groups, by those of their instances.
pub fn pin_groups(
    alloc: Global,
    groups: u32,
    group: &[u32],
    pins: &[Option<u32>],
) -> Result<GroupPins, AllocError>
    requires below { (i : ℕ) → i < length group.now → slice_index group.now i < groups }
    requires as_many { length pins.now ≡ length group.now }
    ensures { IfOk result (λ found. IsPinning groups group.now pins.now found) }
{
    let mut slots = vec![in alloc; None; groups as usize]?;
    for i in 0..group.len() {
        if let Some(slot) = pins[i] {
            if !pin_group(&mut slots, group[i] as usize, slot) {
                return Ok(GroupPins::Elsewhere(i));
            }
        }
    }
    Ok(GroupPins::Slots(slots))
}

/// Whether each slot is one that the file leaves empty.
pub fn forbidden(alloc: Global, grid: Grid, file: &Value) -> Result<Vec<bool>, AllocError>
    requires rows { grid.rows ≤ 8 }
    requires cols { grid.cols ≤ 4 }
    ensures len { IfOk result (λ forbidden. length forbidden.items ≡ grid.rows * grid.cols) }
    ensures value { IfOk result (λ forbidden. (s : ℕ) → s < grid.rows * grid.cols → get_or forbidden.items s false ≡ spec.is_forbidden grid (view file.now) s) }
{
    let mut forbidden = vec![in alloc; false; (grid.rows * grid.cols) as usize]?;
    for place in items(file.get("forbidden")) {
        if let Some(slot) = slot_of(grid, place) {
            forbidden[slot as usize] = true;
        }
    }
    Ok(forbidden)
}

/// The first instance that is pinned to a slot which is left empty.
pub fn find_on_forbidden(pins: &[Option<u32>], forbidden: &[bool]) -> Option<usize>
    requires { All (λ pin. IfSome pin (λ s. s < length forbidden.now)) pins.now }
    ensures { result ≡ first (filter (λ i. spec.is_pinned_at (λ s. get_or forbidden.now s false) (spec.pin_at pins.now i)) (spec.numbers (length pins.now))) }
{
    for i in 0..pins.len() {
        if let Some(slot) = pins[i] {
            if forbidden[slot as usize] {
                return Some(i);
            }
        }
    }
    None
}
