//! The regions of a level as a grid of their own: the first slot of each region has what the region has.
ghost use Rattle.std.specs.Prelude.{◌≡◌, ◌<◌, ◌≤◌, ◌+◌, ◌*◌, ◌^◌, ◌==◌, ◌&&◌, if◌then◌else◌};
ghost use Rattle.std.specs.Prelude.{ℕ, true, false, map, IfOk, IfSome, length, slice_get, slice_index, slice_index_or};
ghost use Rattle.std.specs.Option.{option_map};
ghost use Rattle.task_graph.specs.Streams.{amount_at};
ghost use Rattle.plan_device.specs.Devices.{IsDevice};
ghost use Rattle.slot_plan.specs.Grids.{IsGrid};
ghost use Rattle.slot_plan.specs.Merging.{is_open};
ghost use Rattle.slot_split.specs.Regions.{IsRegions, AreCorners, AreSums, AreClosed};

use crate::cuts::corner;
use plan_device::Device;
use slot_plan::{add_at, empty_slots};
use std::alloc::{AllocError, Global};
use task_graph::{Graph, Use};

/// Returns the first slots of the regions in which the slots are at a level.
pub(crate) fn corners_of(
    alloc: Global,
    device: &Device,
    row_levels: u32,
    level: u32,
) -> Result<Vec<u32>, AllocError>
    requires few_rows { device.now.rows ≤ 8 }
    requires some_cols { 0 < device.now.cols }
    requires few_cols { device.now.cols ≤ 4 }
    requires slots { length device.now.slots.items ≡ device.now.rows * device.now.cols }
    ensures { IfOk result (λ corners. AreCorners device.now row_levels level corners.items) }
{
    let mut corners = Vec::new(alloc);
    for slot in 0..device.slots.len() {
        corners.push(corner(device, row_levels, level, slot as u32))?;
    }
    Ok(corners)
}

/// Adds what a slot has to its region, if it is open.
fn add_open(sums: &mut Vec<Use>, device: &Device, corner: usize, slot: usize)
    requires inside { corner < length sums.old.items }
    requires slot { slot < length device.now.slots.items }
    requires marks { length device.now.forbidden.items ≡ length device.now.slots.items }
    requires low { (k : ℕ) → amount_at sums.old.items corner k < 2 ^ 60 }
    requires small { (k : ℕ) → amount_at device.now.slots.items slot k < 2 ^ 60 }
    ensures long { length sums.new.items ≡ length sums.old.items }
    ensures value { (c k : ℕ) → amount_at sums.new.items c k ≡ amount_at sums.old.items c k + (if (corner == c) && is_open device.now slot then amount_at device.now.slots.items slot k else 0) }
{
    if device.forbidden[slot] {
        return;
    }
    let sum = add_at(sums[corner], &device.slots, slot);
    sums[corner] = sum;
}

/// Returns the amounts that the regions have: the sums over their slots that are not forbidden.
fn sums_of(alloc: Global, device: &Device, corners: &[u32]) -> Result<Vec<Use>, AllocError>
    requires long { length corners.now ≡ length device.now.slots.items }
    requires few { length device.now.slots.items ≤ 32 }
    requires inside { (s : ℕ) → s < length corners.now → slice_index corners.now s < length corners.now }
    requires marks { length device.now.forbidden.items ≡ length device.now.slots.items }
    requires small { (s k : ℕ) → amount_at device.now.slots.items s k < 2 ^ 32 }
    ensures { IfOk result (λ sums. AreSums device.now corners.now (length device.now.slots.items) sums.items) }
{
    let mut sums = empty_slots(alloc, device.slots.len())?;
    for slot in 0..device.slots.len() {
        add_open(&mut sums, device, corners[slot] as usize, slot);
    }
    Ok(sums)
}

/// Marks a region as open if one of its slots is.
fn mark_open(closed: &mut Vec<bool>, device: &Device, corner: usize, slot: usize)
    requires inside { corner < length closed.old.items }
    requires slot { slot < length device.now.forbidden.items }
    ensures long { length closed.new.items ≡ length closed.old.items }
    ensures value { (c : ℕ) → slice_index_or closed.new.items c false ≡ (if (corner == c) && is_open device.now slot then false else slice_index_or closed.old.items c false) }
{
    if !device.forbidden[slot] {
        closed[corner] = false;
    }
}

/// Marks the slots that begin no region that has an open slot.
fn closed_of(alloc: Global, device: &Device, corners: &[u32]) -> Result<Vec<bool>, AllocError>
    requires long { length corners.now ≡ length device.now.slots.items }
    requires inside { (s : ℕ) → s < length corners.now → slice_index corners.now s < length corners.now }
    requires marks { length device.now.forbidden.items ≡ length device.now.slots.items }
    ensures { IfOk result (λ closed. AreClosed device.now corners.now (length device.now.slots.items) closed.items) }
{
    let mut closed = vec![in alloc; true; device.slots.len()]?;
    for slot in 0..device.slots.len() {
        mark_open(&mut closed, device, corners[slot] as usize, slot);
    }
    Ok(closed)
}

/// Returns the region of a pin.
fn region_of(pin: Option<u32>, corners: &[u32]) -> Option<u32>
    requires { IfSome pin (λ slot. slot < length corners.now) }
    ensures { result ≡ option_map (slice_index corners.now) pin }
{
    match pin {
        None => None,
        Some(slot) => Some(corners[slot as usize]),
    }
}

/// Returns the regions to which groups are pinned.
fn pins_of(alloc: Global, device: &Device, corners: &[u32]) -> Result<Vec<Option<u32>>, AllocError>
    requires { (v s : ℕ) → slice_get device.now.pins.items v ≡ Some (Some s) → s < length corners.now }
    ensures { IfOk result (λ pins. pins.items ≡ map (option_map (slice_index corners.now)) device.now.pins.items) }
{
    let mut pins = Vec::new(alloc);
    for pin in &device.pins {
        pins.push(region_of(*pin, corners))?;
    }
    Ok(pins)
}

/// Returns a copy of a list of uses.
fn copy_of(alloc: Global, uses: &[Use]) -> Result<Vec<Use>, AllocError>
    ensures { IfOk result (λ copied. copied.items ≡ uses.now) }
{
    let mut copied = Vec::new(alloc);
    for amount in uses {
        copied.push(*amount)?;
    }
    Ok(copied)
}

/// Returns the grid of the regions that have these first slots.
pub(crate) fn regions_of(
    alloc: Global,
    graph: &Graph,
    device: &Device,
    corners: &[u32],
) -> Result<Device, AllocError>
    requires device { IsDevice graph.now device.now }
    requires long { length corners.now ≡ length device.now.slots.items }
    requires inside { (s : ℕ) → s < length corners.now → slice_index corners.now s < length corners.now }
    ensures grid { IfOk result (λ regions. IsGrid graph.now regions) }
    ensures regions { IfOk result (λ regions. (R K : ℕ) → AreCorners device.now R K corners.now → IsRegions graph.now device.now R K regions) }
{
    let slots = sums_of(alloc, device, corners)?;
    let forbidden = closed_of(alloc, device, corners)?;
    let pins = pins_of(alloc, device, corners)?;
    let uses = copy_of(alloc, &device.uses)?;
    Ok(Device {
        rows: device.rows,
        cols: device.cols,
        levels_rows: Vec::new(alloc),
        levels_cols: Vec::new(alloc),
        percent: device.percent,
        slots,
        uses,
        pins,
        forbidden,
    })
}
