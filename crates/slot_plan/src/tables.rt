//! The tables of the search. They are filled once, so that the search visits no stream.
ghost use Rattle.std.specs.Prelude.{◌≡◌, ◌<◌, ◌≤◌, ◌+◌, ◌*◌, ◌^◌, ◌++◌, ◌∷◌, [], ℕ, true, false, map, length, slice_index, IfOk, OnOk};
ghost use Rattle.task_graph.specs.Streams.{amount, amount_at};
ghost use Rattle.task_graph.specs.Arcs.{streams, tail, head, width};
ghost use Rattle.slot_plan.specs.Grids.{IsGrid};
ghost use Rattle.slot_plan.specs.Merging.{AreThose, is_open, is_unpinned, one, pin, between, beside_pins as cost_of_pins, table_of, AreFixed, AreChoices, AreRegions, AreTablesOf};
ghost use Rattle.slot_plan.specs.Placing.{ArePlaced};
ghost use Rattle.slot_plan.specs.Plan.{AreNeeds, distance};

use crate::amounts::{hundredfold, room_beside};
use crate::fit::Placing;
use crate::slots::{distance_of, is_free};
use plan_device::Device;
use std::alloc::{AllocError, Global};
use task_graph::{Graph, Use};

/// The tables that the search reads. Items are the free groups in order, places the slots that are not forbidden.
#[derive(Drop)]
pub(crate) struct Tables {
    /// The need of each item, in hundredths.
    pub needs: Vec<Use>,
    /// The room of each place beside pinned groups, in hundredths.
    pub room: Vec<Use>,
    /// The cost of each item at each place beside pinned groups, item by item.
    pub alone: Vec<u64>,
    /// The widths of the streams between each two items.
    pub joint: Vec<u64>,
    /// The distance of each two places.
    pub distance: Vec<u64>,
    /// The region where each item is at home, and the region of each place: an item is at a place of its own region alone.
    pub homes: Vec<u32>,
    pub regions: Vec<u32>,
}

/// The groups that are not pinned and the slots that are not forbidden, in order: what the search chooses among.
#[derive(Drop)]
pub(crate) struct Choice {
    pub items: Vec<u32>,
    pub places: Vec<u32>,
}

/// The region where each group is at home, and the region of each slot.
#[derive(Drop)]
pub struct Regions {
    pub homes: Vec<u32>,
    pub slots: Vec<u32>,
}

/// A group in a slot.
#[derive(Clone, Copy)]
struct Spot {
    group: usize,
    slot: u32,
}

/// Adds a number to the end of a list if `wanted`.
fn push_wanted(list: &mut Vec<u32>, number: u32, wanted: bool) -> Result<(), AllocError>
    ensures yes { OnOk result (wanted ≡ true → list.new.items ≡ list.old.items ++ number ∷ []) }
    ensures no { OnOk result (wanted ≡ false → list.new.items ≡ list.old.items) }
{
    if wanted {
        list.push(number)?;
    }
    Ok(())
}

/// Lists the groups that are not pinned.
fn free_groups(alloc: Global, graph: &Graph, device: &Device) -> Result<Vec<u32>, AllocError>
    requires { length device.now.pins.items ≡ graph.now.groups }
    ensures { IfOk result (λ groups. AreThose graph.now.groups (is_unpinned device.now) groups.items) }
{
    let mut groups = Vec::new(alloc);
    for group in 0..graph.groups {
        push_wanted(&mut groups, group, is_free(device, group as usize))?;
    }
    Ok(groups)
}

/// Lists the slots that are not forbidden.
fn open_slots(alloc: Global, device: &Device) -> Result<Vec<u32>, AllocError>
    requires few { length device.now.slots.items ≤ 32 }
    requires forbidden { length device.now.forbidden.items ≡ length device.now.slots.items }
    ensures { IfOk result (λ slots. AreThose (length device.now.slots.items) (is_open device.now) slots.items) }
{
    let mut slots = Vec::new(alloc);
    for slot in 0..device.slots.len() {
        push_wanted(&mut slots, slot as u32, !device.forbidden[slot])?;
    }
    Ok(slots)
}

impl Choice {
    /// Lists what the search chooses among.
    pub(crate) fn of(alloc: Global, graph: &Graph, device: &Device) -> Result<Choice, AllocError>
        requires { IsGrid graph.now device.now }
        ensures { IfOk result (AreChoices graph.now device.now) }
    {
        Ok(Choice {
            items: free_groups(alloc, graph, device)?,
            places: open_slots(alloc, device)?,
        })
    }
}

fn item_needs(alloc: Global, needs: &[Use], choice: &Choice) -> Result<Vec<Use>, AllocError>
    requires inside { (j : ℕ) → j < length choice.now.items.items → slice_index choice.now.items.items j < length needs.now }
    requires small { (v k : ℕ) → amount_at needs.now v k < 2 ^ 49 }
    ensures long { IfOk result (λ scaled. length scaled.items ≡ length choice.now.items.items) }
    ensures value { IfOk result (λ scaled. (j k : ℕ) → j < length choice.now.items.items
        → amount_at scaled.items j k ≡ amount_at needs.now (slice_index choice.now.items.items j) k * 100) }
    ensures small { IfOk result (λ scaled. (j k : ℕ) → amount_at scaled.items j k < 2 ^ 56) }
{
    let mut scaled = Vec::new(alloc);
    for j in 0..choice.items.len() {
        scaled.push(hundredfold(needs, choice.items[j] as usize))?;
    }
    Ok(scaled)
}

fn place_rooms(
    alloc: Global,
    device: &Device,
    pinned: &Placing,
    choice: &Choice,
) -> Result<Vec<Use>, AllocError>
    requires inside { (y : ℕ) → y < length choice.now.places.items → slice_index choice.now.places.items y < length device.now.slots.items }
    requires used { length pinned.now.used.items ≡ length device.now.slots.items }
    requires percent { device.now.percent ≤ 100 }
    requires capacities { (s k : ℕ) → amount_at device.now.slots.items s k < 2 ^ 40 }
    requires within { (s k : ℕ) → s < length device.now.slots.items
        → amount_at pinned.now.used.items s k * 100 ≤ amount_at device.now.slots.items s k * device.now.percent }
    ensures long { IfOk result (λ room. length room.items ≡ length choice.now.places.items) }
    ensures value { IfOk result (λ room. (y k : ℕ) → y < length choice.now.places.items
        → amount_at room.items y k + amount_at pinned.now.used.items (slice_index choice.now.places.items y) k * 100 ≡ amount_at device.now.slots.items
        (slice_index choice.now.places.items y) k * device.now.percent) }
{
    let mut room = Vec::new(alloc);
    for y in 0..choice.places.len() {
        let slot = choice.places[y] as usize;
        room.push(room_beside(&device.slots, device.percent, &pinned.used, slot))?;
    }
    Ok(room)
}

/// Returns the numbers at some indices of a list.
fn chosen(alloc: Global, numbers: &[u32], at: &[u32]) -> Result<Vec<u32>, AllocError>
    requires { (j : ℕ) → j < length at.now → slice_index at.now j < length numbers.now }
    ensures { IfOk result (λ list. list.items ≡ map (slice_index numbers.now) at.now) }
{
    let mut list = Vec::new(alloc);
    for place in at {
        list.push(numbers[*place as usize])?;
    }
    Ok(list)
}

/// Adds a stream's width at its other end, if one end is the group.
fn add_width(widths: &mut Vec<u64>, group: usize, end: usize, other: usize, width: u32)
    requires other { other < length widths.old.items }
    requires low { (u : ℕ) → slice_index widths.old.items u < 2 ^ 60 }
    ensures long { length widths.new.items ≡ length widths.old.items }
    ensures value { (u : ℕ) → slice_index widths.new.items u ≡ slice_index widths.old.items u + one group end * one u other * width }
{
    if end != group {
        return;
    }
    widths[other] += width as u64;
}

/// Returns the widths of the streams between a group and each group.
fn widths_of(alloc: Global, graph: &Graph, group: usize) -> Result<Vec<u64>, AllocError>
    ensures long { IfOk result (λ widths. length widths.items ≡ graph.now.groups) }
    ensures value { IfOk result (λ widths. (u : ℕ) → slice_index widths.items u ≡ between graph.now group u) }
{
    let mut widths = vec![in alloc; 0; graph.groups as usize]?;
    for e in 0..graph.streams() {
        let tail = graph.tail(e);
        let head = graph.head(e);
        let width = graph.width(e);
        add_width(&mut widths, group, tail, head, width);
        add_width(&mut widths, group, head, tail, width);
    }
    Ok(widths)
}

/// Returns the cost of a group in a slot by one stream, if the stream's other end is pinned, and otherwise 0.
fn pinned_end(
    graph: &Graph,
    device: &Device,
    pinned: &Placing,
    spot: Spot,
    end: usize,
    other: usize,
) -> u32
    requires device { IsGrid graph.now device.now }
    requires pinned { AreFixed graph.now device.now pinned.now }
    requires slot { spot.slot < 32 }
    requires other { other < graph.now.groups }
    ensures value { result ≡ one spot.group end * pin device.now other * distance device.now spot.slot (slice_index pinned.now.slots.items other) }
    ensures small { result ≤ 40 }
{
    if end != spot.group {
        return 0;
    }
    if is_free(device, other) {
        return 0;
    }
    distance_of(device, spot.slot, pinned.slots[other])
}

/// Returns the cost of the streams between a group in a slot and pinned groups.
fn beside_pins(graph: &Graph, device: &Device, pinned: &Placing, spot: Spot) -> u64
    requires device { IsGrid graph.now device.now }
    requires pinned { AreFixed graph.now device.now pinned.now }
    requires slot { spot.slot < 32 }
    ensures { result ≡ cost_of_pins graph.now device.now pinned.now.slots.items spot.group spot.slot }
{
    let mut sum: u64 = 0;
    for e in 0..graph.streams() {
        let tail = graph.tail(e);
        let head = graph.head(e);
        let distance = pinned_end(graph, device, pinned, spot, tail, head)
            + pinned_end(graph, device, pinned, spot, head, tail);
        sum += distance as u64 * graph.width(e) as u64;
    }
    sum
}

fn push_alone(
    table: &mut Vec<u64>,
    graph: &Graph,
    device: &Device,
    pinned: &Placing,
    group: usize,
    choice: &Choice,
) -> Result<(), AllocError>
    requires device { IsGrid graph.now device.now }
    requires pinned { AreFixed graph.now device.now pinned.now }
    requires places { (y : ℕ) → y < length choice.now.places.items → slice_index choice.now.places.items y < 32 }
    ensures { OnOk result (table.new.items ≡ table.old.items ++ map (cost_of_pins graph.now device.now pinned.now.slots.items group) choice.now.places.items) }
{
    for slot in &choice.places {
        let spot = Spot { group, slot: *slot };
        table.push(beside_pins(graph, device, pinned, spot))?;
    }
    Ok(())
}

fn push_joint(table: &mut Vec<u64>, widths: &[u64], choice: &Choice) -> Result<(), AllocError>
    requires { (j : ℕ) → j < length choice.now.items.items → slice_index choice.now.items.items j < length widths.now }
    ensures { OnOk result (table.new.items ≡ table.old.items ++ map (slice_index widths.now) choice.now.items.items) }
{
    for item in &choice.items {
        table.push(widths[*item as usize])?;
    }
    Ok(())
}

fn push_distances(
    table: &mut Vec<u64>,
    device: &Device,
    slot: u32,
    choice: &Choice,
) -> Result<(), AllocError>
    requires cols { 0 < device.now.cols }
    requires few { device.now.cols ≤ 4 }
    requires slot { slot < 32 }
    requires places { (y : ℕ) → y < length choice.now.places.items → slice_index choice.now.places.items y < 32 }
    ensures { OnOk result (table.new.items ≡ table.old.items ++ map (distance device.now slot) choice.now.places.items) }
{
    for place in &choice.places {
        table.push(distance_of(device, slot, *place) as u64)?;
    }
    Ok(())
}

fn alone_table(
    alloc: Global,
    graph: &Graph,
    device: &Device,
    pinned: &Placing,
    choice: &Choice,
) -> Result<Vec<u64>, AllocError>
    requires device { IsGrid graph.now device.now }
    requires pinned { AreFixed graph.now device.now pinned.now }
    requires places { (y : ℕ) → y < length choice.now.places.items → slice_index choice.now.places.items y < 32 }
    ensures { IfOk result (λ table. table.items ≡ table_of (cost_of_pins graph.now device.now pinned.now.slots.items) choice.now.items.items choice.now.places.items) }
{
    let mut table = Vec::new(alloc);
    for group in &choice.items {
        push_alone(&mut table, graph, device, pinned, *group as usize, choice)?;
    }
    Ok(table)
}

fn joint_table(alloc: Global, graph: &Graph, choice: &Choice) -> Result<Vec<u64>, AllocError>
    requires { (j : ℕ) → j < length choice.now.items.items → slice_index choice.now.items.items j < graph.now.groups }
    ensures { IfOk result (λ table. table.items ≡ table_of (between graph.now) choice.now.items.items choice.now.items.items) }
{
    let mut table = Vec::new(alloc);
    for group in &choice.items {
        let widths = widths_of(alloc, graph, *group as usize)?;
        push_joint(&mut table, &widths, choice)?;
    }
    Ok(table)
}

fn distance_table(alloc: Global, device: &Device, choice: &Choice) -> Result<Vec<u64>, AllocError>
    requires cols { 0 < device.now.cols }
    requires few { device.now.cols ≤ 4 }
    requires places { (y : ℕ) → y < length choice.now.places.items → slice_index choice.now.places.items y < 32 }
    ensures { IfOk result (λ table. table.items ≡ table_of (distance device.now) choice.now.places.items choice.now.places.items) }
{
    let mut table = Vec::new(alloc);
    for slot in &choice.places {
        push_distances(&mut table, device, *slot, choice)?;
    }
    Ok(table)
}

/// Fills the tables of a choice, beside pinned groups in their slots.
pub(crate) fn tables_of(
    alloc: Global,
    graph: &Graph,
    device: &Device,
    needs: &[Use],
    pinned: &Placing,
    choice: &Choice,
    regions: &Regions,
) -> Result<Tables, AllocError>
    requires device { IsGrid graph.now device.now }
    requires needs { AreNeeds graph.now device.now needs.now }
    requires placed { ArePlaced device.now needs.now false (length needs.now) pinned.now }
    requires choice { AreChoices graph.now device.now choice.now }
    requires regions { AreRegions graph.now device.now regions.now }
    ensures { IfOk result (AreTablesOf graph.now device.now needs.now pinned.now choice.now regions.now) }
{
    Ok(Tables {
        needs: item_needs(alloc, needs, choice)?,
        room: place_rooms(alloc, device, pinned, choice)?,
        alone: alone_table(alloc, graph, device, pinned, choice)?,
        joint: joint_table(alloc, graph, choice)?,
        distance: distance_table(alloc, device, choice)?,
        homes: chosen(alloc, &regions.homes, &choice.items)?,
        regions: chosen(alloc, &regions.slots, &choice.places)?,
    })
}
