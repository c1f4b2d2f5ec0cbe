// The registers on a stream's wires over the borders of a device's slots.

ghost use Rattle.std.specs.Prelude.{◌≡◌, ◌<◌, ◌≤◌, ◌*◌, ℕ, length, slice_index, IfOk};
ghost use Rattle.task_graph.specs.Arcs.{streams};
ghost use Rattle.latency_balance.specs.Moves.{AreLatencies};
ghost use Rattle.plan_device.specs.Devices.{IsDevice};
ghost use Rattle.plan_report.specs.Borders.{crossed as crossed_lem, border_latency, AreBorderLatencies};

use plan_device::Device;
use slot_plan::Plan;
use std::alloc::Global;
use tapa_base::OutOfMemory;
use task_graph::Graph;

// The levels of the borders between two rows or two columns.
fn crossed(levels: &[u32], a: u32, b: u32) -> u32
    requires few { length levels.now ≤ 7 }
    requires low { (border : ℕ) → border < length levels.now → slice_index levels.now border ≤ 16 }
    ensures value { result ≡ crossed_lem levels.now a b }
    ensures small { result ≤ 16 * length levels.now }
{
    let mut sum: u32 = 0;
    for border in 0..levels.len() {
        if a.min(b) as usize <= border && border < a.max(b) as usize {
            sum += levels[border];
        }
    }
    sum
}

// The latency of a wire from one slot to another.
fn latency(device: &Device, from: u32, to: u32) -> u32
    requires cols { 0 < device.now.cols }
    requires few_rows { length device.now.levels_rows.items ≤ 7 }
    requires few_cols { length device.now.levels_cols.items ≤ 3 }
    requires low_rows { (border : ℕ) → border < length device.now.levels_rows.items → slice_index device.now.levels_rows.items border ≤ 16 }
    requires low_cols { (border : ℕ) → border < length device.now.levels_cols.items → slice_index device.now.levels_cols.items border ≤ 16 }
    ensures value { result ≡ border_latency device.now from to }
    ensures small { result ≤ 160 }
{
    let cols = device.cols;
    crossed(&device.levels_rows, from / cols, to / cols)
        + crossed(&device.levels_cols, from % cols, to % cols)
}

// The slot of a group.
fn slot_of(plan: &Plan, group: usize) -> u32
    requires { group < length plan.now.slot.items }
    ensures { result ≡ slice_index plan.now.slot.items group }
{
    plan.slot[group]
}

/// The latency of each stream in cycles: the levels of the row borders and of the column borders between the slots of its
/// two ends. It is 0 where both ends are in one slot.
pub fn latencies(
    alloc: Global,
    graph: &Graph,
    plan: &Plan,
    device: &Device,
) -> Result<Vec<u32>, OutOfMemory>
    requires device { IsDevice graph.now device.now }
    requires slots { length plan.now.slot.items ≡ graph.now.groups }
    ensures value { IfOk result (λ lat. AreBorderLatencies graph.now device.now plan.now.slot.items lat.items) }
    ensures low { IfOk result (λ lat. AreLatencies graph.now lat.items) }
{
    let mut lat = Vec::new(alloc);
    for e in 0..graph.streams() {
        let from = slot_of(plan, graph.tail(e));
        let to = slot_of(plan, graph.head(e));
        lat.push(latency(device, from, to))?;
    }
    Ok(lat)
}
