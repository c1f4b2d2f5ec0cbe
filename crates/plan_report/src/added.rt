// The latency that a plan adds to the streams.

ghost use Rattle.std.specs.Prelude.{◌≡◌, ◌<◌, ◌≤◌, ◌+◌, ℕ, length, slice_index, IfOk};
ghost use Rattle.plan_device.specs.Devices.{IsDevice};
ghost use Rattle.plan_report.specs.Added.{AreAdded};

use crate::borders::latencies;
use latency_balance::balance_streams;
use plan_device::Device;
use slot_plan::Plan;
use std::alloc::{AllocError, Global};
use tapa_base::OutOfMemory;
use task_graph::Graph;

// The sums of two lists of latencies.
fn sums_of(alloc: Global, border: &[u32], balance: &[u32]) -> Result<Vec<u32>, AllocError>
    requires same { length balance.now ≡ length border.now }
    requires low { (e : ℕ) → slice_index border.now e + slice_index balance.now e ≤ 500000 }
    ensures long { IfOk result (λ sums. length sums.items ≡ length border.now) }
    ensures value { IfOk result (λ sums. (e : ℕ) → e < length border.now → slice_index sums.items e ≡ slice_index border.now e + slice_index balance.now e) }
    ensures low { IfOk result (λ sums. (e : ℕ) → slice_index sums.items e ≤ 500000) }
{
    let mut sums = Vec::new(alloc);
    for e in 0..border.len() {
        sums.push(border[e] + balance[e])?;
    }
    Ok(sums)
}

/// The latency that is added to each stream in cycles: that of its borders and, where the streams are balanced, that of a
/// balance which gives all paths between two tasks one latency and takes the fewest registers of all that do so.
pub fn added_latencies(
    alloc: Global,
    graph: &Graph,
    plan: &Plan,
    device: &Device,
    balanced: bool,
) -> Result<Vec<u32>, OutOfMemory>
    requires device { IsDevice graph.now device.now }
    requires slots { length plan.now.slot.items ≡ graph.now.groups }
    ensures added { IfOk result (λ added. AreAdded graph.now device.now plan.now.slot.items balanced added.items) }
    ensures low { IfOk result (λ added. (e : ℕ) → slice_index added.items e ≤ 500000) }
{
    let border = latencies(alloc, graph, plan, device)?;
    if !balanced {
        return Ok(border);
    }
    let balance = balance_streams(alloc, graph, &border)?;
    let added = sums_of(alloc, &border, &balance.bal)?;
    Ok(added)
}
