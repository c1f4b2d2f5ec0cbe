// All lines of a plan.
ghost use Rattle.std.specs.Prelude.{◌≡◌, ◌++◌, ◌<◌, ◌≤◌, length, IfOk, OnOk};
ghost use Rattle.task_graph.specs.Arcs.{streams};
ghost use Rattle.latency_balance.specs.Result.{IsBalance};
ghost use Rattle.plan_report.specs.Lines.{texts, lines_below, slot_line, task_line, stream_line, sum_lines, plan_lines as lines_of_plan};

use crate::lines::{slot_text, stream_text, sum_text, task_text};
use flow_cert::{flow_weight, registers, width_weight};
use latency_balance::Balance;
use plan_device::Device;
use slot_plan::Plan;
use std::alloc::{AllocError, Global};
use task_graph::{Graph, Use};

fn add_slots(
    alloc: Global,
    lines: &mut Vec<Vec<u8>>,
    cols: u32,
    used: &[Use],
) -> Result<(), AllocError>
    requires { 0 < cols }
    ensures { OnOk result (texts lines.new.items ≡ texts lines.old.items ++ lines_below (length used.now) (slot_line cols used.now)) }
{
    for slot in 0..used.len() {
        let line = slot_text(alloc, cols, used, slot)?;
        lines.push(line)?;
    }
    Ok(())
}

fn add_tasks(
    alloc: Global,
    lines: &mut Vec<Vec<u8>>,
    graph: &Graph,
    cols: u32,
    slots: &[u32],
) -> Result<(), AllocError>
    requires cols { 0 < cols }
    requires slots { length slots.now ≡ graph.now.groups }
    ensures { OnOk result (texts lines.new.items ≡ texts lines.old.items ++ lines_below (length graph.now.group.items) (task_line graph.now cols slots.now)) }
{
    for instance in 0..graph.group.len() {
        let line = task_text(alloc, graph, cols, slots, instance)?;
        lines.push(line)?;
    }
    Ok(())
}

fn add_streams(
    alloc: Global,
    lines: &mut Vec<Vec<u8>>,
    graph: &Graph,
    latencies: &[u32],
    balance: &Balance,
) -> Result<(), AllocError>
    requires { IsBalance graph.now latencies.now balance.now }
    ensures { OnOk result (texts lines.new.items ≡ texts lines.old.items ++ lines_below (streams graph.now) (stream_line graph.now latencies.now balance.now)) }
{
    for stream in 0..graph.streams() {
        let line = stream_text(alloc, graph, latencies, balance, stream)?;
        lines.push(line)?;
    }
    Ok(())
}

fn add_sums(
    alloc: Global,
    lines: &mut Vec<Vec<u8>>,
    graph: &Graph,
    plan: &Plan,
    latencies: &[u32],
    balance: &Balance,
) -> Result<(), AllocError>
    requires { IsBalance graph.now latencies.now balance.now }
    ensures { OnOk result (texts lines.new.items ≡ texts lines.old.items ++ sum_lines graph.now plan.now latencies.now balance.now) }
{
    let flow = flow_weight(graph, latencies, &balance.flow);
    let width = width_weight(graph, latencies);
    let spent = registers(graph, latencies, &balance.s);
    let cost = sum_text(alloc, "cost", plan.cost)?;
    let primal = sum_text(alloc, "registers", spent)?;
    let dual = sum_text(alloc, "dual", flow - width)?;
    lines.push(cost)?;
    lines.push(primal)?;
    lines.push(dual)?;
    Ok(())
}

/// The lines of a plan, its border latencies and its balance, each with its line feed.
pub fn plan_lines(
    alloc: Global,
    graph: &Graph,
    device: &Device,
    plan: &Plan,
    latencies: &[u32],
    balance: &Balance,
) -> Result<Vec<Vec<u8>>, AllocError>
    requires cols { 0 < device.now.cols }
    requires slots { length plan.now.slot.items ≡ graph.now.groups }
    requires balance { IsBalance graph.now latencies.now balance.now }
    ensures { IfOk result (λ lines. texts lines.items ≡ lines_of_plan graph.now device.now plan.now latencies.now balance.now) }
{
    let mut lines = Vec::new(alloc);
    add_slots(alloc, &mut lines, device.cols, &plan.used)?;
    add_tasks(alloc, &mut lines, graph, device.cols, &plan.slot)?;
    add_streams(alloc, &mut lines, graph, latencies, balance)?;
    add_sums(alloc, &mut lines, graph, plan, latencies, balance)?;
    Ok(lines)
}
