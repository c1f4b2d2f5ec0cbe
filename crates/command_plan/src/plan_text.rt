// The lines of a plan.
ghost use Rattle.std.specs.Prelude.{◌≡◌, ◌<◌, ℕ, List, length, IfOk};
ghost use Rattle.latency_balance.specs.Moves.{AreLatencies};
ghost use Rattle.latency_balance.specs.Result.{IsBalance};
ghost use Rattle.plan_device.specs.Devices.{IsDevice};
ghost use Rattle.plan_report.specs.Borders.{AreBorderLatencies};
ghost use Rattle.plan_report.specs.Lines.{texts};
ghost use Rattle.command_answers.specs.Meaning.{end_of};
ghost use Rattle.command_answers.specs.Outside.{written};
ghost use Rattle.command_answers.specs.Steps.{WroteWhole};
ghost use Rattle.command_plan.specs.Planned.{AreLinesOf, IsPlanText};

use command_answers::{Refusal, put_lines};
use flow_cert::{Verdict, check};
use latency_balance::{Balance, balance_streams};
use plan_device::Device;
use plan_report::{latencies, plan_lines};
use slot_plan::Plan;
use std::alloc::{AllocError, Global};
use tapa_base::OutOfMemory;
use tapa_files::Sink;
use task_graph::Graph;

// Looks at the certificate of a balance, whose check says yes.
fn confirm(graph: &Graph, border: &[u32], balance: &Balance)
    requires { IsBalance graph.now border.now balance.now }
{
    match check(graph, border, &balance.s, &balance.flow) {
        Verdict::Yes => {}
        _ => unreachable!(),
    }
}

// The lines of a plan with its border latencies, and of their balance.
fn lines_with(
    alloc: Global,
    graph: &Graph,
    device: &Device,
    plan: &Plan,
    border: &[u32],
) -> Result<Vec<Vec<u8>>, AllocError>
    requires cols { 0 < device.now.cols }
    requires slots { length plan.now.slot.items ≡ graph.now.groups }
    requires borders { AreBorderLatencies graph.now device.now plan.now.slot.items border.now }
    requires low { AreLatencies graph.now border.now }
    ensures { IfOk result (λ lines. AreLinesOf graph.now device.now plan.now (texts lines.items)) }
{
    let balance = balance_streams(alloc, graph, border)?;
    confirm(graph, border, &balance);
    let lines = plan_lines(alloc, graph, device, plan, border, &balance)?;
    Ok(lines)
}

// The lines of a plan, of its border latencies and of their balance.
fn lines_of(
    alloc: Global,
    graph: &Graph,
    device: &Device,
    plan: &Plan,
) -> Result<Vec<Vec<u8>>, OutOfMemory>
    requires device { IsDevice graph.now device.now }
    requires slots { length plan.now.slot.items ≡ graph.now.groups }
    ensures { IfOk result (λ lines. AreLinesOf graph.now device.now plan.now (texts lines.items)) }
{
    let border = latencies(alloc, graph, plan, device)?;
    let lines = lines_with(alloc, graph, device, plan, &border)?;
    Ok(lines)
}

/// Writes the lines of a plan with its border latencies and their balance.
pub fn put_plan<O: Sink>(
    alloc: Global,
    graph: &Graph,
    device: &Device,
    plan: &Plan,
    out: &mut O,
) -> Result<(), Refusal>
    requires device { IsDevice graph.now device.now }
    requires slots { length plan.now.slot.items ≡ graph.now.groups }
    ensures { WroteWhole (IsPlanText graph.now device.now plan.now) (written O.Sink out.old) (written O.Sink out.new) (end_of result) }
{
    let lines = lines_of(alloc, graph, device, plan)?;
    put_lines(out, &lines)?;
    Ok(())
}
