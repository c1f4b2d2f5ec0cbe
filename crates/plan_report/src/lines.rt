// One line of a plan.
ghost use Rattle.std.specs.Prelude.{◌≡◌, ◌++◌, ◌<◌, length, slice_index, IfOk};
ghost use Rattle.task_graph.specs.Arcs.{streams};
ghost use Rattle.flow_cert.specs.Verdicts.{balance_of};
ghost use Rattle.plan_report.specs.Lines.{use_line, slot_line, task_line, stream_line, sum_line};

use latency_balance::Balance;
use std::alloc::{AllocError, Global};
use task_graph::{Graph, Use};

// What the groups of a slot use, and its row and column.
fn use_text(alloc: Global, row: usize, col: usize, amounts: Use) -> Result<Vec<u8>, AllocError>
    ensures { IfOk result (λ line. line.items ≡ use_line row col amounts) }
{
    let Use {
        lut,
        ff,
        bram,
        dsp,
        uram,
    } = amounts;
    let place = format!(in alloc; "slot {row} {col}: ")?;
    let logic = format!(in alloc; "{lut} {ff} ")?;
    let blocks = format!(in alloc; "{bram} {dsp} {uram}\n")?;
    labelled(alloc, place.as_bytes(), logic.as_bytes(), blocks.as_bytes())
}

pub(crate) fn slot_text(
    alloc: Global,
    cols: u32,
    used: &[Use],
    slot: usize,
) -> Result<Vec<u8>, AllocError>
    requires cols { 0 < cols }
    requires inside { slot < length used.now }
    ensures { IfOk result (λ line. line.items ≡ slot_line cols used.now slot) }
{
    let row = slot / cols as usize;
    let col = slot % cols as usize;
    use_text(alloc, row, col, used[slot])
}

// A word and a label, and what follows.
fn labelled(alloc: Global, word: &[u8], label: &[u8], rest: &[u8]) -> Result<Vec<u8>, AllocError>
    ensures { IfOk result (λ line. line.items ≡ word.now ++ (label.now ++ rest.now)) }
{
    let mut line = Vec::from_slice(alloc, word)?;
    line.extend_from_slice(label)?;
    line.extend_from_slice(rest)?;
    Ok(line)
}

pub(crate) fn task_text(
    alloc: Global,
    graph: &Graph,
    cols: u32,
    slots: &[u32],
    instance: usize,
) -> Result<Vec<u8>, AllocError>
    requires cols { 0 < cols }
    requires inside { instance < length graph.now.group.items }
    requires slots { length slots.now ≡ graph.now.groups }
    ensures { IfOk result (λ line. line.items ≡ task_line graph.now cols slots.now instance) }
{
    let slot = slots[graph.group[instance] as usize];
    let row = slot / cols;
    let col = slot % cols;
    let rest = format!(in alloc; ": {row} {col}\n")?;
    let label = graph.labels[instance].bytes();
    labelled(alloc, b"task ", label, rest.as_bytes())
}

pub(crate) fn stream_text(
    alloc: Global,
    graph: &Graph,
    latencies: &[u32],
    balance: &Balance,
    stream: usize,
) -> Result<Vec<u8>, AllocError>
    requires inside { stream < streams graph.now }
    requires latencies { length latencies.now ≡ streams graph.now }
    requires balances { stream < length balance.now.bal.items }
    requires balance { slice_index balance.now.bal.items stream ≡ balance_of graph.now latencies.now balance.now.s.items stream }
    requires flows { length balance.now.flow.items ≡ streams graph.now }
    ensures { IfOk result (λ line. line.items ≡ stream_line graph.now latencies.now balance.now stream) }
{
    let width = graph.width(stream);
    let latency = latencies[stream];
    let registers = balance.bal[stream];
    let flow = balance.flow[stream];
    let rest = format!(in alloc;
        ": width {width} latency {latency} balance {registers} flow {flow}\n"
    )?;
    let label = graph.edges[stream].label.bytes();
    labelled(alloc, b"stream ", label, rest.as_bytes())
}

pub(crate) fn sum_text(alloc: Global, word: &str, sum: u64) -> Result<Vec<u8>, AllocError>
    ensures { IfOk result (λ line. line.items ≡ sum_line word.now sum) }
{
    Ok(format!(in alloc; "{word} {sum}\n")?.into_bytes())
}
