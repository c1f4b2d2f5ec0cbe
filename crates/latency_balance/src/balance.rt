// Balances the latencies of a graph's streams with the fewest registers: cycles of each group, latency added to each stream, and a flow.
ghost use Rattle.std.specs.Prelude.{◌≡◌, ◌<◌, ◌≤◌, ◌+◌, ◌-◌, ◌*◌, ◌^◌, ℕ, slice_index, length, IfOk};
ghost use Rattle.task_graph.specs.Arcs.{streams};
ghost use Rattle.flow_cert.specs.Verdicts.{balance_of};
ghost use Rattle.latency_balance.specs.Moves.{AreLatencies, IsFlow};
ghost use Rattle.latency_balance.specs.Result.{IsBalance};

use crate::search::{Found, search_gain};
use crate::sending::{amount_along, send};
use crate::settling::settled;
use std::alloc::{AllocError, Global};
use task_graph::Graph;

/// One number per group in cycles, and for each stream the latency in cycles that it is given beside its own, and its flow.
#[derive(Drop)]
pub struct Balance {
    pub s: Vec<u32>,
    pub bal: Vec<u32>,
    pub flow: Vec<u64>,
}

/// The widths of the streams that are not inner.
fn first_flow(alloc: Global, graph: &Graph) -> Result<Vec<u64>, AllocError>
    ensures { IfOk result (λ flow. IsFlow graph.now flow.items) }
{
    let mut flow = Vec::new(alloc);
    for e in 0..graph.streams() {
        let width = if graph.tail(e) == graph.head(e) {
            0
        } else {
            graph.width(e) as u64
        };
        flow.push(width)?;
    }
    Ok(flow)
}

/// What the numbers of the groups leave for each stream.
fn balance_from(
    alloc: Global,
    graph: &Graph,
    lat: &[u32],
    s: &[u32],
) -> Result<Vec<u32>, AllocError>
    requires lats { length lat.now ≡ streams graph.now }
    requires times { length s.now ≡ graph.now.groups }
    ensures long { IfOk result (λ bal. length bal.items ≡ streams graph.now) }
    ensures value { IfOk result (λ bal. (e : ℕ) → e < streams graph.now → slice_index bal.items e ≡ balance_of graph.now lat.now s.now e) }
{
    let mut bal = Vec::new(alloc);
    for e in 0..graph.streams() {
        bal.push(
            s[graph.head(e)]
                .saturating_sub(s[graph.tail(e)])
                .saturating_sub(lat[e]),
        )?;
    }
    Ok(bal)
}

/// An even balance of the streams that takes the fewest registers, with a flow that shows it. `lat` has the latency of each
/// stream in cycles.
pub fn balance_streams(alloc: Global, graph: &Graph, lat: &[u32]) -> Result<Balance, AllocError>
    requires { AreLatencies graph.now lat.now }
    ensures { IfOk result (λ b. IsBalance graph.now lat.now b) }
{
    let widths = first_flow(alloc, graph)?;
    let mut flow = settled(alloc, graph, lat, widths)?;
    'cycles: loop {
        match search_gain(alloc, graph, lat, &flow)? {
            Found::Gain(cycle) => {
                let amount = amount_along(&flow, &cycle.moves);
                send(graph, lat, &mut flow, cycle.base, &cycle.moves, amount);
            }
            Found::Heights(s) => {
                let bal = balance_from(alloc, graph, lat, &s)?;
                return Ok(Balance { s, bal, flow });
            }
        }
    }
}
