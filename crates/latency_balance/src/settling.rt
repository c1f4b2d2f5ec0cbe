// A flow of greater weight: the flow of each stream is sent round by the cheapest path from its tail to its head while that gains.
ghost use Rattle.std.specs.Prelude.{◌≡◌, ◌<◌, ◌≤◌, length, IfOk, IfSome};
ghost use Rattle.task_graph.specs.Arcs.{streams};
ghost use Rattle.latency_balance.specs.Moves.{AreLatencies, IsFlow, IsCycle};
ghost use Rattle.latency_balance.specs.Paths.{AreExits};

use crate::cycle_test::is_cycle;
use crate::exits::{Exits, exits_of};
use crate::paths::{moves_around, paths_from};
use crate::sending::{amount_along, send};
use crate::walking::Cycle;
use std::alloc::{AllocError, Global};
use task_graph::Graph;

/// Raises the head of each stream that is too low for the stream's latency, and says whether there was one.
fn raise_heads(graph: &Graph, lat: &[u32], heights: &mut [u64]) -> bool
    requires lats { length lat.now ≡ streams graph.now }
    requires heights { length heights.old ≡ graph.now.groups }
{
    let mut raised = false;
    for stream in 0..graph.streams() {
        let head = graph.head(stream);
        let height = heights[graph.tail(stream)].saturating_add(lat[stream] as u64);
        if heights[head] < height {
            heights[head] = height;
            raised = true;
        }
    }
    raised
}

/// Heights of the groups that leave each stream its latency.
fn heights_along(alloc: Global, graph: &Graph, lat: &[u32]) -> Result<Vec<u64>, AllocError>
    requires { length lat.now ≡ streams graph.now }
    ensures { IfOk result (λ heights. length heights.items ≡ graph.now.groups) }
{
    let mut heights = vec![in alloc; 0; graph.groups as usize]?;
    'rounds: for _ in 0..graph.groups {
        if !raise_heads(graph, lat, &mut heights) {
            return Ok(heights);
        }
    }
    Ok(heights)
}

/// Raises each group by what its path costs less than another one.
fn raise_cheaper(heights: &mut [u64], cost: &[u64], most: u64)
    requires { length heights.old ≤ length cost.now }
{
    for group in 0..heights.len() {
        heights[group] = heights[group].saturating_add(most.saturating_sub(cost[group]));
    }
}

/// A cycle that goes back along a stream, by the cheapest path from its tail to its head, and gains. The heights are raised so
/// far that no move of that path costs anything; with no such cycle, the stream has no more than its latency then.
fn cycle_against(
    alloc: Global,
    graph: &Graph,
    lat: &[u32],
    flow: &[u64],
    heights: &mut [u64],
    exits: &Exits,
    stream: usize,
) -> Result<Option<Cycle>, AllocError>
    requires lats { AreLatencies graph.now lat.now }
    requires flow { length flow.now ≡ streams graph.now }
    requires heights { length heights.old ≡ graph.now.groups }
    requires exits { AreExits graph.now exits.now }
    requires stream { stream < streams graph.now }
    ensures { IfOk result (λ o. IfSome o (λ cycle. IsCycle graph.now lat.now flow.now cycle.base cycle.moves.items)) }
{
    let base = graph.tail(stream);
    let end = graph.head(stream);
    let low = heights[base].saturating_add(lat[stream] as u64);
    let slack = heights[end].saturating_sub(low);
    if flow[stream] == 0 || slack == 0 {
        return Ok(None);
    }
    let paths = paths_from(alloc, graph, lat, flow, heights, exits, stream, slack)?;
    let cost = paths.cost[end];
    raise_cheaper(heights, &paths.cost, cost);
    if cost == slack {
        return Ok(None);
    }
    let moves = moves_around(alloc, graph, &paths, stream)?;
    if !is_cycle(alloc, graph, lat, flow, base, &moves)? {
        return Ok(None);
    }
    Ok(Some(Cycle { base, moves }))
}

/// The flow after that of one stream was sent round by other ways, as far as there are such that gain.
fn settle_stream(
    alloc: Global,
    graph: &Graph,
    lat: &[u32],
    mut flow: Vec<u64>,
    heights: &mut [u64],
    exits: &Exits,
    stream: usize,
) -> Result<Vec<u64>, AllocError>
    requires lats { AreLatencies graph.now lat.now }
    requires carried { IsFlow graph.now flow.items }
    requires heights { length heights.old ≡ graph.now.groups }
    requires exits { AreExits graph.now exits.now }
    requires stream { stream < streams graph.now }
    ensures { IfOk result (λ flow. IsFlow graph.now flow.items) }
{
    'cycles: loop {
        match cycle_against(alloc, graph, lat, &flow, heights, exits, stream)? {
            None => return Ok(flow),
            Some(cycle) => {
                let amount = amount_along(&flow, &cycle.moves);
                send(graph, lat, &mut flow, cycle.base, &cycle.moves, amount);
            }
        }
    }
}

/// The flow after each stream was settled, with the heights kept from one to the next.
fn settle_streams(
    alloc: Global,
    graph: &Graph,
    lat: &[u32],
    mut flow: Vec<u64>,
    heights: &mut [u64],
) -> Result<Vec<u64>, AllocError>
    requires lats { AreLatencies graph.now lat.now }
    requires carried { IsFlow graph.now flow.items }
    requires heights { length heights.old ≡ graph.now.groups }
    ensures { IfOk result (λ flow. IsFlow graph.now flow.items) }
{
    let exits = exits_of(alloc, graph)?;
    for stream in 0..graph.streams() {
        flow = settle_stream(alloc, graph, lat, flow, heights, &exits, stream)?;
    }
    Ok(flow)
}

/// A flow of greater weight, of which seldom any more can be sent along a cycle that gains.
pub fn settled(
    alloc: Global,
    graph: &Graph,
    lat: &[u32],
    flow: Vec<u64>,
) -> Result<Vec<u64>, AllocError>
    requires lats { AreLatencies graph.now lat.now }
    requires carried { IsFlow graph.now flow.items }
    ensures { IfOk result (λ flow. IsFlow graph.now flow.items) }
{
    let mut heights = heights_along(alloc, graph, lat)?;
    settle_streams(alloc, graph, lat, flow, &mut heights)
}
