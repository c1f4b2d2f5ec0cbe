// The cheapest paths from a stream's tail to other groups (Dijkstra), and the cycle of moves by such a path and back along the stream.
ghost use Rattle.std.specs.Prelude.{◌≡◌, ◌<◌, ◌≤◌, ◌^◌, ℕ, length, slice_index, IfOk, IfSome, OnOk};
ghost use Rattle.task_graph.specs.Arcs.{streams};
ghost use Rattle.latency_balance.specs.Moves.{AreLatencies};
ghost use Rattle.latency_balance.specs.Paths.{AreExits, ArePaths};

use crate::exits::Exits;
use crate::moves::Move;
use crate::search::{end_group, gain_along, loss_along, start_group};
use std::alloc::{AllocError, Global};
use task_graph::Graph;

/// The cheapest paths from a group so far (Dijkstra). A move costs what it gains less than its ends differ in height: for each
/// group the cost of the path to it, which is the limit where none is known, and the path's last move. `reached` has the groups
/// from which the search has not gone on.
#[derive(Drop)]
pub struct Paths {
    pub limit: u64,
    pub cost: Vec<u64>,
    pub by: Vec<Move>,
    pub reached: Vec<usize>,
}

/// The path of no moves at a stream's tail.
fn no_moves(alloc: Global, graph: &Graph, stream: usize, limit: u64) -> Result<Paths, AllocError>
    requires { stream < streams graph.now }
    ensures { IfOk result (λ paths. ArePaths graph.now paths) }
{
    let groups = graph.groups as usize;
    let start = graph.tail(stream);
    let mut cost = vec![in alloc; limit; groups]?;
    let by = vec![in alloc; Move {
        stream,
        back: false
    }; groups]?;
    let mut reached = Vec::new(alloc);
    reached.push(start)?;
    cost[start] = 0;
    Ok(Paths {
        limit,
        cost,
        by,
        reached,
    })
}

/// Which of the groups that were reached costs least: the first that costs no more than a bound of them all from below.
fn cheapest(reached: &[usize], cost: &[u64], floor: u64) -> usize
    requires some { 0 < length reached.now }
    requires inside { (k : ℕ) → k < length reached.now → slice_index reached.now k < length cost.now }
    ensures { result < length reached.now }
{
    let mut best = 0;
    let mut least = u64::MAX;
    for place in 0..reached.len() {
        let found = cost[reached[place]];
        if found <= floor {
            return place;
        }
        if found < least {
            least = found;
            best = place;
        }
    }
    best
}

/// Takes out the group that costs least of those that were reached.
fn take_cheapest(graph: &Graph, paths: &mut Paths, floor: u64) -> Option<usize>
    requires { ArePaths graph.now paths.old }
    ensures paths { ArePaths graph.now paths.new }
    ensures inside { IfSome result (λ group. group < graph.now.groups) }
{
    if paths.reached.is_empty() {
        return None;
    }
    let place = cheapest(&paths.reached, &paths.cost, floor);
    Some(paths.reached.swap_remove(place))
}

/// Adds a group to those that were reached, unless a path to it is known.
fn add_reached(graph: &Graph, paths: &mut Paths, group: usize) -> Result<(), AllocError>
    requires inside { group < graph.now.groups }
    requires paths { ArePaths graph.now paths.old }
    ensures { OnOk result (ArePaths graph.now paths.new) }
{
    if paths.cost[group] < paths.limit {
        return Ok(());
    }
    paths.reached.push(group)?;
    Ok(())
}

/// Goes on by a move, if it is possible and the path is then the cheapest to where the move ends.
fn go_on(
    graph: &Graph,
    lat: &[u32],
    flow: &[u64],
    heights: &[u64],
    paths: &mut Paths,
    by: Move,
) -> Result<(), AllocError>
    requires lats { AreLatencies graph.now lat.now }
    requires flow { length flow.now ≡ streams graph.now }
    requires heights { length heights.now ≡ graph.now.groups }
    requires inside { by.stream < streams graph.now }
    requires paths { ArePaths graph.now paths.old }
    ensures { OnOk result (ArePaths graph.now paths.new) }
{
    if by.back && flow[by.stream] == 0 {
        return Ok(());
    }
    let start = start_group(graph, by);
    let end = end_group(graph, by);
    let low = heights[start].saturating_add(gain_along(lat, by) as u64);
    let high = heights[end].saturating_add(loss_along(lat, by) as u64);
    if high < low {
        return Ok(());
    }
    let cost = paths.cost[start].saturating_add(high - low);
    if cost >= paths.cost[end] {
        return Ok(());
    }
    add_reached(graph, paths, end)?;
    paths.cost[end] = cost;
    paths.by[end] = by;
    Ok(())
}

/// Goes on from a group by each move.
fn go_on_from(
    graph: &Graph,
    lat: &[u32],
    flow: &[u64],
    heights: &[u64],
    exits: &Exits,
    paths: &mut Paths,
    group: usize,
) -> Result<(), AllocError>
    requires lats { AreLatencies graph.now lat.now }
    requires flow { length flow.now ≡ streams graph.now }
    requires heights { length heights.now ≡ graph.now.groups }
    requires exits { AreExits graph.now exits.now }
    requires paths { ArePaths graph.now paths.old }
    requires inside { group < graph.now.groups }
    ensures { OnOk result (ArePaths graph.now paths.new) }
{
    for place in exits.first[group]..exits.first[group + 1] {
        go_on(graph, lat, flow, heights, paths, exits.moves[place])?;
    }
    Ok(())
}

/// The cheapest paths from a stream's tail, as far as they cost less than the limit and than the path to its head.
pub fn paths_from(
    alloc: Global,
    graph: &Graph,
    lat: &[u32],
    flow: &[u64],
    heights: &[u64],
    exits: &Exits,
    stream: usize,
    limit: u64,
) -> Result<Paths, AllocError>
    requires lats { AreLatencies graph.now lat.now }
    requires flow { length flow.now ≡ streams graph.now }
    requires heights { length heights.now ≡ graph.now.groups }
    requires exits { AreExits graph.now exits.now }
    requires stream { stream < streams graph.now }
    ensures { IfOk result (λ paths. ArePaths graph.now paths) }
{
    let mut paths = no_moves(alloc, graph, stream, limit)?;
    let end = graph.head(stream);
    let mut floor = 0;
    'groups: for _ in 0..graph.groups {
        match take_cheapest(graph, &mut paths, floor) {
            None => return Ok(paths),
            Some(group) => {
                floor = paths.cost[group];
                if paths.cost[end] <= floor {
                    return Ok(paths);
                }
                go_on_from(graph, lat, flow, heights, exits, &mut paths, group)?;
            }
        }
    }
    Ok(paths)
}

/// A stream's move back, and before it the moves of the path from the stream's tail to its head: the last one first.
pub fn moves_around(
    alloc: Global,
    graph: &Graph,
    paths: &Paths,
    stream: usize,
) -> Result<Vec<Move>, AllocError>
    requires stream { stream < streams graph.now }
    requires paths { ArePaths graph.now paths.now }
    ensures { IfOk result (λ moves. length moves.items ≤ 2 ^ 30) }
{
    let groups = graph.groups as usize;
    let start = graph.tail(stream);
    let mut at = graph.head(stream);
    let mut moves = Vec::new(alloc);
    moves.push(Move { stream, back: true })?;
    'path: while at != start && moves.len() <= groups {
        let by = paths.by[at];
        moves.push(by)?;
        at = start_group(graph, by);
    }
    Ok(moves)
}
