// The test of a cycle of moves: each is possible, they lead back to their group, no stream is gone back twice, and they gain.
ghost use Rattle.std.specs.Prelude.{◌≡◌, ◌<◌, ◌≤◌, ◌^◌, IsTrue, length, IfOk};
ghost use Rattle.task_graph.specs.Arcs.{streams, total};
ghost use Rattle.latency_balance.specs.Moves.{AreLatencies, IsCycle, IsMove, gain_of, loss_of, move_at};
ghost use Rattle.latency_balance.specs.Paths.{AreInside, IsOnce, LeadsBack};

use crate::moves::Move;
use crate::search::{end_group, gain_along, loss_along, start_group};
use std::alloc::{AllocError, Global};
use task_graph::Graph;

/// Whether a move is possible.
fn is_move(graph: &Graph, flow: &[u64], by: Move) -> bool
    requires { length flow.now ≡ streams graph.now }
    ensures { IsTrue result → IsMove graph.now flow.now by }
{
    if by.stream >= graph.streams() || graph.tail(by.stream) == graph.head(by.stream) {
        return false;
    }
    !by.back || flow[by.stream] > 0
}

/// Whether each move is possible and they lead from a group back to it, the last one first.
fn leads_back(graph: &Graph, flow: &[u64], base: usize, moves: &[Move]) -> bool
    requires { length flow.now ≡ streams graph.now }
    ensures { IsTrue result → LeadsBack graph.now flow.now base moves.now }
{
    let mut at = base;
    for one in moves {
        if !is_move(graph, flow, *one) {
            return false;
        }
        if end_group(graph, *one) != at {
            return false;
        }
        at = start_group(graph, *one);
    }
    at == base
}

/// Whether no stream is gone back twice.
fn is_once(alloc: Global, graph: &Graph, moves: &[Move]) -> Result<bool, AllocError>
    requires { AreInside graph.now moves.now }
    ensures { IfOk result (λ r. IsTrue r → IsOnce moves.now) }
{
    let mut seen = vec![in alloc; false; graph.streams()]?;
    for one in moves {
        if one.back {
            if seen[one.stream] {
                return Ok(false);
            }
            seen[one.stream] = true;
        }
    }
    Ok(true)
}

/// Whether moves gain more than they lose.
fn gains(graph: &Graph, lat: &[u32], moves: &[Move]) -> bool
    requires lats { AreLatencies graph.now lat.now }
    requires inside { AreInside graph.now moves.now }
    requires short { length moves.now ≤ 2 ^ 30 }
    ensures { IsTrue result → total (length moves.now) (λ j. loss_of lat.now (move_at moves.now j)) < total (length moves.now) (λ j. gain_of lat.now (move_at moves.now j)) }
{
    let mut gain: u64 = 0;
    let mut loss: u64 = 0;
    for one in moves {
        gain += gain_along(lat, *one) as u64;
        loss += loss_along(lat, *one) as u64;
    }
    loss < gain
}

/// Whether moves are a cycle, the last one first, that gains more than it loses.
pub fn is_cycle(
    alloc: Global,
    graph: &Graph,
    lat: &[u32],
    flow: &[u64],
    base: usize,
    moves: &[Move],
) -> Result<bool, AllocError>
    requires lats { AreLatencies graph.now lat.now }
    requires flow { length flow.now ≡ streams graph.now }
    requires short { length moves.now ≤ 2 ^ 30 }
    ensures { IfOk result (λ r. IsTrue r → IsCycle graph.now lat.now flow.now base moves.now) }
{
    if !leads_back(graph, flow, base, moves) {
        return Ok(false);
    }
    if !gains(graph, lat, moves) {
        return Ok(false);
    }
    let once = is_once(alloc, graph, moves)?;
    Ok(once)
}
