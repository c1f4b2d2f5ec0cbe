// The moves of a graph by the group that they begin at, along its streams and back.
ghost use Rattle.std.specs.Prelude.{◌<◌, ◌≤◌, length, IfOk, OnOk};
ghost use Rattle.task_graph.specs.Arcs.{streams};
ghost use Rattle.latency_balance.specs.Paths.{AreInside, AreExits};

use crate::moves::Move;
use std::alloc::{AllocError, Global};
use task_graph::Graph;

/// The moves of a graph, by the group where they begin: those of group g are at the indices from `first[g]` to before `first[g + 1]`.
#[derive(Drop)]
pub struct Exits {
    pub moves: Vec<Move>,
    pub first: Vec<usize>,
}

/// Adds the move along a stream, or back, that begins at a group.
fn add_exit(
    graph: &Graph,
    moves: &mut Vec<Move>,
    stream: usize,
    group: usize,
) -> Result<(), AllocError>
    requires stream { stream < streams graph.now }
    requires inside { AreInside graph.now moves.old.items }
    ensures inside { OnOk result (AreInside graph.now moves.new.items) }
    ensures more { OnOk result (length moves.old.items ≤ length moves.new.items) }
{
    let tail = graph.tail(stream);
    let head = graph.head(stream);
    if tail == head || (tail != group && head != group) {
        return Ok(());
    }
    moves.push(Move {
        stream,
        back: tail != group,
    })?;
    Ok(())
}

/// Adds the moves that begin at a group.
fn add_exits(graph: &Graph, moves: &mut Vec<Move>, group: usize) -> Result<(), AllocError>
    requires { AreInside graph.now moves.old.items }
    ensures inside { OnOk result (AreInside graph.now moves.new.items) }
    ensures more { OnOk result (length moves.old.items ≤ length moves.new.items) }
{
    for stream in 0..graph.streams() {
        add_exit(graph, moves, stream, group)?;
    }
    Ok(())
}

/// The moves of a graph by groups.
pub fn exits_of(alloc: Global, graph: &Graph) -> Result<Exits, AllocError>
    ensures { IfOk result (λ exits. AreExits graph.now exits) }
{
    let mut moves = Vec::new(alloc);
    let mut first = Vec::new(alloc);
    for group in 0..graph.groups as usize {
        first.push(moves.len())?;
        add_exits(graph, &mut moves, group)?;
    }
    first.push(moves.len())?;
    Ok(Exits { moves, first })
}
