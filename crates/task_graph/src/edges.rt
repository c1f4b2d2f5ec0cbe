//! The streams of a program as edges.
ghost use Rattle.std.specs.Prelude.{◌≡◌, ◌+◌, IfOk, map};
ghost use Rattle.tapa_base.specs.Kinds.{bits_of};
ghost use Rattle.task_graph.specs.Edges.{edge_of};
ghost use Rattle.task_graph.specs.declared.Edge.{Edge};

use crate::Edge;
use std::alloc::{AllocError, Global};
use tapa_base::Kind;
use tapa_syntax::Stream;

fn edge(alloc: Global, stream: &Stream) -> Result<Edge, AllocError>
    ensures { IfOk result (λ e. e ≡ edge_of stream.now) }
{
    let label = stream.label.copy(alloc)?;
    Ok(Edge {
        from: stream.producer,
        to: stream.consumer,
        width: stream.kind.token_bits(),
        label,
    })
}

pub(crate) fn edges_of(alloc: Global, streams: &[Stream]) -> Result<Vec<Edge>, AllocError>
    ensures { IfOk result (λ edges. edges.items ≡ map edge_of streams.now) }
{
    let mut edges = Vec::new(alloc);
    for stream in streams {
        edges.push(edge(alloc, stream)?)?;
    }
    Ok(edges)
}

/// The two ends of each edge.
pub(crate) fn ends_of(alloc: Global, edges: &[Edge]) -> Result<Vec<(usize, usize)>, AllocError>
    ensures { IfOk result (λ ends. ends.items ≡ map (λ (e : Edge). (e.from, e.to)) edges.now) }
{
    let mut ends = Vec::new(alloc);
    for edge in edges {
        ends.push((edge.from as usize, edge.to as usize))?;
    }
    Ok(ends)
}
