//! Which instances reach which along streams.
ghost use Rattle.std.specs.Prelude.{◌≡◌, ◌↔◌, ◌<◌, ℕ, true, IfOk, length, [], ◌∷◌};
ghost use Rattle.number_graph.specs.Graphs.{IsReached};
ghost use Rattle.task_graph.specs.Edges.{EndBelow};
ghost use Rattle.task_graph.specs.Reach.{mark, AreTransitive, MarkReached};

use crate::Edge;
use crate::edges::ends_of;
use number_graph::{Graph, reach_from};
use std::alloc::{AllocError, Global};

/// For each node a row of marks at the nodes that it reaches by one or more steps.
fn rows_of(alloc: Global, graph: &Graph) -> Result<Vec<Vec<bool>>, AllocError>
    ensures len { IfOk result (λ rows. length rows.items ≡ length graph.now) }
    ensures marks { IfOk result (λ rows. (i k : ℕ) → i < length graph.now → (mark rows.items i k ≡ true) ↔ IsReached graph.now (i ∷ []) k) }
{
    let mut rows = Vec::new(alloc);
    for node in 0..graph.len() {
        let row = reach_from(alloc, graph, &[node])?;
        rows.push(row)?;
    }
    Ok(rows)
}

/// For each of `count` instances a row of marks at the instances that it reaches along streams.
pub(crate) fn reach_rows(
    alloc: Global,
    count: usize,
    edges: &[Edge],
) -> Result<Vec<Vec<bool>>, AllocError>
    requires { EndBelow count edges.now }
    ensures len { IfOk result (λ rows. length rows.items ≡ count) }
    ensures reached { IfOk result (λ rows. MarkReached rows.items edges.now) }
    ensures transitive { IfOk result (λ rows. AreTransitive rows.items) }
{
    let ends = ends_of(alloc, edges)?;
    let graph = Graph::of(alloc, count, &ends)?;
    let rows = rows_of(alloc, &graph)?;
    Ok(rows)
}
