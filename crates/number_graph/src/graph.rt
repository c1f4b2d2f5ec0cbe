// Graphs of numbers.

ghost use Rattle.std.specs.Prelude.{◌≡◌, ◌≢◌, ◌<◌, ◌++◌, ◌∷◌, [], ℕ, List, length, get_or, ◌↔◌, IfOk, OnOk};
ghost use Rattle.tapa_base.specs.Lists.{Has};
ghost use Rattle.number_graph.specs.Graphs.{Steps, AreNodes, targets_of};

use std::alloc::{AllocError, Global};
use std::marker::Model;

/// A graph of the numbers below a count. Each node has its targets, the nodes that it depends on.
#[derive(Drop)]
pub struct Graph {
    rows: Vec<Vec<usize>>,
}

impl Model for Graph {
    ghost use Rattle.number_graph.specs.Graphs.{Adjacency, AreNodes, rows_of};

    ghost Value = { Adjacency };

    ghost view = { λ g. rows_of g.rows.items };

    ghost invariant = { λ g. AreNodes (rows_of g.rows.items) };
}

fn push_target(rows: &mut Vec<Vec<usize>>, from: usize, to: usize) -> Result<(), AllocError>
    requires { from < length rows.old.items }
    ensures len { length rows.new.items ≡ length rows.old.items }
    ensures at { OnOk result (targets_of rows.new.items from ≡ targets_of rows.old.items from ++ to ∷ []) }
    ensures others { (i : ℕ) → i ≢ from → targets_of rows.new.items i ≡ targets_of rows.old.items i }
{
    rows[from].push(to)?;
    Ok(())
}

fn empty_rows(alloc: Global, count: usize) -> Result<Vec<Vec<usize>>, AllocError>
    ensures len { IfOk result (λ rows. length rows.items ≡ count) }
    ensures empty { IfOk result (λ rows. (j : ℕ) → targets_of rows.items j ≡ []) }
{
    let mut rows = Vec::new(alloc);
    for _ in 0..count {
        rows.push(Vec::new(alloc))?;
    }
    Ok(rows)
}

fn rows_with(
    alloc: Global,
    count: usize,
    edges: &[(usize, usize)],
) -> Result<Vec<Vec<usize>>, AllocError>
    requires { (j k : ℕ) → Has edges.now (j, k) → (j < count) × (k < count) }
    ensures len { IfOk result (λ rows. length rows.items ≡ count) }
    ensures edges { IfOk result (λ rows. (j k : ℕ) → Has (targets_of rows.items j) k ↔ Has edges.now (j, k)) }
{
    let mut rows = empty_rows(alloc, count)?;
    for edge in edges {
        push_target(&mut rows, edge.0, edge.1)?;
    }
    Ok(rows)
}

fn row_at(rows: &[Vec<usize>], node: usize) -> &[usize]
    ensures { result.now ≡ targets_of rows.now node }
{
    match rows.get(node) {
        Some(row) => row,
        None => &[],
    }
}

impl Graph {
    /// The graph of `count` nodes with these edges, each from a node to a node that it depends on.
    pub fn of(alloc: Global, count: usize, edges: &[(usize, usize)]) -> Result<Graph, AllocError>
        requires { (j k : ℕ) → Has edges.now (j, k) → (j < count) × (k < count) }
        ensures len { IfOk result (λ g. length g ≡ count) }
        ensures edges { IfOk result (λ g. (j k : ℕ) → Steps g j k ↔ Has edges.now (j, k)) }
    {
        let rows = rows_with(alloc, count, edges)?;
        Ok(Graph { rows })
    }

    /// The number of nodes.
    pub fn len(&self) -> usize
        ensures len { result ≡ length self.now }
        ensures nodes { AreNodes self.now }
    {
        self.rows.len()
    }

    /// The targets of a node, and none of a number that is no node.
    pub fn targets(&self, node: usize) -> &[usize]
        ensures { result.now ≡ get_or self.now node [] }
    {
        row_at(&self.rows, node)
    }
}
