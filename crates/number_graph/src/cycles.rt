// Whether a node reaches itself, mostly without a search.

ghost use Rattle.std.specs.Prelude.{◌≡◌, ◌↔◌, ◌<◌, [], ℕ, List, true, false, length, get_or, IfOk};
ghost use Rattle.tapa_base.specs.Lists.{Has, Chain};
ghost use Rattle.number_graph.specs.Graphs.{Steps, NeverRise};

use crate::components::component_levels;
use crate::graph::Graph;
use crate::reach::reach_from;
use std::alloc::{AllocError, Global};
use std::marker::Model;

/// A graph with levels of its nodes, which rise along no edge. Nodes that reach one another have one level, so a node along
/// whose edges the levels fall does not reach itself.
#[derive(Drop)]
pub struct LeveledGraph {
    graph: Graph,
    levels: Vec<usize>,
}

impl Model for LeveledGraph {
    ghost use Rattle.number_graph.specs.Graphs.{Adjacency, NeverRise};

    ghost Value = { Adjacency };

    ghost view = { λ g. g.graph };

    ghost invariant = { λ g. NeverRise g.graph g.levels.items };
}

fn level_at(levels: &[usize], node: usize) -> usize
    ensures { result ≡ get_or levels.now node 0 }
{
    match levels.get(node) {
        Some(level) => *level,
        None => 0,
    }
}

fn mark_at(marks: &[bool], node: usize) -> bool
    ensures { result ≡ get_or marks.now node false }
{
    match marks.get(node) {
        Some(marked) => *marked,
        None => false,
    }
}

// Whether the levels of nodes are all below a level.
fn are_below(levels: &[usize], level: usize, nodes: &[usize]) -> bool
    ensures { result ≡ true → (k : ℕ) → Has nodes.now k → get_or levels.now k 0 < level }
{
    for node in nodes {
        if level_at(levels, *node) >= level {
            return false;
        }
    }
    true
}

fn levels_never_rise(graph: &Graph, levels: &[usize]) -> bool
    ensures { result ≡ true → NeverRise graph.now levels.now }
{
    for node in 0..graph.len() {
        let above = level_at(levels, node).saturating_add(1);
        if !are_below(levels, above, graph.targets(node)) {
            return false;
        }
    }
    true
}

// Where levels rise after all, none are kept, and each question is answered by a search.
fn checked_levels(alloc: Global, graph: &Graph) -> Result<Vec<usize>, AllocError>
    ensures { IfOk result (λ levels. NeverRise graph.now levels.items) }
{
    let levels = component_levels(alloc, graph)?;
    if levels_never_rise(graph, &levels) {
        Ok(levels)
    } else {
        Ok(Vec::new(alloc))
    }
}

impl LeveledGraph {
    /// A graph with levels of its nodes. Want of memory is the only error.
    pub fn of(alloc: Global, graph: Graph) -> Result<LeveledGraph, AllocError>
        ensures { IfOk result (λ g. g ≡ graph) }
    {
        let levels = checked_levels(alloc, &graph)?;
        Ok(LeveledGraph { graph, levels })
    }

    /// The graph.
    pub fn graph(&self) -> &Graph
        ensures { result.now ≡ self.now }
    {
        &self.graph
    }

    // Whether the levels fall along all edges of a node.
    fn is_off(&self, node: usize) -> bool
        ensures { result ≡ true → Chain (Steps self.now) node node → ⊥ }
    {
        let level = level_at(&self.levels, node);
        are_below(&self.levels, level, self.graph.targets(node))
    }

    fn is_reached(&self, alloc: Global, node: usize) -> Result<bool, AllocError>
        ensures { IfOk result (λ b. (b ≡ true) ↔ Chain (Steps self.now) node node) }
    {
        let marks = reach_from(alloc, self.graph(), &[node])?;
        Ok(mark_at(&marks, node))
    }

    /// Whether a node reaches itself by one or more steps.
    pub fn returns(&self, alloc: Global, node: usize) -> Result<bool, AllocError>
        ensures { IfOk result (λ b. (b ≡ true) ↔ Chain (Steps self.now) node node) }
    {
        if self.is_off(node) {
            return Ok(false);
        }
        let found = self.is_reached(alloc, node)?;
        Ok(found)
    }
}
