// Levels of nodes by their strongly connected components, the groups of nodes that reach one another. Nothing is promised of
// them: what they are good for is looked at afterwards.

use crate::graph::Graph;
use std::alloc::{AllocError, Global};

// The path-based search for components: a walk over all nodes, each after those that it depends on.
#[derive(Drop)]
struct Walk {
    // When each node was entered, and the level of its component: 0 as long as it has none.
    entries: Vec<usize>,
    levels: Vec<usize>,
    // The nodes of the path, and of each how many of its targets were seen.
    open: Vec<(usize, usize)>,
    // The nodes that have an entry and no level, and of each group of them the first.
    waiting: Vec<usize>,
    firsts: Vec<usize>,
    entered: usize,
    grouped: usize,
}

fn number_at(numbers: &[usize], node: usize) -> usize {
    match numbers.get(node) {
        Some(number) => *number,
        None => 0,
    }
}

impl Walk {
    fn enter(&mut self, node: usize) -> Result<(), AllocError> {
        self.entered = self.entered.saturating_add(1);
        if let Some(entry) = self.entries.get_mut(node) {
            *entry = self.entered;
        }
        self.open.push((node, 0))?;
        self.waiting.push(node)?;
        self.firsts.push(node)?;
        Ok(())
    }

    // Makes one group of all that were begun since an entry, by a step back to it.
    fn join(&mut self, entry: usize) -> Result<(), AllocError> {
        while let Some(first) = self.firsts.pop() {
            if number_at(&self.entries, first) <= entry {
                self.firsts.push(first)?;
                return Ok(());
            }
        }
        Ok(())
    }

    fn follow(&mut self, to: usize) -> Result<(), AllocError> {
        let entry = number_at(&self.entries, to);
        if entry == 0 {
            self.enter(to)?;
        } else if number_at(&self.levels, to) == 0 {
            self.join(entry)?;
        }
        Ok(())
    }

    // Gives a new level to the nodes of the stack from the last one down to the first of their group.
    fn close_group(&mut self, first: usize) {
        self.grouped = self.grouped.saturating_add(1);
        while let Some(node) = self.waiting.pop() {
            if let Some(level) = self.levels.get_mut(node) {
                *level = self.grouped;
            }
            if node == first {
                return;
            }
        }
    }

    fn leave(&mut self, node: usize) -> Result<(), AllocError> {
        if let Some(first) = self.firsts.pop() {
            if first == node {
                self.close_group(node);
            } else {
                self.firsts.push(first)?;
            }
        }
        Ok(())
    }

    // Goes on at the node that was entered last.
    fn go_on(&mut self, graph: &Graph, node: usize, next: usize) -> Result<(), AllocError> {
        match graph.targets(node).get(next) {
            Some(to) => {
                self.open.push((node, next.saturating_add(1)))?;
                self.follow(*to)
            }
            None => self.leave(node),
        }
    }

    // Visits all that a root reaches, in at most `steps` steps.
    fn visit(&mut self, graph: &Graph, root: usize, steps: usize) -> Result<(), AllocError> {
        self.follow(root)?;
        for _ in 0..steps {
            match self.open.pop() {
                Some((node, next)) => self.go_on(graph, node, next)?,
                None => return Ok(()),
            }
        }
        Ok(())
    }
}

// A step for each edge and each node.
fn count_steps(graph: &Graph) -> usize {
    let mut steps: usize = 1;
    for node in 0..graph.len() {
        let edges = graph.targets(node).len();
        steps = steps.saturating_add(edges).saturating_add(1);
    }
    steps
}

/// Levels, which rise along no edge, and fall along each from one component to another.
pub(crate) fn component_levels(alloc: Global, graph: &Graph) -> Result<Vec<usize>, AllocError> {
    let mut walk = Walk {
        entries: vec![in alloc; 0; graph.len()]?,
        levels: vec![in alloc; 0; graph.len()]?,
        open: Vec::new(alloc),
        waiting: Vec::new(alloc),
        firsts: Vec::new(alloc),
        entered: 0,
        grouped: 0,
    };
    let steps = count_steps(graph);
    for root in 0..graph.len() {
        walk.visit(graph, root, steps)?;
    }
    Ok(walk.levels)
}
