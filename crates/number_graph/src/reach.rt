// What nodes reach.

ghost use Rattle.std.specs.Prelude.{◌≡◌, ◌<◌, ◌≤◌, ◌+◌, ◌↔◌, [], ◌∷◌, ℕ, List, true, false, length, get_or, IfOk, OnOk};
ghost use Rattle.tapa_base.specs.Lists.{Has, Chain};
ghost use Rattle.number_graph.specs.Graphs.{Steps, IsReached};
ghost use Rattle.number_graph.specs.Marks.{IsMarked, unset, Grows};

use crate::graph::Graph;
use std::alloc::{AllocError, Global};
use std::marker::Model;

// Marks a number and appends it to the list of marked ones, where it is not marked.
fn mark(marks: &mut Vec<bool>, found: &mut Vec<usize>, number: usize) -> Result<(), AllocError>
    requires low { number < length marks.old.items }
    requires marked { IsMarked marks.old.items found.old.items }
    ensures grows { Grows marks.old.items marks.new.items found.old.items found.new.items (λ m. m ≡ number) }
    ensures there { OnOk result (Has found.new.items number) }
{
    if !marks[number] {
        found.push(number)?;
        marks[number] = true;
    }
    Ok(())
}

// Marks all numbers of a list, and appends those that were not marked to the list of marked ones.
fn mark_all(
    marks: &mut Vec<bool>,
    found: &mut Vec<usize>,
    numbers: &[usize],
) -> Result<(), AllocError>
    requires low { (m : ℕ) → Has numbers.now m → m < length marks.old.items }
    requires marked { IsMarked marks.old.items found.old.items }
    ensures grows { Grows marks.old.items marks.new.items found.old.items found.new.items (λ m. Has numbers.now m) }
    ensures there { OnOk result ((m : ℕ) → Has numbers.now m → Has found.new.items m) }
{
    for number in numbers {
        mark(marks, found, *number)?;
    }
    Ok(())
}

// Marks the targets of some nodes.
fn mark_targets(
    graph: &Graph,
    marks: &mut Vec<bool>,
    found: &mut Vec<usize>,
    sources: &[usize],
) -> Result<(), AllocError>
    requires room { length graph.now ≤ length marks.old.items }
    requires marked { IsMarked marks.old.items found.old.items }
    ensures grows { Grows marks.old.items marks.new.items found.old.items found.new.items (λ m. (j : ℕ) × Has sources.now j × Steps graph.now j m) }
    ensures there { OnOk result ((j m : ℕ) → Has sources.now j → Steps graph.now j m → Has found.new.items m) }
{
    let _nodes = graph.len();
    for source in sources {
        mark_all(marks, found, graph.targets(*source))?;
    }
    Ok(())
}

// Marks all that is reached from what is marked.
fn close(graph: &Graph, marks: &mut Vec<bool>, found: &mut Vec<usize>) -> Result<(), AllocError>
    requires room { length graph.now ≤ length marks.old.items }
    requires marked { IsMarked marks.old.items found.old.items }
    requires count { length found.old.items + unset marks.old.items ≡ length marks.old.items }
    ensures grows { Grows marks.old.items marks.new.items found.old.items found.new.items (λ m. (j : ℕ) × Has found.old.items j × Chain (Steps graph.now) j m) }
    ensures closed { OnOk result ((i m : ℕ) → Has found.new.items i → Steps graph.now i m → Has found.new.items m) }
{
    let _nodes = graph.len();
    for next in 0..marks.len() {
        if next >= found.len() {
            return Ok(());
        }
        let number = found[next];
        mark_all(marks, found, graph.targets(number))?;
    }
    Ok(())
}

// Marks the nodes that some nodes reach.
fn reach(
    graph: &Graph,
    marks: &mut Vec<bool>,
    found: &mut Vec<usize>,
    sources: &[usize],
) -> Result<(), AllocError>
    requires room { length graph.now ≤ length marks.old.items }
    requires none { IsMarked marks.old.items [] }
    requires empty { found.old.items ≡ [] }
    ensures len { length marks.new.items ≡ length marks.old.items }
    ensures marked { IsMarked marks.new.items found.new.items }
    ensures reached { OnOk result ((k : ℕ) → Has found.new.items k ↔ IsReached graph.now sources.now k) }
{
    mark_targets(graph, marks, found, sources)?;
    close(graph, marks, found)?;
    Ok(())
}

fn unmarked(alloc: Global, count: usize) -> Result<Vec<bool>, AllocError>
    ensures len { IfOk result (λ marks. length marks.items ≡ count) }
    ensures none { IfOk result (λ marks. IsMarked marks.items []) }
{
    let marks = vec![in alloc; false; count]?;
    Ok(marks)
}

/// Marks the nodes that some nodes reach by one or more steps.
pub fn reach_from(alloc: Global, graph: &Graph, sources: &[usize]) -> Result<Vec<bool>, AllocError>
    ensures { IfOk result (λ marks. (k : ℕ) → (get_or marks.items k false ≡ true) ↔ IsReached graph.now sources.now k) }
{
    let mut marks = unmarked(alloc, graph.len())?;
    let mut found = Vec::new(alloc);
    reach(graph, &mut marks, &mut found, sources)?;
    Ok(marks)
}

// Clears the marks of the listed numbers.
fn clear(marks: &mut Vec<bool>, found: &[usize])
    requires { IsMarked marks.old.items found.now }
    ensures len { length marks.new.items ≡ length marks.old.items }
    ensures none { IsMarked marks.new.items [] }
{
    for number in found {
        if *number < marks.len() {
            marks[*number] = false;
        }
    }
}

/// Room for searches in graphs of at most a fixed number of nodes, reused by each: a search costs the number of nodes it reaches.
#[derive(Drop)]
pub struct Searches {
    marks: Vec<bool>,
}

impl Model for Searches {
    ghost use Rattle.std.specs.Prelude.{ℕ, [], length};
    ghost use Rattle.number_graph.specs.Marks.{IsMarked};

    ghost Value = { ℕ };

    ghost view = { λ s. length s.marks.items };

    ghost invariant = { λ s. IsMarked s.marks.items [] };
}

impl Searches {
    /// Searches in a graph of `count` nodes, of which none is marked. Want of memory is the only error.
    pub fn new(alloc: Global, count: usize) -> Result<Searches, AllocError>
        ensures { IfOk result (λ s. s ≡ count) }
    {
        let marks = unmarked(alloc, count)?;
        Ok(Searches { marks })
    }

    /// The nodes that a node reaches by one or more steps.
    pub fn reached(
        &mut self,
        alloc: Global,
        graph: &Graph,
        from: usize,
    ) -> Result<Vec<usize>, AllocError>
        requires { length graph.now ≤ self.old }
        ensures size { self.new ≡ self.old }
        ensures reached { IfOk result (λ found. (k : ℕ) → Has found.items k ↔ Chain (Steps graph.now) from k) }
    {
        let mut found = Vec::new(alloc);
        let marks = &mut self.marks;
        let outcome = reach(graph, marks, &mut found, &[from]);
        clear(marks, &found);
        outcome?;
        Ok(found)
    }
}
