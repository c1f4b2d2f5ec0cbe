// An order of all nodes in which each comes after its targets, or a node that lies on a cycle.

ghost use Rattle.std.specs.Prelude.{◌≡◌, ◌<◌, ◌≤◌, ◌+◌, ◌-◌, ◌++◌, ◌∷◌, [], ℕ, List, Some, None, length, get_or, IfOk, OnOk};
ghost use Rattle.number_graph.specs.Graphs.{Adjacency, Steps, IsOrder};
ghost use Rattle.tapa_base.specs.Lists.{Chain};
ghost use Rattle.number_graph.specs.Visits.{IsBehind, IsClosedNode, IsOpen, IsFurther};
ghost use Rattle.number_graph.specs.Orders.{IsAnswer, IsVisitOf, left_of, GoesOn, IsTurn, IsRootTurn};

use crate::graph::Graph;
use std::alloc::{AllocError, Global};

/// All nodes of a graph in an order in which each comes after its targets, or a node that reaches itself.
#[derive(Drop)]
pub enum Order {
    PartsFirst(Vec<usize>),
    Cycle(usize),
}

/// A visit of all nodes: how far each node has come, the path of the nodes that are open, each a target of the one before,
/// and the nodes that are done.
#[derive(Drop)]
pub struct Visit {
    pub progress: Vec<usize>,
    pub path: Vec<usize>,
    pub order: Vec<usize>,
}

// Begins a node that is new.
fn begin(graph: &Graph, visit: &mut Visit, node: usize) -> Result<(), AllocError>
    requires visit { IsVisitOf graph.now visit.old }
    requires low { node < length graph.now }
    requires new { get_or visit.old.progress.items node 0 ≡ 0 }
    requires follows { (i : ℕ) → i + 1 ≡ length visit.old.path.items → Steps graph.now (get_or visit.old.path.items i 0) node }
    ensures goes { OnOk result (GoesOn graph.now visit.old visit.new) }
    ensures path { OnOk result (visit.new.path.items ≡ visit.old.path.items ++ node ∷ []) }
    ensures begun { OnOk result (get_or visit.new.progress.items node 0 ≡ 1) }
    ensures others { OnOk result ((j : ℕ) → 0 < get_or visit.old.progress.items j 0 → get_or visit.new.progress.items j 0 ≡ get_or visit.old.progress.items j 0) }
{
    visit.progress[node] = 1;
    visit.path.push(node)?;
    Ok(())
}

// Passes a target of an open node that is done or is after it on the path.
fn pass(graph: &Graph, visit: &mut Visit, place: usize, node: usize)
    requires visit { IsVisitOf graph.now visit.old }
    requires at { place < length visit.old.path.items }
    requires node { get_or visit.old.path.items place 0 ≡ node }
    requires more { get_or visit.old.progress.items node 0 ≤ length (get_or graph.now node []) }
    requires behind { IsBehind graph.now visit.old.progress.items visit.old.path.items place (get_or (get_or graph.now node []) (get_or visit.old.progress.items node 0 - 1) 0) }
    ensures { GoesOn graph.now visit.old visit.new }
{
    let progress = visit.progress[node];
    let _most = graph.targets(node).len() + 1;
    visit.progress[node] = progress + 1;
}

// Appends the last node of the path to the order, once all its targets were passed.
fn finish(graph: &Graph, visit: &mut Visit, node: usize) -> Result<(), AllocError>
    requires visit { IsVisitOf graph.now visit.old }
    requires last { (rest : List ℕ) × (visit.old.path.items ≡ rest ++ node ∷ []) }
    requires full { get_or visit.old.progress.items node 0 ≡ length (get_or graph.now node []) + 1 }
    ensures { OnOk result (GoesOn graph.now visit.old visit.new) }
{
    let _ = visit.path.pop();
    visit.progress[node] = graph.targets(node).len() + 2;
    visit.order.push(node)?;
    Ok(())
}

// Begins a target that is new, and passes it.
fn descend(
    graph: &Graph,
    visit: &mut Visit,
    place: usize,
    node: usize,
    to: usize,
) -> Result<(), AllocError>
    requires visit { IsVisitOf graph.now visit.old }
    requires last { place + 1 ≡ length visit.old.path.items }
    requires node { get_or visit.old.path.items place 0 ≡ node }
    requires more { get_or visit.old.progress.items node 0 ≤ length (get_or graph.now node []) }
    requires to { to ≡ get_or (get_or graph.now node []) (get_or visit.old.progress.items node 0 - 1) 0 }
    requires low { to < length graph.now }
    requires new { get_or visit.old.progress.items to 0 ≡ 0 }
    ensures { OnOk result (GoesOn graph.now visit.old visit.new) }
{
    begin(graph, visit, to)?;
    pass(graph, visit, place, node);
    Ok(())
}

// Looks at a target of the last node of the path: begins it where it is new, passes it where it is done, and returns it
// where it is open, since then it reaches itself.
fn follow(
    graph: &Graph,
    visit: &mut Visit,
    place: usize,
    node: usize,
    to: usize,
) -> Result<Option<usize>, AllocError>
    requires visit { IsVisitOf graph.now visit.old }
    requires last { place + 1 ≡ length visit.old.path.items }
    requires node { get_or visit.old.path.items place 0 ≡ node }
    requires more { get_or visit.old.progress.items node 0 ≤ length (get_or graph.now node []) }
    requires to { to ≡ get_or (get_or graph.now node []) (get_or visit.old.progress.items node 0 - 1) 0 }
    requires low { to < length graph.now }
    ensures { IfOk result (λ o. IsTurn graph.now visit.old visit.new o) }
{
    let progress = visit.progress[to];
    if progress == 0 {
        descend(graph, visit, place, node, to)?;
        return Ok(None);
    }
    if progress <= graph.targets(to).len() + 1 {
        return Ok(Some(to));
    }
    pass(graph, visit, place, node);
    Ok(None)
}

// Looks at the next target of the last node of the path, or finishes the node where it has no more.
fn go_on(graph: &Graph, visit: &mut Visit, node: usize) -> Result<Option<usize>, AllocError>
    requires visit { IsVisitOf graph.now visit.old }
    requires last { (rest : List ℕ) × (visit.old.path.items ≡ rest ++ node ∷ []) }
    ensures { IfOk result (λ o. IsTurn graph.now visit.old visit.new o) }
{
    let _count = graph.len();
    let targets = graph.targets(node);
    let place = visit.path.len() - 1;
    let next = visit.progress[node] - 1;
    if next < targets.len() {
        let to = targets[next];
        return follow(graph, visit, place, node, to);
    }
    finish(graph, visit, node)?;
    Ok(None)
}

// Goes on until the path is empty.
fn end_path(graph: &Graph, visit: &mut Visit) -> Result<Option<usize>, AllocError>
    requires { IsVisitOf graph.now visit.old }
    ensures visit { IfOk result (λ o. o ≡ None → IsVisitOf graph.now visit.new) }
    ensures further { IfOk result (λ o. o ≡ None → IsFurther visit.old.progress.items visit.new.progress.items) }
    ensures empty { IfOk result (λ o. o ≡ None → length visit.new.path.items ≡ 0) }
    ensures cycle { IfOk result (λ o. (k : ℕ) → o ≡ Some k → IsAnswer graph.now (Order.Cycle k)) }
{
    while let Some(node) = visit.path.last().copied() {
        if let Some(found) = go_on(graph, visit, node)? {
            return Ok(Some(found));
        }
    }
    Ok(None)
}

// Visits all that a root reaches.
fn visit_root(graph: &Graph, visit: &mut Visit, root: usize) -> Result<Option<usize>, AllocError>
    requires visit { IsVisitOf graph.now visit.old }
    requires empty { length visit.old.path.items ≡ 0 }
    requires low { root < length graph.now }
    ensures { IfOk result (λ o. IsRootTurn graph.now root visit.old visit.new o) }
{
    if visit.progress[root] == 0 {
        begin(graph, visit, root)?;
    }
    end_path(graph, visit)
}

fn new_visit(alloc: Global, graph: &Graph) -> Result<Visit, AllocError>
    ensures visit { IfOk result (λ v. IsVisitOf graph.now v) }
    ensures empty { IfOk result (λ v. length v.path.items ≡ 0) }
{
    let progress = vec![in alloc; 0; graph.len()]?;
    Ok(Visit {
        progress,
        path: Vec::new(alloc),
        order: Vec::new(alloc),
    })
}

/// An order of all nodes in which each comes after its targets, or a node that reaches itself. It takes no more steps than
/// there are nodes and edges, and no recursion.
pub fn order_of(alloc: Global, graph: &Graph) -> Result<Order, AllocError>
    ensures { IfOk result (λ order. IsAnswer graph.now order) }
{
    let mut visit = new_visit(alloc, graph)?;
    for root in 0..graph.len() {
        if let Some(found) = visit_root(graph, &mut visit, root)? {
            return Ok(Order::Cycle(found));
        }
    }
    Ok(Order::PartsFirst(visit.order))
}

/// An order of all nodes shows that none reaches itself.
pub fn law_order_has_no_cycle()
    ensures { (g : Adjacency) (order : List ℕ) → IsOrder g order → (k : ℕ) → Chain (Steps g) k k → ⊥ }
{}
