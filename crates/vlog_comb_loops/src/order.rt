// An order in which each module comes after those that it contains. It is a hint: nothing is promised of it.

use number_graph::{Order, order_of as order_nodes};
use std::alloc::{AllocError, Global};
use vlog_net_graph::NamedGraph;
use vlog_tree::Module;

// The index of each node in an order, and 0 for all where there is a cycle.
fn ranks_of(alloc: Global, contains: &NamedGraph) -> Result<Vec<usize>, AllocError> {
    let mut ranks = vec![in alloc; 0; contains.graph.graph().len()]?;
    if let Order::PartsFirst(order) = order_nodes(alloc, contains.graph.graph())? {
        for at in 0..order.len() {
            if let Some(rank) = ranks.get_mut(order[at]) {
                *rank = at;
            }
        }
    }
    Ok(ranks)
}

/// The rank and the index of each module, lower ranks first.
pub(crate) fn order_of(
    alloc: Global,
    contains: &NamedGraph,
    modules: &[Module],
) -> Result<Vec<(usize, usize)>, AllocError> {
    let ranks = ranks_of(alloc, contains)?;
    let mut order = Vec::new(alloc);
    for place in 0..modules.len() {
        let rank = match contains.number(modules[place].name().bytes()) {
            Some(number) => ranks.get(number).copied().unwrap_or(0),
            None => 0,
        };
        order.push((rank, place))?;
    }
    order.sort_unstable();
    Ok(order)
}
