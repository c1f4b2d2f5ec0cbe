// Which module contains which.

ghost use Rattle.std.specs.Prelude.{map, IfOk, OnOk};
ghost use Rattle.vlog_tree.specs.V6.{item_children};
ghost use Rattle.vlog_tree.specs.Loops.{own_containment, containment};
ghost use Rattle.vlog_net_graph.specs.Names.{IsDraftOf, IsGraphOf};
ghost use Rattle.vlog_net_graph.specs.Growth.{Adds};

use crate::lines::add_edge;
use crate::names::{GraphDraft, NamedGraph};
use std::alloc::{AllocError, Global};
use tapa_base::Text;
use vlog_tree::{Item, Module};

fn add_child(alloc: Global, g: &mut GraphDraft, m: &Text, item: &Item) -> Result<(), AllocError>
    ensures { OnOk result (Adds g.old g.new (map (λ k. (m.now, k)) (item_children item.now))) }
{
    match item {
        Item::Instance { module: k, .. } => add_edge(alloc, g, m.bytes(), k.bytes()),
        Item::Wire { .. } => Ok(()),
        Item::Reg { .. } => Ok(()),
        Item::Memory { .. } => Ok(()),
        Item::Assign { .. } => Ok(()),
        Item::Always(_) => Ok(()),
    }
}

#[tactic(auto, unfolding(vlog_tree::specs::Loops::own_containment, vlog_tree::specs::V6::module_children))]
fn add_children(alloc: Global, g: &mut GraphDraft, m: &Module) -> Result<(), AllocError>
    ensures { OnOk result (Adds g.old g.new (own_containment m.now)) }
{
    for item in m.items() {
        add_child(alloc, g, m.name(), item)?;
    }
    Ok(())
}

fn containment_draft(alloc: Global, modules: &[Module]) -> Result<GraphDraft, AllocError>
    ensures { IfOk result (λ g. IsDraftOf (containment modules.now) g) }
{
    let mut g = GraphDraft::new(alloc);
    for m in modules {
        add_children(alloc, &mut g, m)?;
    }
    Ok(g)
}

/// Which module contains which, as a graph of their names.
pub fn containment_of(alloc: Global, modules: &[Module]) -> Result<NamedGraph, AllocError>
    ensures { IfOk result (λ g. IsGraphOf (containment modules.now) g) }
{
    let g = containment_draft(alloc, modules)?;
    let g = g.finish(alloc)?;
    Ok(g)
}
