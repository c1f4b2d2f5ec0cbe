// The graph of a module, with what its instances do by their sums.

ghost use Rattle.std.specs.Prelude.{◌≡◌, ◌∷◌, [], map, IfOk, OnOk};
ghost use Rattle.std.specs.List.{flat_map};
ghost use Rattle.std.specs.Option.{option_copied};
ghost use Rattle.vlog_tree.specs.Loops.{item_instances};
ghost use Rattle.vlog_net_graph.specs.Names.{IsGraphOf, IsGraphListed};
ghost use Rattle.vlog_net_graph.specs.Growth.{Adds};
ghost use Rattle.vlog_comb_loops.specs.Summaries.{is_named, sum_named, port_pair, through_edges, module_edges};

use crate::sums::{Sum, pairs_at};
use std::alloc::{AllocError, Global};
use tapa_base::Text;
use vlog_net_graph::{GraphDraft, NamedGraph, add_edge, direct_draft, port_name};
use vlog_scope::Library;
use vlog_tree::{Item, Module};

fn add_pair(
    alloc: Global,
    g: &mut GraphDraft,
    instance: &Text,
    pair: &(Text, Text),
) -> Result<(), AllocError>
    ensures { OnOk result (Adds g.old g.new (port_pair instance.now pair.now ∷ [])) }
{
    let from = port_name(alloc, instance, &pair.0)?;
    let to = port_name(alloc, instance, &pair.1)?;
    add_edge(alloc, g, &from, &to)
}

fn add_pairs(
    alloc: Global,
    g: &mut GraphDraft,
    instance: &Text,
    pairs: &[(Text, Text)],
) -> Result<(), AllocError>
    ensures { OnOk result (Adds g.old g.new (map (port_pair instance.now) pairs.now)) }
{
    for pair in pairs {
        add_pair(alloc, g, instance, pair)?;
    }
    Ok(())
}

// The pairs of the first module of this name.
fn pairs_named<'a>(library: &Library, sums: &'a [Sum], name: &Text) -> &'a [(Text, Text)]
    ensures { result.now ≡ sum_named library.now sums.now name.now }
{
    match library.names().place(name) {
        Some((place, _)) => pairs_at(sums, place),
        None => &[],
    }
}

// An instance's outputs depend on those inputs on which they depend inside.
fn add_through(
    alloc: Global,
    g: &mut GraphDraft,
    library: &Library,
    sums: &[Sum],
    item: &Item,
) -> Result<(), AllocError>
    ensures { OnOk result (Adds g.old g.new (flat_map (through_edges library.now sums.now) (item_instances item.now))) }
{
    match item {
        Item::Instance {
            module: m,
            name: i,
            ..
        } => add_pairs(alloc, g, i, pairs_named(library, sums, m)),
        Item::Wire { .. } => Ok(()),
        Item::Reg { .. } => Ok(()),
        Item::Memory { .. } => Ok(()),
        Item::Assign { .. } => Ok(()),
        Item::Always(_) => Ok(()),
    }
}

fn add_all_through(
    alloc: Global,
    g: &mut GraphDraft,
    library: &Library,
    sums: &[Sum],
    items: &[Item],
) -> Result<(), AllocError>
    ensures { OnOk result (Adds g.old g.new (flat_map (through_edges library.now sums.now) (flat_map item_instances items.now))) }
{
    for item in items {
        add_through(alloc, g, library, sums, item)?;
    }
    Ok(())
}

/// The graph of a module, with what its instances do by their sums.
pub(crate) fn graph_of(
    alloc: Global,
    library: &Library,
    root: Option<&Text>,
    sums: &[Sum],
    m: &Module,
) -> Result<NamedGraph, AllocError>
    ensures graph { IfOk result (λ g. IsGraphOf (module_edges library.now (is_named (option_copied root.entry)) sums.now m.now) g) }
    ensures listed { IfOk result (λ g. IsGraphListed g) }
{
    let mut draft = direct_draft(alloc, library, root, m)?;
    add_all_through(alloc, &mut draft, library, sums, m.items())?;
    let graph = draft.finish(alloc)?;
    Ok(graph)
}
