// The graph of all modules at once, where the instances of a module share its nodes. Where it has no cycle no module has a loop. Where
// it has one there may be none: two instances of one module in a row are one module here.

ghost use Rattle.std.specs.Prelude.{◌≡◌, ◌∷◌, ◌↔◌, [], ℕ, List, true, map, IfOk, OnOk};
ghost use Rattle.std.specs.List.{flat_map};
ghost use Rattle.std.specs.Option.{option_copied};
ghost use Rattle.tapa_base.specs.Lists.{Has};
ghost use Rattle.vlog_tree.specs.Form.{ModuleTree};
ghost use Rattle.vlog_tree.specs.Loops.{Reaches, Rests, direct_edges, item_instances, port_of};
ghost use Rattle.vlog_net_graph.specs.Names.{IsDraftOf};
ghost use Rattle.vlog_net_graph.specs.Growth.{Adds};
ghost use Rattle.vlog_net_graph.specs.Merged.{is_named, port_pair, port_edge, join, joins, module_merged, merged_edges};

use crate::lines::{add_direct, add_owned, dotted, port_name};
use crate::names::GraphDraft;
use std::alloc::{AllocError, Global};
use tapa_base::Text;
use vlog_rules::is_input;
use vlog_scope::{Library, Scope};
use vlog_tree::{Declaration, Item, Module};

// The edges of a module's own lines.
fn add_own(
    alloc: Global,
    g: &mut GraphDraft,
    library: &Library,
    root: Option<&Text>,
    m: &Module,
) -> Result<(), AllocError>
    ensures { OnOk result (Adds g.old g.new (map (port_pair m.now.name) (direct_edges library.now (is_named (option_copied root.entry)) m.now))) }
{
    let front = dotted(alloc, m.name().bytes(), &[])?;
    add_direct(alloc, g, library, root, &front, m)?;
    Ok(())
}

// One more edge, of a port in the module of its instance and the net that it is connected to: an input depends on the net, and the
// net on an output. The ports are those of that module, and the port's name has the given one before it.
fn add_port_edge(
    alloc: Global,
    g: &mut GraphDraft,
    ports: &Scope,
    before: &Text,
    port: &Text,
    net: Vec<u8>,
) -> Result<(), AllocError>
    ensures { OnOk result (Adds g.old g.new (port_edge ports.now before.now port.now net.items ∷ [])) }
{
    let name = port_name(alloc, before, port)?;
    if is_input(ports.net_kind(port.bytes())) {
        add_owned(alloc, g, name, net)
    } else {
        add_owned(alloc, g, net, name)
    }
}

// The name of an instance's port with its module's name before it.
#[tactic(auto, unfolding(vlog_tree::specs::Loops::port_of))]
fn wire_name(alloc: Global, m: &Text, instance: &Text, port: &Text) -> Result<Vec<u8>, AllocError>
    ensures { IfOk result (λ v. v.items ≡ port_of m.now (port_of instance.now port.now)) }
{
    let (owner, before, behind) = (m.bytes(), instance.bytes(), port.bytes());
    let named = before.len().saturating_add(behind.len());
    let length = owner.len().saturating_add(named).saturating_add(2);
    let mut name = Vec::with_capacity(alloc, length)?;
    name.extend_from_slice(owner)?;
    name.push(b'.')?;
    name.extend_from_slice(before)?;
    name.push(b'.')?;
    name.extend_from_slice(behind)?;
    Ok(name)
}

// A port of an instance of k in a module m.
fn add_join(
    alloc: Global,
    g: &mut GraphDraft,
    ports: &Scope,
    m: &Text,
    k: &Text,
    instance: &Text,
    d: &Declaration,
) -> Result<(), AllocError>
    ensures { OnOk result (Adds g.old g.new (join ports.now m.now (k.now, instance.now) d.now ∷ [])) }
{
    let wire = wire_name(alloc, m, instance, &d.name)?;
    add_port_edge(alloc, g, ports, k, &d.name, wire)
}

fn add_joins(
    alloc: Global,
    g: &mut GraphDraft,
    ports: &Scope,
    m: &Text,
    k: &Text,
    instance: &Text,
    names: &[Declaration],
) -> Result<(), AllocError>
    ensures { OnOk result (Adds g.old g.new (map (join ports.now m.now (k.now, instance.now)) names.now)) }
{
    for d in names {
        add_join(alloc, g, ports, m, k, instance, d)?;
    }
    Ok(())
}

fn add_instance(
    alloc: Global,
    g: &mut GraphDraft,
    library: &Library,
    m: &Text,
    k: &Text,
    instance: &Text,
) -> Result<(), AllocError>
    ensures { OnOk result (Adds g.old g.new (joins library.now m.now (k.now, instance.now))) }
{
    let ports = library.ports_named(k);
    add_joins(alloc, g, ports, m, k, instance, ports.declarations())
}

fn add_item(
    alloc: Global,
    g: &mut GraphDraft,
    library: &Library,
    m: &Text,
    item: &Item,
) -> Result<(), AllocError>
    ensures { OnOk result (Adds g.old g.new (flat_map (joins library.now m.now) (item_instances item.now))) }
{
    match item {
        Item::Instance {
            module: k,
            name: i,
            ..
        } => add_instance(alloc, g, library, m, k, i),
        Item::Wire { .. } => Ok(()),
        Item::Reg { .. } => Ok(()),
        Item::Memory { .. } => Ok(()),
        Item::Assign { .. } => Ok(()),
        Item::Always(_) => Ok(()),
    }
}

fn add_items(
    alloc: Global,
    g: &mut GraphDraft,
    library: &Library,
    m: &Text,
    items: &[Item],
) -> Result<(), AllocError>
    ensures { OnOk result (Adds g.old g.new (flat_map (joins library.now m.now) (flat_map item_instances items.now))) }
{
    for item in items {
        add_item(alloc, g, library, m, item)?;
    }
    Ok(())
}

fn add_module(
    alloc: Global,
    g: &mut GraphDraft,
    library: &Library,
    root: Option<&Text>,
    m: &Module,
) -> Result<(), AllocError>
    ensures { OnOk result (Adds g.old g.new (module_merged library.now (is_named (option_copied root.entry)) m.now)) }
{
    add_own(alloc, g, library, root, m)?;
    add_items(alloc, g, library, m.name(), m.items())?;
    Ok(())
}

fn add_modules(
    alloc: Global,
    g: &mut GraphDraft,
    library: &Library,
    root: Option<&Text>,
    modules: &[Module],
) -> Result<(), AllocError>
    ensures { OnOk result (Adds g.old g.new (flat_map (module_merged library.now (is_named (option_copied root.entry))) modules.now)) }
{
    for m in modules {
        add_module(alloc, g, library, root, m)?;
    }
    Ok(())
}

// About how many names the graph gets by a line: a net for each line that drives one, and for an instance a net and its ports.
fn count_names(item: &Item) -> usize {
    match item {
        Item::Assign { .. } => 1,
        Item::Instance { connections, .. } => connections.connections().len().saturating_add(1),
        Item::Wire { .. } => 0,
        Item::Reg { .. } => 0,
        Item::Memory { .. } => 0,
        Item::Always(_) => 0,
    }
}

// About how many names the graph of modules gets.
fn count_all_names(modules: &[Module]) -> usize {
    let mut count: usize = 0;
    for m in modules {
        for item in m.items() {
            count = count.saturating_add(count_names(item));
        }
    }
    count
}

fn merged_draft(
    alloc: Global,
    library: &Library,
    root: Option<&Text>,
) -> Result<GraphDraft, AllocError>
    ensures { IfOk result (λ g. IsDraftOf (merged_edges library.now (is_named (option_copied root.entry))) g) }
{
    let modules = library.modules();
    let mut g = GraphDraft::with_room(alloc, count_all_names(modules))?;
    add_modules(alloc, &mut g, library, root, modules)?;
    Ok(g)
}

/// Whether the graph of all modules at once has no cycle. Then no net of any module depends on itself. `root` is the name of the first
/// module that no other contains. It takes time and memory as the lines and the ports of all instances do.
pub fn merged_is_loopless(
    alloc: Global,
    library: &Library,
    root: Option<&Text>,
) -> Result<bool, AllocError>
    ensures exact { IfOk result (λ b. (b ≡ true) ↔ ((x : List ℕ) → Reaches (merged_edges library.now (is_named (option_copied root.entry))) x x → ⊥)) }
    ensures loopless { IfOk result (λ b. b ≡ true → (m : ModuleTree) → Has library.now m → (x : List ℕ) → Rests library.now (is_named (option_copied root.entry)) m x x → ⊥) }
{
    let draft = merged_draft(alloc, library, root)?;
    let loopless = draft.is_loopless(alloc)?;
    Ok(loopless)
}
