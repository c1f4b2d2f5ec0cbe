// An order of the nets of a flattened design.

ghost use Rattle.std.specs.Prelude.{◌≡◌, ◌++◌, IfOk, OnOk, length};
ghost use Rattle.vlog_tree.specs.Form.{ModuleTree};
ghost use Rattle.vlog_design.specs.Designs.{TopOf};
ghost use Rattle.sim_flat.specs.Flat.{IsFlat};
ghost use Rattle.sim_flat.specs.Order.{IsNetOrder};
ghost use Rattle.sim_flat.specs.Edges.{lines_at as lines_lem, connections_of as connections_lem, connections_in as connections_in_lem, NumbersFit, own_edges, joins_in};
ghost use Rattle.sim_flat.specs.Edges.{join_edges, instance_edges, edges_below, top_answers, all_edges};

use crate::edges::{Edges, add_answers, add_assigns, add_connections};
use crate::flat::{Flat, base_at, table_at};
use crate::instances::Instance;
use number_graph::{Graph, Order, order_of};
use std::alloc::{AllocError, Global};
use vlog_design::Design;
use vlog_scope::Scope;
use vlog_tree::{Connection, Item, Module};

/// The lines of an instance's module; none where there is no such instance.
pub fn lines_at<'a>(flat: &Flat, modules: &'a [Module], k: usize) -> &'a [Item]
    ensures { result.now ≡ lines_lem modules.now flat.now k }
{
    match flat.instances.get(k) {
        Some(row) => match modules.get(row.kind) {
            Some(m) => m.items(),
            None => &[],
        },
        None => &[],
    }
}

fn connections_of(item: &Item) -> &[Connection]
    ensures { result.now ≡ connections_lem item.now }
{
    match item {
        Item::Instance {
            connections: joins,
            ..
        } => joins.connections(),
        Item::Wire { .. } => &[],
        Item::Reg { .. } => &[],
        Item::Memory { .. } => &[],
        Item::Assign { .. } => &[],
        Item::Always(_) => &[],
    }
}

// The connections of the instance at an index in another.
fn connections_in<'a>(
    flat: &Flat,
    modules: &'a [Module],
    k: usize,
    child: usize,
) -> &'a [Connection]
    ensures { result.now ≡ connections_in_lem modules.now flat.now k child }
{
    let items = lines_at(flat, modules, k);
    match table_at(flat, k) {
        Some(table) => match table.children.get(child) {
            Some(place) => match items.get(place.line) {
                Some(item) => connections_of(item),
                None => &[],
            },
            None => &[],
        },
        None => &[],
    }
}

fn add_own(edges: &mut Edges, flat: &Flat, modules: &[Module], k: usize) -> Result<(), AllocError>
    requires { NumbersFit flat.now }
    ensures { OnOk result (edges.new.items ≡ edges.old.items ++ own_edges modules.now flat.now k) }
{
    let base = base_at(flat, k);
    let items = lines_at(flat, modules, k);
    match table_at(flat, k) {
        Some(table) => add_assigns(edges, base, &table.scope, items),
        None => Ok(()),
    }
}

fn add_joins_in(
    edges: &mut Edges,
    flat: &Flat,
    modules: &[Module],
    k: usize,
    row: &Instance,
) -> Result<(), AllocError>
    requires { NumbersFit flat.now }
    ensures { OnOk result (edges.new.items ≡ edges.old.items ++ joins_in modules.now flat.now k row.now) }
{
    let around = row.around;
    let base = base_at(flat, around);
    let base_inside = base_at(flat, k);
    let connections = connections_in(flat, modules, around, row.child);
    match table_at(flat, k) {
        Some(inside) => match table_at(flat, around) {
            Some(table) => add_connections(
                edges,
                base,
                &table.scope,
                base_inside,
                &inside.scope,
                connections,
            ),
            None => Ok(()),
        },
        None => Ok(()),
    }
}

fn add_joins(edges: &mut Edges, flat: &Flat, modules: &[Module], k: usize) -> Result<(), AllocError>
    requires { NumbersFit flat.now }
    ensures { OnOk result (edges.new.items ≡ edges.old.items ++ join_edges modules.now flat.now k) }
{
    if k == 0 {
        return Ok(());
    }
    match flat.instances.get(k) {
        Some(row) => add_joins_in(edges, flat, modules, k, row),
        None => Ok(()),
    }
}

fn add_instance(
    edges: &mut Edges,
    flat: &Flat,
    modules: &[Module],
    k: usize,
) -> Result<(), AllocError>
    requires { NumbersFit flat.now }
    ensures { OnOk result (edges.new.items ≡ edges.old.items ++ instance_edges modules.now flat.now k) }
{
    add_own(edges, flat, modules, k)?;
    add_joins(edges, flat, modules, k)?;
    Ok(())
}

fn add_instances(edges: &mut Edges, flat: &Flat, modules: &[Module]) -> Result<(), AllocError>
    requires { NumbersFit flat.now }
    ensures { OnOk result (edges.new.items ≡ edges.old.items ++ edges_below (instance_edges modules.now flat.now) (length flat.now.instances.items)) }
{
    for k in 0..flat.instances.len() {
        add_instance(edges, flat, modules, k)?;
    }
    Ok(())
}

fn add_top_answers(
    alloc: Global,
    edges: &mut Edges,
    flat: &Flat,
    ports: &Scope,
) -> Result<(), AllocError>
    requires { NumbersFit flat.now }
    ensures { OnOk result (edges.new.items ≡ edges.old.items ++ top_answers flat.now ports.now) }
{
    match table_at(flat, 0) {
        Some(table) => add_answers(alloc, edges, &table.scope, ports),
        None => Ok(()),
    }
}

fn edges_of(
    alloc: Global,
    flat: &Flat,
    modules: &[Module],
    top: &Module,
) -> Result<Edges, AllocError>
    requires { NumbersFit flat.now }
    ensures { IfOk result (λ e. e.items ≡ all_edges modules.now flat.now top.now) }
{
    let ports = Scope::of_ports(alloc, top.ports())?;
    let mut edges = Vec::new(alloc);
    add_instances(&mut edges, flat, modules)?;
    add_top_answers(alloc, &mut edges, flat, &ports)?;
    Ok(edges)
}

/// The numbers of all nets of a flattened design, each after those of the nets that its net has its number from in the same cycle.
pub fn order_of_nets(alloc: Global, flat: &Flat, design: &Design) -> Result<Vec<usize>, AllocError>
    requires { (m : ModuleTree) → TopOf design.now m → IsFlat design.now.modules m flat.now }
    ensures { IfOk result (λ order. (m : ModuleTree) → TopOf design.now m → IsNetOrder design.now.modules m flat.now order.items) }
{
    let count = flat.owners.len();
    let edges = edges_of(alloc, flat, design.modules(), design.top())?;
    let graph = Graph::of(alloc, count, &edges)?;
    match order_of(alloc, &graph)? {
        Order::PartsFirst(order) => Ok(order),
        Order::Cycle(_) => Ok(Vec::new(alloc)),
    }
}
