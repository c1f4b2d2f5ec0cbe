// What each net of a module depends on within a cycle by the module's own lines, as a graph of names.

ghost use Rattle.std.specs.Prelude.{◌≡◌, ◌++◌, ◌∷◌, [], map, IfOk, OnOk};
ghost use Rattle.std.specs.List.{flat_map};
ghost use Rattle.std.specs.Option.{option_copied};
ghost use Rattle.vlog_tree.specs.Table.{port_declared};
ghost use Rattle.vlog_tree.specs.Loops.{atom_nets, value_nets, port_of, connection_edge, line_edges, answer_edges, memory_edges, direct_edges};
ghost use Rattle.vlog_net_graph.specs.Names.{IsDraftOf, IsListed};
ghost use Rattle.vlog_net_graph.specs.Growth.{Adds};
ghost use Rattle.vlog_net_graph.specs.Merged.{is_named, under};

use crate::names::GraphDraft;
use std::alloc::{AllocError, Global};
use tapa_base::Text;
use vlog_rules::{is_input, is_read};
use vlog_scope::{Library, Scope};
use vlog_tree::{Atom, Connection, Declaration, Item, Module, Value, addr_name, rdata_of};

/// Two texts with a dot between them.
#[tactic(auto, unfolding(vlog_tree::specs::Loops::port_of))]
pub fn dotted(alloc: Global, before: &[u8], behind: &[u8]) -> Result<Vec<u8>, AllocError>
    ensures { IfOk result (λ v. v.items ≡ port_of before.now behind.now) }
{
    let length = before.len().saturating_add(behind.len()).saturating_add(1);
    let mut name = Vec::with_capacity(alloc, length)?;
    name.extend_from_slice(before)?;
    name.push(b'.')?;
    name.extend_from_slice(behind)?;
    Ok(name)
}

/// The name of an instance's port as a wire of the module that has the instance.
pub fn port_name(alloc: Global, instance: &Text, port: &Text) -> Result<Vec<u8>, AllocError>
    ensures { IfOk result (λ v. v.items ≡ port_of instance.now port.now) }
{
    dotted(alloc, instance.bytes(), port.bytes())
}

/// One more edge: the first name depends on the second.
pub fn add_edge(alloc: Global, g: &mut GraphDraft, from: &[u8], to: &[u8]) -> Result<(), AllocError>
    ensures { OnOk result (Adds g.old g.new ((from.now, to.now) ∷ [])) }
{
    g.add_edge(alloc, from, to)?;
    Ok(())
}

/// One more edge, of names in memory of their own.
pub(crate) fn add_owned(
    alloc: Global,
    g: &mut GraphDraft,
    from: Vec<u8>,
    to: Vec<u8>,
) -> Result<(), AllocError>
    ensures { OnOk result (Adds g.old g.new ((from.items, to.items) ∷ [])) }
{
    g.add_owned(alloc, from, to)?;
    Ok(())
}

fn joined(alloc: Global, front: &[u8], behind: &[u8]) -> Result<Vec<u8>, AllocError>
    ensures { IfOk result (λ v. v.items ≡ front.now ++ behind.now) }
{
    let mut name = Vec::with_capacity(alloc, front.len().saturating_add(behind.len()))?;
    name.extend_from_slice(front)?;
    name.extend_from_slice(behind)?;
    Ok(name)
}

/// The name of an instance's port, with a prefix.
#[tactic(auto, unfolding(vlog_tree::specs::Loops::port_of))]
pub(crate) fn port_under(
    alloc: Global,
    front: &[u8],
    instance: &Text,
    port: &Text,
) -> Result<Vec<u8>, AllocError>
    ensures { IfOk result (λ v. v.items ≡ front.now ++ port_of instance.now port.now) }
{
    let (before, behind) = (instance.bytes(), port.bytes());
    let named = before.len().saturating_add(behind.len());
    let length = front.len().saturating_add(named).saturating_add(1);
    let mut name = Vec::with_capacity(alloc, length)?;
    name.extend_from_slice(front)?;
    name.extend_from_slice(before)?;
    name.push(b'.')?;
    name.extend_from_slice(behind)?;
    Ok(name)
}

// One more edge, of names with this prefix.
fn add_under(
    alloc: Global,
    g: &mut GraphDraft,
    front: &[u8],
    from: &[u8],
    to: &[u8],
) -> Result<(), AllocError>
    ensures { OnOk result (Adds g.old g.new (under front.now (from.now, to.now) ∷ [])) }
{
    match front {
        [] => add_edge(alloc, g, from, to),
        _ => {
            let from = joined(alloc, front, from)?;
            let to = joined(alloc, front, to)?;
            add_owned(alloc, g, from, to)
        }
    }
}

fn add_atom(
    alloc: Global,
    g: &mut GraphDraft,
    front: &[u8],
    x: &Text,
    atom: &Atom,
) -> Result<(), AllocError>
    ensures { OnOk result (Adds g.old g.new (map (λ y. under front.now (x.now, y)) (atom_nets atom.now))) }
{
    match atom {
        Atom::Net(y) => add_under(alloc, g, front, x.bytes(), y.bytes()),
        Atom::Part { net: y, .. } => add_under(alloc, g, front, x.bytes(), y.bytes()),
        Atom::Literal { .. } => Ok(()),
    }
}

fn add_two(
    alloc: Global,
    g: &mut GraphDraft,
    front: &[u8],
    x: &Text,
    a: &Atom,
    b: &Atom,
) -> Result<(), AllocError>
    ensures { OnOk result (Adds g.old g.new (map (λ y. under front.now (x.now, y)) (atom_nets a.now ++ atom_nets b.now))) }
{
    add_atom(alloc, g, front, x, a)?;
    add_atom(alloc, g, front, x, b)?;
    Ok(())
}

fn add_three(
    alloc: Global,
    g: &mut GraphDraft,
    front: &[u8],
    x: &Text,
    a: &Atom,
    b: &Atom,
    c: &Atom,
) -> Result<(), AllocError>
    ensures { OnOk result (Adds g.old g.new (map (λ y. under front.now (x.now, y)) (atom_nets a.now ++ (atom_nets b.now ++ atom_nets c.now)))) }
{
    add_atom(alloc, g, front, x, a)?;
    add_two(alloc, g, front, x, b, c)?;
    Ok(())
}

fn add_atoms(
    alloc: Global,
    g: &mut GraphDraft,
    front: &[u8],
    x: &Text,
    atoms: &[Atom],
) -> Result<(), AllocError>
    ensures { OnOk result (Adds g.old g.new (map (λ y. under front.now (x.now, y)) (flat_map atom_nets atoms.now))) }
{
    for a in atoms {
        add_atom(alloc, g, front, x, a)?;
    }
    Ok(())
}

// A driven net depends on the nets of its driver.
fn add_value(
    alloc: Global,
    g: &mut GraphDraft,
    front: &[u8],
    x: &Text,
    value: &Value,
) -> Result<(), AllocError>
    ensures { OnOk result (Adds g.old g.new (map (λ y. under front.now (x.now, y)) (value_nets value.now))) }
{
    match value {
        Value::Plain(a) => add_atom(alloc, g, front, x, a),
        Value::Invert(a) => add_atom(alloc, g, front, x, a),
        Value::Binary {
            left: a,
            right: b,
            ..
        } => add_two(alloc, g, front, x, a, b),
        Value::Choose {
            condition: c,
            yes: a,
            no: b,
        } => add_three(alloc, g, front, x, c, a, b),
        Value::Concat(atoms) => add_atoms(alloc, g, front, x, atoms.atoms()),
        Value::Repeat { atom: a, .. } => add_atom(alloc, g, front, x, a),
        Value::Cell { index: y, .. } => add_under(alloc, g, front, x.bytes(), y.bytes()),
    }
}

// An instance's input depends on its net, and a net on the instance's output.
#[tactic(auto, unfolding(vlog_tree::specs::Loops::connection_edge))]
fn add_connection(
    alloc: Global,
    g: &mut GraphDraft,
    ports: &Scope,
    front: &[u8],
    instance: &Text,
    connection: &Connection,
) -> Result<(), AllocError>
    ensures { OnOk result (Adds g.old g.new (under front.now (connection_edge ports.now instance.now connection.now) ∷ [])) }
{
    let name = port_under(alloc, front, instance, &connection.port)?;
    let net = joined(alloc, front, connection.net.bytes())?;
    if is_input(ports.net_kind(connection.port.bytes())) {
        add_owned(alloc, g, name, net)
    } else {
        add_owned(alloc, g, net, name)
    }
}

fn add_connections(
    alloc: Global,
    g: &mut GraphDraft,
    ports: &Scope,
    front: &[u8],
    instance: &Text,
    connections: &[Connection],
) -> Result<(), AllocError>
    ensures { OnOk result (Adds g.old g.new (map (λ l. under front.now (connection_edge ports.now instance.now l)) connections.now)) }
{
    for l in connections {
        add_connection(alloc, g, ports, front, instance, l)?;
    }
    Ok(())
}

fn add_line(
    alloc: Global,
    g: &mut GraphDraft,
    library: &Library,
    front: &[u8],
    item: &Item,
) -> Result<(), AllocError>
    ensures { OnOk result (Adds g.old g.new (map (under front.now) (line_edges library.now item.now))) }
{
    match item {
        Item::Assign { net: x, value: e } => add_value(alloc, g, front, x, e),
        Item::Instance {
            module: m,
            name: i,
            connections: joins,
        } => {
            let ports = library.ports_named(m);
            add_connections(alloc, g, ports, front, i, joins.connections())
        }
        Item::Wire { .. } => Ok(()),
        Item::Reg { .. } => Ok(()),
        Item::Memory { .. } => Ok(()),
        Item::Always(_) => Ok(()),
    }
}

fn add_lines(
    alloc: Global,
    g: &mut GraphDraft,
    library: &Library,
    front: &[u8],
    items: &[Item],
) -> Result<(), AllocError>
    ensures { OnOk result (Adds g.old g.new (map (under front.now) (flat_map (line_edges library.now) items.now))) }
{
    for item in items {
        add_line(alloc, g, library, front, item)?;
    }
    Ok(())
}

// A memory's read data depends on its address, where the top has ports for both.
fn add_answer(
    alloc: Global,
    g: &mut GraphDraft,
    ports: &Scope,
    front: &[u8],
    d: &Declaration,
) -> Result<(), AllocError>
    ensures { OnOk result (Adds g.old g.new (map (under front.now) (answer_edges ports.now d.now))) }
{
    if !is_input(ports.net_kind(d.name.bytes())) {
        return Ok(());
    }
    match rdata_of(&d.name) {
        Some(label) => {
            let address = addr_name(alloc, label)?;
            if is_read(ports.net_kind(&address)) {
                return add_under(alloc, g, front, d.name.bytes(), &address);
            }
            Ok(())
        }
        None => Ok(()),
    }
}

fn add_answers(
    alloc: Global,
    g: &mut GraphDraft,
    ports: &Scope,
    front: &[u8],
    names: &[Declaration],
) -> Result<(), AllocError>
    ensures { OnOk result (Adds g.old g.new (map (under front.now) (flat_map (answer_edges ports.now) names.now))) }
{
    for d in names {
        add_answer(alloc, g, ports, front, d)?;
    }
    Ok(())
}

fn add_memories(
    alloc: Global,
    g: &mut GraphDraft,
    front: &[u8],
    top: bool,
    m: &Module,
) -> Result<(), AllocError>
    ensures { OnOk result (Adds g.old g.new (map (under front.now) (memory_edges top (map port_declared m.now.ports)))) }
{
    if top {
        let ports = Scope::of_ports(alloc, m.ports())?;
        add_answers(alloc, g, &ports, front, ports.declarations())
    } else {
        Ok(())
    }
}

// Whether a module is the top, by its name and that of the first root.
fn is_top(root: Option<&Text>, name: &Text) -> bool
    ensures { result ≡ is_named (option_copied root.entry) name.now }
{
    match root {
        Some(r) => r.bytes() == name.bytes(),
        None => false,
    }
}

/// What a module's own lines say, and at the top the memories outside: each net with what it depends on, all names with this
/// prefix. `root` is the name of the first module that no other contains.
pub(crate) fn add_direct(
    alloc: Global,
    g: &mut GraphDraft,
    library: &Library,
    root: Option<&Text>,
    front: &[u8],
    m: &Module,
) -> Result<(), AllocError>
    ensures { OnOk result (Adds g.old g.new (map (under front.now) (direct_edges library.now (is_named (option_copied root.entry)) m.now))) }
{
    add_lines(alloc, g, library, front, m.items())?;
    add_memories(alloc, g, front, is_top(root, m.name()), m)?;
    Ok(())
}

/// What a module's own lines say, and at the top the memories outside: each net with what it depends on. `root` is the name of the
/// first module that no other contains.
pub fn direct_draft(
    alloc: Global,
    library: &Library,
    root: Option<&Text>,
    m: &Module,
) -> Result<GraphDraft, AllocError>
    ensures graph { IfOk result (λ g. IsDraftOf (direct_edges library.now (is_named (option_copied root.entry)) m.now) g) }
    ensures listed { IfOk result (λ g. IsListed g) }
{
    let mut g = GraphDraft::new(alloc);
    add_direct(alloc, &mut g, library, root, &[], m)?;
    Ok(g)
}
