// From the nets of an instance to those that they have their numbers from in the same cycle, as edges between numbers.

ghost use Rattle.std.specs.Prelude.{◌≡◌, ◌+◌, ◌<◌, ◌^◌, ◌++◌, ◌∷◌, [], OnOk, length, option_to_list};
ghost use Rattle.std.specs.List.{flat_map};
ghost use Rattle.vlog_tree.specs.Loops.{atom_nets, value_nets};
ghost use Rattle.sim_flat.specs.Edges.{net_edges, assign_edges, connection_edge, answer_edges};

use crate::places::{both, number_in};
use std::alloc::{AllocError, Global};
use tapa_base::Text;
use vlog_rules::{is_input, is_read};
use vlog_scope::Scope;
use vlog_tree::{Atom, Connection, Declaration, Item, Value, addr_name, rdata_of};

/// Edges, each from a net's number to that of a net that it has its number from.
pub type Edges = Vec<(usize, usize)>;

fn add_edge(edges: &mut Edges, edge: Option<(usize, usize)>) -> Result<(), AllocError>
    ensures { OnOk result (edges.new.items ≡ edges.old.items ++ option_to_list edge) }
{
    match edge {
        Some(e) => {
            edges.push(e)?;
            Ok(())
        }
        None => Ok(()),
    }
}

fn add_name(
    edges: &mut Edges,
    base: usize,
    scope: &Scope,
    from: &Text,
    name: &Text,
) -> Result<(), AllocError>
    requires { base + length scope.now < 2 ^ 64 }
    ensures { OnOk result (edges.new.items ≡ edges.old.items ++ net_edges base scope.now from.now (name.now ∷ [])) }
{
    let edge = both(number_in(base, scope, from), number_in(base, scope, name));
    add_edge(edges, edge)?;
    Ok(())
}

fn add_atom(
    edges: &mut Edges,
    base: usize,
    scope: &Scope,
    from: &Text,
    atom: &Atom,
) -> Result<(), AllocError>
    requires { base + length scope.now < 2 ^ 64 }
    ensures { OnOk result (edges.new.items ≡ edges.old.items ++ net_edges base scope.now from.now (atom_nets atom.now)) }
{
    match atom {
        Atom::Net(x) => add_name(edges, base, scope, from, x),
        Atom::Part { net: x, .. } => add_name(edges, base, scope, from, x),
        Atom::Literal { .. } => Ok(()),
    }
}

fn add_two(
    edges: &mut Edges,
    base: usize,
    scope: &Scope,
    from: &Text,
    a: &Atom,
    b: &Atom,
) -> Result<(), AllocError>
    requires { base + length scope.now < 2 ^ 64 }
    ensures { OnOk result (edges.new.items ≡ edges.old.items ++ net_edges base scope.now from.now (atom_nets a.now ++ atom_nets b.now)) }
{
    add_atom(edges, base, scope, from, a)?;
    add_atom(edges, base, scope, from, b)?;
    Ok(())
}

fn add_three(
    edges: &mut Edges,
    base: usize,
    scope: &Scope,
    from: &Text,
    a: &Atom,
    b: &Atom,
    c: &Atom,
) -> Result<(), AllocError>
    requires { base + length scope.now < 2 ^ 64 }
    ensures { OnOk result (edges.new.items ≡ edges.old.items ++ net_edges base scope.now from.now (atom_nets a.now ++ (atom_nets b.now ++ atom_nets c.now))) }
{
    add_atom(edges, base, scope, from, a)?;
    add_two(edges, base, scope, from, b, c)?;
    Ok(())
}

fn add_atoms(
    edges: &mut Edges,
    base: usize,
    scope: &Scope,
    from: &Text,
    atoms: &[Atom],
) -> Result<(), AllocError>
    requires { base + length scope.now < 2 ^ 64 }
    ensures { OnOk result (edges.new.items ≡ edges.old.items ++ net_edges base scope.now from.now (flat_map atom_nets atoms.now)) }
{
    for a in atoms {
        add_atom(edges, base, scope, from, a)?;
    }
    Ok(())
}

// From a driven net to those of its driver.
fn add_value(
    edges: &mut Edges,
    base: usize,
    scope: &Scope,
    from: &Text,
    value: &Value,
) -> Result<(), AllocError>
    requires { base + length scope.now < 2 ^ 64 }
    ensures { OnOk result (edges.new.items ≡ edges.old.items ++ net_edges base scope.now from.now (value_nets value.now)) }
{
    match value {
        Value::Plain(a) => add_atom(edges, base, scope, from, a),
        Value::Invert(a) => add_atom(edges, base, scope, from, a),
        Value::Binary {
            left: a,
            right: b,
            ..
        } => add_two(edges, base, scope, from, a, b),
        Value::Choose {
            condition: c,
            yes: a,
            no: b,
        } => add_three(edges, base, scope, from, c, a, b),
        Value::Concat(atoms) => add_atoms(edges, base, scope, from, atoms.atoms()),
        Value::Repeat { atom: a, .. } => add_atom(edges, base, scope, from, a),
        Value::Cell { index: y, .. } => add_name(edges, base, scope, from, y),
    }
}

fn add_assign(edges: &mut Edges, base: usize, scope: &Scope, item: &Item) -> Result<(), AllocError>
    requires { base + length scope.now < 2 ^ 64 }
    ensures { OnOk result (edges.new.items ≡ edges.old.items ++ assign_edges base scope.now item.now) }
{
    match item {
        Item::Assign { net: x, value: e } => add_value(edges, base, scope, x, e),
        Item::Wire { .. } => Ok(()),
        Item::Reg { .. } => Ok(()),
        Item::Memory { .. } => Ok(()),
        Item::Always(_) => Ok(()),
        Item::Instance { .. } => Ok(()),
    }
}

/// The edges of the drivers among the lines of an instance, whose nets have numbers from a first one on.
pub fn add_assigns(
    edges: &mut Edges,
    base: usize,
    scope: &Scope,
    items: &[Item],
) -> Result<(), AllocError>
    requires { base + length scope.now < 2 ^ 64 }
    ensures { OnOk result (edges.new.items ≡ edges.old.items ++ flat_map (assign_edges base scope.now) items.now) }
{
    for item in items {
        add_assign(edges, base, scope, item)?;
    }
    Ok(())
}

// An input depends on the net around that it is connected to, and a net on an output.
fn add_connection(
    edges: &mut Edges,
    base: usize,
    scope: &Scope,
    base_inside: usize,
    inside: &Scope,
    connection: &Connection,
) -> Result<(), AllocError>
    requires around { base + length scope.now < 2 ^ 64 }
    requires inside { base_inside + length inside.now < 2 ^ 64 }
    ensures { OnOk result (edges.new.items ≡ edges.old.items ++ connection_edge base scope.now base_inside inside.now connection.now) }
{
    let port = number_in(base_inside, inside, &connection.port);
    let net = number_in(base, scope, &connection.net);
    if is_input(inside.net_kind(connection.port.bytes())) {
        add_edge(edges, both(port, net))
    } else {
        add_edge(edges, both(net, port))
    }
}

/// The edges of the connections of an instance in another.
pub fn add_connections(
    edges: &mut Edges,
    base: usize,
    scope: &Scope,
    base_inside: usize,
    inside: &Scope,
    connections: &[Connection],
) -> Result<(), AllocError>
    requires around { base + length scope.now < 2 ^ 64 }
    requires inside { base_inside + length inside.now < 2 ^ 64 }
    ensures { OnOk result (edges.new.items ≡ edges.old.items ++ flat_map (connection_edge base scope.now base_inside inside.now) connections.now) }
{
    for l in connections {
        add_connection(edges, base, scope, base_inside, inside, l)?;
    }
    Ok(())
}

// A memory's read data depends on its address, where the top has ports for both.
fn add_answer(
    alloc: Global,
    edges: &mut Edges,
    scope: &Scope,
    ports: &Scope,
    d: &Declaration,
) -> Result<(), AllocError>
    requires { length scope.now < 2 ^ 64 }
    ensures { OnOk result (edges.new.items ≡ edges.old.items ++ answer_edges scope.now ports.now d.now) }
{
    if !is_input(ports.net_kind(d.name.bytes())) {
        return Ok(());
    }
    match rdata_of(&d.name) {
        Some(label) => {
            let address = Text::new(addr_name(alloc, label)?);
            if is_read(ports.net_kind(address.bytes())) {
                return add_name(edges, 0, scope, &d.name, &address);
            }
            Ok(())
        }
        None => Ok(()),
    }
}

/// The edges of the memories at the ports of the top, whose nets have the first numbers.
pub fn add_answers(
    alloc: Global,
    edges: &mut Edges,
    scope: &Scope,
    ports: &Scope,
) -> Result<(), AllocError>
    requires { length scope.now < 2 ^ 64 }
    ensures { OnOk result (edges.new.items ≡ edges.old.items ++ flat_map (answer_edges scope.now ports.now) ports.now) }
{
    for d in ports.declarations() {
        add_answer(alloc, edges, scope, ports, d)?;
    }
    Ok(())
}
