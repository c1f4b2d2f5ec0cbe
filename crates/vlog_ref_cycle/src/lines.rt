// The lines of a module that give a net its number.

ghost use Rattle.std.specs.Prelude.{◌≡◌, ◌∷◌, ◌++◌, [], map, OnOk, IfOk};
ghost use Rattle.std.specs.Option.{option_copied, option_map};
ghost use Rattle.std.specs.List.{flat_map};
ghost use Rattle.vlog_tree.specs.Table.{port_declared, ports_of as ports_of_lem};
ghost use Rattle.vlog_tree.specs.Loops.{atom_nets, value_nets};
ghost use Rattle.vlog_ref_cycle.specs.Sources.{assigned_in as assigned_in_lem, output_in as output_in_lem, joined_in as joined_in_lem, assigned as assigned_lem};
ghost use Rattle.vlog_ref_cycle.specs.Sources.{connection_out as connection_out_lem, output_of as output_of_lem, pair_of, connection_in as connection_in_lem};
ghost use Rattle.vlog_ref_cycle.specs.Sources.{joined_to as joined_to_lem, net_read, are_read as are_read_lem, has_cells as has_cells_lem};

use crate::places::module_named;
use std::alloc::{AllocError, Global};
use tapa_base::Text;
use vlog_tree::{Atom, Connection, Item, Module, Value};
use vlog_values::{MemoryCells, NetNumber, Scope, find_memory, is_input, is_read};

fn assigned_in<'a>(item: &'a Item, x: &Text) -> Option<&'a Value>
    ensures { option_copied result ≡ assigned_in_lem item.now x.now }
{
    match item {
        Item::Assign { net: y, value: e } => {
            if y.bytes() == x.bytes() {
                Some(e)
            } else {
                None
            }
        }
        Item::Wire { .. } => None,
        Item::Reg { .. } => None,
        Item::Memory { .. } => None,
        Item::Always(_) => None,
        Item::Instance { .. } => None,
    }
}

/// The driver of the first assignment to a net.
pub(crate) fn assigned<'a>(items: &'a [Item], x: &Text) -> Option<&'a Value>
    ensures { option_copied result ≡ assigned_lem items.now x.now }
{
    for item in items {
        if let Some(e) = assigned_in(item, x) {
            return Some(e);
        }
    }
    None
}

// The first port, no input, that is connected to a net.
fn connection_out<'a>(ports: &Scope, connections: &'a [Connection], x: &Text) -> Option<&'a Text>
    ensures { option_copied result ≡ connection_out_lem ports.now connections.now x.now }
{
    for l in connections {
        if l.net.bytes() == x.bytes() && !is_input(ports.net_kind(l.port.bytes())) {
            return Some(&l.port);
        }
    }
    None
}

fn ports_of<'a>(modules: &'a [Module], name: &Text) -> Scope<'a>
    ensures { result ≡ map port_declared (ports_of_lem modules.now name.now) }
{
    match module_named(modules, name) {
        Some(m) => Scope::of_ports(m.ports()),
        None => Scope::of_ports(&[]),
    }
}

fn output_in<'a>(modules: &[Module], item: &'a Item, x: &Text) -> Option<(&'a Text, &'a Text)>
    ensures { option_map pair_of result ≡ output_in_lem modules.now item.now x.now }
{
    match item {
        Item::Instance {
            module: m,
            name: i,
            connections,
        } => {
            let ports = ports_of(modules, m);
            match connection_out(&ports, connections.connections(), x) {
                Some(p) => Some((i, p)),
                None => None,
            }
        }
        Item::Assign { .. } => None,
        Item::Wire { .. } => None,
        Item::Reg { .. } => None,
        Item::Memory { .. } => None,
        Item::Always(_) => None,
    }
}

/// The first instance, and its port, that drives a net.
pub(crate) fn output_of<'a>(
    modules: &[Module],
    items: &'a [Item],
    x: &Text,
) -> Option<(&'a Text, &'a Text)>
    ensures { option_map pair_of result ≡ output_of_lem modules.now items.now x.now }
{
    for item in items {
        if let Some(p) = output_in(modules, item, x) {
            return Some(p);
        }
    }
    None
}

fn connection_in<'a>(connections: &'a [Connection], x: &Text) -> Option<&'a Text>
    ensures { option_copied result ≡ connection_in_lem connections.now x.now }
{
    for l in connections {
        if l.port.bytes() == x.bytes() {
            return Some(&l.net);
        }
    }
    None
}

fn joined_in<'a>(item: &'a Item, instance: &Text, x: &Text) -> Option<&'a Text>
    ensures { option_copied result ≡ joined_in_lem item.now instance.now x.now }
{
    match item {
        Item::Instance {
            name: i,
            connections,
            ..
        } => {
            if i.bytes() == instance.bytes() {
                connection_in(connections.connections(), x)
            } else {
                None
            }
        }
        Item::Assign { .. } => None,
        Item::Wire { .. } => None,
        Item::Reg { .. } => None,
        Item::Memory { .. } => None,
        Item::Always(_) => None,
    }
}

/// The net that a port of an instance is connected to.
pub(crate) fn joined_to<'a>(items: &'a [Item], instance: &Text, x: &Text) -> Option<&'a Text>
    ensures { option_copied result ≡ joined_to_lem items.now instance.now x.now }
{
    for item in items {
        if let Some(net) = joined_in(item, instance, x) {
            return Some(net);
        }
    }
    None
}

/// One more net to be read, with its width; its number is not known yet.
pub(crate) fn add_net(
    alloc: Global,
    scope: &Scope,
    out: &mut Vec<NetNumber>,
    x: &Text,
) -> Result<(), AllocError>
    ensures { OnOk result (out.new.items ≡ out.old.items ++ net_read scope.now x.now ∷ []) }
{
    let bits = scope.bits(x.bytes());
    let name = x.copy(alloc)?;
    out.push(NetNumber {
        name,
        bits,
        number: 0,
    })?;
    Ok(())
}

/// The nets of an atom to be read.
pub(crate) fn add_atom(
    alloc: Global,
    scope: &Scope,
    out: &mut Vec<NetNumber>,
    atom: &Atom,
) -> Result<(), AllocError>
    ensures { OnOk result (out.new.items ≡ out.old.items ++ map (net_read scope.now) (atom_nets atom.now)) }
{
    match atom {
        Atom::Net(x) => add_net(alloc, scope, out, x),
        Atom::Part { net: x, .. } => add_net(alloc, scope, out, x),
        Atom::Literal { .. } => Ok(()),
    }
}

fn add_atoms(
    alloc: Global,
    scope: &Scope,
    out: &mut Vec<NetNumber>,
    atoms: &[Atom],
) -> Result<(), AllocError>
    ensures { OnOk result (out.new.items ≡ out.old.items ++ map (net_read scope.now) (flat_map atom_nets atoms.now)) }
{
    for a in atoms {
        add_atom(alloc, scope, out, a)?;
    }
    Ok(())
}

/// The nets of a driver to be read.
pub(crate) fn value_reads(
    alloc: Global,
    scope: &Scope,
    value: &Value,
) -> Result<Vec<NetNumber>, AllocError>
    ensures { IfOk result (λ v. v.items ≡ map (net_read scope.now) (value_nets value.now)) }
{
    let mut out = Vec::new(alloc);
    match value {
        Value::Plain(a) => add_atom(alloc, scope, &mut out, a)?,
        Value::Invert(a) => add_atom(alloc, scope, &mut out, a)?,
        Value::Binary {
            left: a,
            right: b,
            ..
        } => {
            add_atom(alloc, scope, &mut out, a)?;
            add_atom(alloc, scope, &mut out, b)?;
        }
        Value::Choose {
            condition: c,
            yes: a,
            no: b,
        } => {
            add_atom(alloc, scope, &mut out, c)?;
            add_atom(alloc, scope, &mut out, a)?;
            add_atom(alloc, scope, &mut out, b)?;
        }
        Value::Concat(atoms) => add_atoms(alloc, scope, &mut out, atoms.atoms())?,
        Value::Repeat { atom: a, .. } => add_atom(alloc, scope, &mut out, a)?,
        Value::Cell { index: x, .. } => add_net(alloc, scope, &mut out, x)?,
    }
    Ok(out)
}

/// Whether each is a net that a module can read.
pub(crate) fn are_read(scope: &Scope, nets: &[NetNumber]) -> bool
    ensures { result ≡ are_read_lem scope.now nets.now }
{
    for n in nets {
        if !is_read(scope.net_kind(n.name.bytes())) {
            return false;
        }
    }
    true
}

/// Whether the memory that a driver reads is there.
pub(crate) fn has_cells(memories: &[MemoryCells], value: &Value) -> bool
    ensures { result ≡ has_cells_lem memories.now value.now }
{
    match value {
        Value::Cell { memory: m, .. } => find_memory(memories, m).is_some(),
        Value::Plain(_) => true,
        Value::Invert(_) => true,
        Value::Binary { .. } => true,
        Value::Choose { .. } => true,
        Value::Concat(_) => true,
        Value::Repeat { .. } => true,
    }
}
