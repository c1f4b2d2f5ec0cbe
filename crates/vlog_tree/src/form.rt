// Whether lists have the form of a module.

ghost use Rattle.std.specs.Prelude.{◌≡◌, List, [], ◌∷◌, IfOk, reverse, false, if◌then◌else◌};
ghost use Rattle.std.specs.List.{list_all};
ghost use Rattle.vlog_tree.specs.declared.tree.Step.{Step as StepTree};
ghost use Rattle.vlog_tree.specs.Form.{is_atom as is_atom_lem, is_value as is_value_lem, is_step as is_step_lem, is_connection as is_connection_lem, is_item as is_item_lem};
ghost use Rattle.vlog_tree.specs.Form.{is_port as is_port_lem, is_module as is_module_lem, nested as nested_lem};

use crate::names::is_name;
use crate::tree::{Atom, Connection, Item, PortDecl, Step, Value};
use std::alloc::{AllocError, Global};
use tapa_base::Text;

fn is_atom(atom: &Atom) -> bool
    ensures { result ≡ is_atom_lem atom.now }
{
    match atom {
        Atom::Net(x) => is_name(x.bytes()),
        Atom::Part { net: x, .. } => is_name(x.bytes()),
        Atom::Literal { .. } => true,
    }
}

fn are_atoms(atoms: &[Atom]) -> bool
    ensures { result ≡ list_all is_atom_lem atoms.now }
{
    atoms.iter().all(|a| is_atom(a))
}

fn is_value(value: &Value) -> bool
    ensures { result ≡ is_value_lem value.now }
{
    match value {
        Value::Plain(a) => is_atom(a),
        Value::Invert(a) => is_atom(a),
        Value::Binary {
            left: a,
            right: b,
            ..
        } => is_atom(a) && is_atom(b),
        Value::Choose {
            condition: c,
            yes: a,
            no: b,
        } => is_atom(c) && is_atom(a) && is_atom(b),
        Value::Concat(atoms) => 2 <= atoms.atoms().len() && are_atoms(atoms.atoms()),
        Value::Repeat { atom: a, .. } => is_atom(a),
        Value::Cell {
            memory: m,
            index: x,
        } => is_name(m.bytes()) && is_name(x.bytes()),
    }
}

fn is_step(step: &Step) -> bool
    ensures { result ≡ is_step_lem step.now }
{
    match step {
        Step::If(c) => is_name(c.bytes()),
        Step::Else => true,
        Step::End => true,
        Step::NonblockingAssign {
            register: x,
            value: a,
        } => is_name(x.bytes()) && is_atom(a),
        Step::MemoryAssign {
            memory: m,
            index: x,
            value: a,
        } => { is_name(m.bytes()) && is_name(x.bytes()) && is_atom(a) }
    }
}

fn are_steps(steps: &[Step]) -> bool
    ensures { result ≡ list_all is_step_lem steps.now }
{
    steps.iter().all(|s| is_step(s))
}

fn is_connection(connection: &Connection) -> bool
    ensures { result ≡ is_connection_lem connection.now }
{
    is_name(connection.port.bytes()) && is_name(connection.net.bytes())
}

fn are_connections(connections: &[Connection]) -> bool
    ensures { result ≡ list_all is_connection_lem connections.now }
{
    connections.iter().all(|l| is_connection(l))
}

// One step more: whether it is nested in the parts that are open, of each of which the list says whether it is an `Else`.
#[tactic(auto, using(crate::proofs::Nesting::reverse_push))]
fn is_nested_step(parts: &mut Vec<bool>, step: &Step) -> Result<bool, AllocError>
    ensures { (rest : List StepTree) → IfOk result (λ fits. nested_lem (reverse parts.old.items) (step.now ∷ rest) ≡ (if fits then nested_lem (reverse parts.new.items) rest else false)) }
{
    match step {
        Step::If(_) => {
            parts.push(false)?;
            Ok(true)
        }
        Step::Else => match parts.pop() {
            Some(false) => {
                parts.push(true)?;
                Ok(true)
            }
            Some(true) => Ok(false),
            None => Ok(false),
        },
        Step::End => Ok(parts.pop().is_some()),
        Step::NonblockingAssign { .. } => Ok(true),
        Step::MemoryAssign { .. } => Ok(true),
    }
}

fn are_nested(alloc: Global, steps: &[Step]) -> Result<bool, AllocError>
    ensures { IfOk result (λ b. b ≡ nested_lem [] steps.now) }
{
    let mut parts = Vec::new(alloc);
    for step in steps {
        if !is_nested_step(&mut parts, step)? {
            return Ok(false);
        }
    }
    Ok(parts.is_empty())
}

fn is_item(alloc: Global, item: &Item) -> Result<bool, AllocError>
    ensures { IfOk result (λ b. b ≡ is_item_lem item.now) }
{
    match item {
        Item::Wire {
            width: bits,
            name: x,
        } => Ok(1 <= *bits && is_name(x.bytes())),
        Item::Reg {
            width: bits,
            name: x,
        } => Ok(1 <= *bits && is_name(x.bytes())),
        Item::Memory {
            width: bits,
            name: x,
            cells,
        } => Ok(1 <= *bits && is_name(x.bytes()) && 1 <= *cells),
        Item::Assign { net: x, value: e } => Ok(is_name(x.bytes()) && is_value(e)),
        Item::Always(b) => Ok(are_nested(alloc, b.steps())? && are_steps(b.steps())),
        Item::Instance {
            module: m,
            name: i,
            connections: joins,
        } => Ok(
            is_name(m.bytes())
                && is_name(i.bytes())
                && 1 <= joins.connections().len()
                && are_connections(joins.connections()),
        ),
    }
}

fn are_items(alloc: Global, items: &[Item]) -> Result<bool, AllocError>
    ensures { IfOk result (λ b. b ≡ list_all is_item_lem items.now) }
{
    for item in items {
        if !is_item(alloc, item)? {
            return Ok(false);
        }
    }
    Ok(true)
}

fn is_port(port: &PortDecl) -> bool
    ensures { result ≡ is_port_lem port.now }
{
    1 <= port.width && is_name(port.name.bytes())
}

fn are_ports(ports: &[PortDecl]) -> bool
    ensures { result ≡ list_all is_port_lem ports.now }
{
    ports.iter().all(|p| is_port(p))
}

/// Whether a name, ports and items have the form of a module.
pub(crate) fn is_module(
    alloc: Global,
    name: &Text,
    ports: &[PortDecl],
    items: &[Item],
) -> Result<bool, AllocError>
    ensures { IfOk result (λ b. b ≡ is_module_lem (record { name = name.now; ports = ports.now; items = items.now })) }
{
    Ok(is_name(name.bytes()) && 1 <= ports.len() && are_ports(ports) && are_items(alloc, items)?)
}
