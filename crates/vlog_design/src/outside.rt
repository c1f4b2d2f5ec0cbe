// The first name at which the top or a clock breaks a rule.

ghost use Rattle.std.specs.Prelude.{◌≡◌, ◌∷◌, ◌++◌, ◌==◌, ◌&&◌, [], ℕ, List, Bool, Option, false, true, map, bytes_eq, if◌then◌else◌, length, IfOk};
ghost use Rattle.std.specs.Option.{option_copied, option_map_or};
ghost use Rattle.std.specs.List.{flat_map};
ghost use Rattle.vlog_tree.specs.Form.{ModuleTree};
ghost use Rattle.vlog_tree.specs.Table.{first_violation, port_declared, times_in};
ghost use Rattle.vlog_tree.specs.V6.{contained_names, roots, first_name, is_top as is_top_lem, is_whole_top as is_whole_top_lem, top_ports};
ghost use Rattle.vlog_tree.specs.V6.{clock_connection as clock_connection_lem, clock_connections as clock_connections_lem, module_tops, v6_uses};

use crate::top::{first_misfit_port, has_port};
use std::alloc::{AllocError, Global};
use tapa_base::Text;
use vlog_rules::{is_clock, named_if};
use vlog_scope::{Library, Scope};
use vlog_tree::{Connection, Item, Module, PortDecl};

#[tactic(auto, unfolding(vlog_tree::specs::V6::clock_connection))]
fn clock_connection(connection: &Connection) -> Option<&Text>
    ensures { option_copied result ≡ first_violation (clock_connection_lem connection.now ∷ []) }
{
    named_if(
        &connection.port,
        is_clock(&connection.port) && !is_clock(&connection.net),
    )
}

fn connections(connections: &[Connection]) -> Option<&Text>
    ensures { option_copied result ≡ first_violation (map clock_connection_lem connections.now) }
{
    for l in connections {
        if let Some(x) = clock_connection(l) {
            return Some(x);
        }
    }
    None
}

fn item(item: &Item) -> Option<&Text>
    ensures { option_copied result ≡ first_violation (clock_connections_lem item.now) }
{
    match item {
        Item::Instance {
            connections: joins,
            ..
        } => connections(joins.connections()),
        Item::Wire { .. } => None,
        Item::Reg { .. } => None,
        Item::Memory { .. } => None,
        Item::Assign { .. } => None,
        Item::Always(_) => None,
    }
}

fn items(items: &[Item]) -> Option<&Text>
    ensures { option_copied result ≡ first_violation (flat_map clock_connections_lem items.now) }
{
    for i in items {
        if let Some(x) = item(i) {
            return Some(x);
        }
    }
    None
}

/// Whether a module is the top, by its name and that of the first root.
pub(crate) fn is_top(root: Option<&Text>, name: &Text) -> bool
    ensures { result ≡ option_map_or (λ y. bytes_eq y name.now) (option_copied root.entry) false }
{
    match root {
        Some(r) => r.bytes() == name.bytes(),
        None => false,
    }
}

#[tactic(auto, unfolding(vlog_tree::specs::V6::is_whole_top, vlog_tree::specs::Table::clk, vlog_tree::specs::Labels::rst, vlog_tree::specs::Labels::done))]
fn is_whole_top(roots_count: usize, ports: &Scope) -> bool
    ensures { (ms : List ModuleTree) → roots_count ≡ length (roots ms) → result ≡ is_whole_top_lem ms ports.now }
{
    roots_count == 1
        && has_port(ports, b"clk")
        && has_port(ports, b"rst")
        && has_port(ports, b"done")
}

fn ports<'a>(
    alloc: Global,
    top: bool,
    scope: &Scope,
    ports: &'a [PortDecl],
) -> Result<Option<&'a Text>, AllocError>
    ensures { IfOk result (λ o. option_copied o ≡ first_violation (if top then top_ports scope.now [] ports.now else [])) }
{
    if top {
        first_misfit_port(alloc, scope, ports)
    } else {
        Ok(None)
    }
}

#[tactic(auto, using(vlog_tree::proofs::Walks::passes, vlog_tree::proofs::Walks::tells))]
fn ports_and_items<'a>(
    alloc: Global,
    top: bool,
    scope: &Scope,
    m: &'a Module,
) -> Result<Option<&'a Text>, AllocError>
    ensures { IfOk result (λ o. option_copied o ≡ first_violation ((if top then top_ports scope.now [] m.now.ports else []) ++ flat_map clock_connections_lem m.now.items)) }
{
    if let Some(x) = ports(alloc, top, scope, m.ports())? {
        return Ok(Some(x));
    }
    Ok(items(m.items()))
}

#[tactic(auto, unfolding(vlog_tree::specs::V6::module_tops))]
fn module_names<'a>(
    alloc: Global,
    library: &Library,
    top: bool,
    roots_count: usize,
    scope: &Scope,
    m: &'a Module,
) -> Result<Option<&'a Text>, AllocError>
    requires top { top ≡ is_top_lem library.now m.now.name }
    requires roots { roots_count ≡ length (roots library.now) }
    requires scope { scope.now ≡ map port_declared m.now.ports }
    ensures { IfOk result (λ o. option_copied o ≡ first_violation (module_tops library.now m.now)) }
{
    let whole = is_whole_top(roots_count, scope);
    if let Some(x) = named_if(m.name(), top && !whole) {
        return Ok(Some(x));
    }
    ports_and_items(alloc, top, scope, m)
}

/// The first name in the text at which the top module, its ports or the connection of a clock break the rule, where the
/// first root and the number of roots are given.
pub(crate) fn first_misplaced<'a>(
    alloc: Global,
    library: &'a Library,
    root: Option<&Text>,
    roots_count: usize,
) -> Result<Option<&'a Text>, AllocError>
    requires root { option_copied root ≡ first_name (roots library.now) }
    requires roots { roots_count ≡ length (roots library.now) }
    ensures { IfOk result (λ o. option_copied o ≡ first_violation (v6_uses library.now)) }
{
    let modules = library.modules();
    let ports = library.ports();
    for at in 0..modules.len() {
        let m = &modules[at];
        let top = is_top(root, m.name());
        if let Some(x) = module_names(alloc, library, top, roots_count, &ports[at], m)? {
            return Ok(Some(x));
        }
    }
    Ok(None)
}
