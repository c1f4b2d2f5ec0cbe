// What each module has, by indices: of its names, and of its instances.

ghost use Rattle.std.specs.Prelude.{◌≡◌, ◌+◌, ◌++◌, ◌∷◌, [], List, Some, None, IfOk, OnOk, length, map, replicate, slice_set, option_to_list};
ghost use Rattle.std.specs.List.{flat_map};
ghost use Rattle.vlog_tree.specs.Form.{ModuleTree};
ghost use Rattle.tapa_base.specs.Lists.{Has};
ghost use Rattle.vlog_tree.specs.Refused.{IsSound};
ghost use Rattle.vlog_tree.specs.Loops.{item_instances};
ghost use Rattle.vlog_tree.specs.Table.{declared, module_declared};
ghost use Rattle.sim_flat.specs.Tables.{AreTables, AreTablesOf, IsTable};
ghost use Rattle.sim_flat.specs.Written.{written, source_by, first_source as first_source_lem, inner_names, AreScopes, join_of as join_lem, output_of as output_lem};
ghost use Rattle.sim_flat.specs.Written.{join_writes, output_writes, joined_of as joined_lem, line_writes, lines_writes, line_children, lines_children, child_rows};

use crate::kinds::place_of;
use crate::places::{both, place_in};
use std::alloc::{AllocError, Global};
use tapa_base::Text;
use vlog_design::Design;
use vlog_rules::{is_clock, is_input};
use vlog_scope::Scope;
use vlog_tree::{Connection, Item, Module, NetKind};

/// An instance in a module: the index of its line among the module's lines, and by the index of an input of its module the
/// index of the net that the input is connected to.
#[derive(Drop)]
pub struct Child {
    pub line: usize,
    pub joined: Vec<Option<usize>>,
}

/// The source of the number of a name in a module: nothing if the name is the clock, a memory or an instance; the name itself if it is a register; the outside
/// if it is an input; the driver of a line; or a port of an instance.
#[derive(Clone, Copy)]
pub enum Source {
    Nothing,
    Register,
    Input,
    Line(usize),
    Child { child: usize, port: usize },
}

/// The names of a module, its instances in the order of the text, and what each name has its number from.
#[derive(Drop)]
pub struct Table {
    pub scope: Scope,
    pub children: Vec<Child>,
    pub sources: Vec<Source>,
}

/// The names of all modules, those that each declares, and none for a module that is not there.
#[derive(Drop)]
pub struct Scopes<'a> {
    pub names: &'a Scope,
    pub scopes: &'a [Scope],
    pub none: Scope,
}

fn first_source(name: &Text, net_kind: NetKind) -> Source
    ensures { result ≡ source_by name.now net_kind }
{
    match net_kind {
        NetKind::Register => Source::Register,
        NetKind::Input => {
            if is_clock(name) {
                Source::Nothing
            } else {
                Source::Input
            }
        }
        NetKind::Unknown => Source::Nothing,
        NetKind::Output => Source::Nothing,
        NetKind::WireNet => Source::Nothing,
        NetKind::MemoryArray => Source::Nothing,
        NetKind::ChildInstance => Source::Nothing,
    }
}

fn first_sources(alloc: Global, scope: &Scope) -> Result<Vec<Source>, AllocError>
    ensures { IfOk result (λ v. v.items ≡ map first_source_lem scope.now) }
{
    let mut sources = Vec::new(alloc);
    for d in scope.declarations() {
        sources.push(first_source(&d.name, d.net_kind))?;
    }
    Ok(sources)
}

fn scopes_of(alloc: Global, design: &Design) -> Result<Scopes<'_>, AllocError>
    ensures { IfOk result (λ s. AreScopes design.now.modules s) }
{
    let names = design.names();
    let scopes = design.scopes();
    let none = Scope::of_ports(alloc, &[])?;
    Ok(Scopes {
        names,
        scopes,
        none,
    })
}

// The names that an instance's module declares.
fn inner_scope<'a>(scopes: &'a Scopes<'a>, kind: &Text) -> &'a Scope
    ensures { result.now ≡ inner_names scopes.now kind.now }
{
    let place = place_of(scopes.names, kind);
    match scopes.scopes.get(place) {
        Some(scope) => scope,
        None => &scopes.none,
    }
}

#[tactic(auto, using(std::proofs::lemmas::List::set_past))]
fn set_source(sources: &mut Vec<Source>, place: usize, source: Source)
    ensures { sources.new.items ≡ slice_set sources.old.items place source }
{
    if place < sources.len() {
        sources[place] = source;
    }
}

#[tactic(auto, using(std::proofs::lemmas::List::set_past))]
fn set_joined(joined: &mut Vec<Option<usize>>, place: usize, net: usize)
    ensures { joined.new.items ≡ slice_set joined.old.items place (Some net) }
{
    if place < joined.len() {
        joined[place] = Some(net);
    }
}

// The indices of an input of an instance and of the net that it is connected to.
fn join_of(inner: &Scope, scope: &Scope, connection: &Connection) -> Option<(usize, usize)>
    ensures { result ≡ join_lem inner.now scope.now connection.now }
{
    if is_input(inner.net_kind(connection.port.bytes())) {
        both(
            place_in(inner, &connection.port),
            place_in(scope, &connection.net),
        )
    } else {
        None
    }
}

// The indices of an output of an instance and of the net that it drives.
fn output_of(inner: &Scope, scope: &Scope, connection: &Connection) -> Option<(usize, usize)>
    ensures { result ≡ output_lem inner.now scope.now connection.now }
{
    if is_input(inner.net_kind(connection.port.bytes())) {
        None
    } else {
        both(
            place_in(inner, &connection.port),
            place_in(scope, &connection.net),
        )
    }
}

fn join(inner: &Scope, scope: &Scope, connection: &Connection, joined: &mut Vec<Option<usize>>)
    ensures { joined.new.items ≡ written (join_writes inner.now scope.now connection.now) joined.old.items }
{
    match join_of(inner, scope, connection) {
        Some((port, net)) => set_joined(joined, port, net),
        None => (),
    }
}

fn drive(
    inner: &Scope,
    scope: &Scope,
    child: usize,
    connection: &Connection,
    sources: &mut Vec<Source>,
)
    ensures { sources.new.items ≡ written (output_writes inner.now scope.now child connection.now) sources.old.items }
{
    match output_of(inner, scope, connection) {
        Some((port, net)) => set_source(sources, net, Source::Child { child, port }),
        None => (),
    }
}

fn joined_of(
    alloc: Global,
    inner: &Scope,
    scope: &Scope,
    connections: &[Connection],
) -> Result<Vec<Option<usize>>, AllocError>
    ensures { IfOk result (λ v. v.items ≡ joined_lem inner.now scope.now connections.now) }
{
    let mut joined = vec![in alloc; None; inner.declarations().len()]?;
    for l in connections {
        join(inner, scope, l, &mut joined);
    }
    Ok(joined)
}

fn drive_all(
    inner: &Scope,
    scope: &Scope,
    child: usize,
    connections: &[Connection],
    sources: &mut Vec<Source>,
)
    ensures { sources.new.items ≡ written (flat_map (output_writes inner.now scope.now child) connections.now) sources.old.items }
{
    for l in connections {
        drive(inner, scope, child, l, sources);
    }
}

fn add_child(
    children: &mut Vec<Child>,
    line: usize,
    joined: Vec<Option<usize>>,
) -> Result<(), AllocError>
    ensures rows { OnOk result (child_rows children.new.items ≡ child_rows children.old.items ++ (line, joined.items) ∷ []) }
    ensures count { OnOk result (length children.new.items ≡ length children.old.items + 1) }
{
    children.push(Child { line, joined })?;
    Ok(())
}

fn add_line(
    alloc: Global,
    scopes: &Scopes,
    scope: &Scope,
    line: usize,
    item: &Item,
    children: &mut Vec<Child>,
    sources: &mut Vec<Source>,
) -> Result<(), AllocError>
    ensures sources { OnOk result (sources.new.items ≡ written (line_writes scopes.now scope.now line (length children.old.items) item.now) sources.old.items) }
    ensures rows { OnOk result (child_rows children.new.items ≡ child_rows children.old.items ++ line_children scopes.now scope.now line item.now) }
    ensures count { OnOk result (length children.new.items ≡ length children.old.items + length (item_instances item.now)) }
{
    match item {
        Item::Assign { net, .. } => {
            if let Some(place) = place_in(scope, net) {
                set_source(sources, place, Source::Line(line));
            }
            Ok(())
        }
        Item::Instance {
            module: kind,
            connections: joins,
            ..
        } => {
            let inner = inner_scope(scopes, kind);
            drive_all(inner, scope, children.len(), joins.connections(), sources);
            let joined = joined_of(alloc, inner, scope, joins.connections())?;
            add_child(children, line, joined)
        }
        Item::Wire { .. } => Ok(()),
        Item::Reg { .. } => Ok(()),
        Item::Memory { .. } => Ok(()),
        Item::Always(_) => Ok(()),
    }
}

fn add_lines(
    alloc: Global,
    scopes: &Scopes,
    scope: &Scope,
    items: &[Item],
    children: &mut Vec<Child>,
    sources: &mut Vec<Source>,
) -> Result<(), AllocError>
    requires { length children.old.items ≡ 0 }
    ensures sources { OnOk result (sources.new.items ≡ written (lines_writes scopes.now scope.now 0 0 items.now) sources.old.items) }
    ensures rows { OnOk result (child_rows children.new.items ≡ lines_children scopes.now scope.now 0 items.now) }
{
    for (line, item) in items.iter().enumerate() {
        add_line(alloc, scopes, scope, line, item, children, sources)?;
    }
    Ok(())
}

fn table_of(alloc: Global, scopes: &Scopes, m: &Module) -> Result<Table, AllocError>
    ensures { IfOk result (λ t. (ms : List ModuleTree) → AreScopes ms scopes.now → IsSound ms → Has ms m.now → IsTable ms m.now t) }
{
    let scope = Scope::of_module(alloc, m)?;
    let mut sources = first_sources(alloc, &scope)?;
    let mut children = Vec::new(alloc);
    add_lines(
        alloc,
        scopes,
        &scope,
        m.items(),
        &mut children,
        &mut sources,
    )?;
    Ok(Table {
        scope,
        children,
        sources,
    })
}

fn all_tables(alloc: Global, scopes: &Scopes, modules: &[Module]) -> Result<Vec<Table>, AllocError>
    requires { AreScopes modules.now scopes.now }
    ensures { IfOk result (λ v. IsSound modules.now → AreTables modules.now v.items) }
{
    let mut tables = Vec::new(alloc);
    for m in modules {
        let table = table_of(alloc, scopes, m)?;
        tables.push(table)?;
    }
    Ok(tables)
}

/// The table of each module of a design, in the order of the modules.
pub fn tables_of(alloc: Global, design: &Design) -> Result<Vec<Table>, AllocError>
    ensures { IfOk result (λ v. IsSound design.now.modules → AreTables design.now.modules v.items) }
{
    let scopes = scopes_of(alloc, design)?;
    all_tables(alloc, &scopes, design.modules())
}
