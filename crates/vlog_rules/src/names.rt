// The first name that is unknown, doubled or of the wrong net kind.
#![tactic(auto, using(vlog_tree::proofs::Walks::passes, vlog_tree::proofs::Walks::tells))]

ghost use Rattle.std.specs.Prelude.{◌≡◌, ◌∷◌, ◌++◌, [], ℕ, List, bytes_eq, map, min, count_by, IfOk, ◌==◌};
ghost use Rattle.vlog_scope.specs.NameTable.{count_in};
ghost use Rattle.std.specs.Option.{option_copied};
ghost use Rattle.std.specs.List.{flat_map, list_all};
ghost use Rattle.vlog_tree.specs.Table.{first_violation, is_clk, net_kind_is_read, net_kind_is_driven, net_kind_is_input, port_declared, declared, net_kind_of, ports_of};
ghost use Rattle.vlog_tree.specs.V2.{read_use, driven_use, register_use, memory_use, clock_use, atom_uses, value_uses, step_uses, inner_use, port_uses, instance_uses};
ghost use Rattle.vlog_tree.specs.V2.{all_connected as all_are_connected, joined_use, connection_uses, item_uses, module_uses, v2_uses};

use std::alloc::{AllocError, Global};
use tapa_base::Text;
use vlog_scope::{Library, NameCounts, Scope, count_of, count_one};
use vlog_tree::{Atom, Connection, Declaration, Item, Module, NetKind, PortDecl, Step, Value};

/// Whether the number of a name of this net kind can be read.
pub fn is_read(net_kind: NetKind) -> bool
    ensures { result ≡ net_kind_is_read net_kind }
{
    matches!(
        net_kind,
        NetKind::Input | NetKind::Output | NetKind::WireNet | NetKind::Register
    )
}

fn is_driven(net_kind: NetKind) -> bool
    ensures { result ≡ net_kind_is_driven net_kind }
{
    matches!(
        net_kind,
        NetKind::Input | NetKind::Output | NetKind::WireNet
    )
}

/// Whether a name is that of the clock, `clk`.
#[tactic(auto, using(vlog_tree::proofs::Walks::passes, vlog_tree::proofs::Walks::tells), unfolding(vlog_tree::specs::Table::clk))]
pub fn is_clock(name: &Text) -> bool
    ensures { result ≡ is_clk name.now }
{
    name.bytes() == b"clk".as_slice()
}

/// The name where a test says that it breaks a rule.
pub fn named_if<'a>(name: &'a Text, wrong: bool) -> Option<&'a Text>
    ensures { option_copied result ≡ first_violation ((name.now, wrong) ∷ []) }
{
    if wrong { Some(name) } else { None }
}

fn read<'a>(scope: &Scope, name: &'a Text) -> Option<&'a Text>
    ensures { option_copied result ≡ first_violation (read_use scope.now name.now ∷ []) }
{
    let (net_kind, _) = scope.find(name);
    named_if(name, !is_read(net_kind) || is_clock(name))
}

fn driven<'a>(scope: &Scope, name: &'a Text) -> Option<&'a Text>
    ensures { option_copied result ≡ first_violation (driven_use scope.now name.now ∷ []) }
{
    let (net_kind, _) = scope.find(name);
    named_if(name, !is_driven(net_kind) || is_clock(name))
}

fn atom<'a>(scope: &Scope, atom: &'a Atom) -> Option<&'a Text>
    ensures { option_copied result ≡ first_violation (atom_uses scope.now atom.now) }
{
    match atom {
        Atom::Net(x) => read(scope, x),
        Atom::Part { net: x, .. } => read(scope, x),
        Atom::Literal { .. } => None,
    }
}

fn memory<'a>(scope: &Scope, name: &'a Text) -> Option<&'a Text>
    ensures { option_copied result ≡ first_violation (memory_use scope.now name.now ∷ []) }
{
    let (net_kind, _) = scope.find(name);
    named_if(name, !matches!(net_kind, NetKind::MemoryArray))
}

fn register<'a>(scope: &Scope, name: &'a Text) -> Option<&'a Text>
    ensures { option_copied result ≡ first_violation (register_use scope.now name.now ∷ []) }
{
    let (net_kind, _) = scope.find(name);
    named_if(name, !matches!(net_kind, NetKind::Register))
}

fn two_atoms<'a>(scope: &Scope, a: &'a Atom, b: &'a Atom) -> Option<&'a Text>
    ensures { option_copied result ≡ first_violation (atom_uses scope.now a.now ++ atom_uses scope.now b.now) }
{
    if let Some(x) = atom(scope, a) {
        return Some(x);
    }
    atom(scope, b)
}

fn atoms<'a>(scope: &Scope, atoms: &'a [Atom]) -> Option<&'a Text>
    ensures { option_copied result ≡ first_violation (flat_map (atom_uses scope.now) atoms.now) }
{
    for a in atoms {
        if let Some(x) = atom(scope, a) {
            return Some(x);
        }
    }
    None
}

fn value<'a>(scope: &Scope, value: &'a Value) -> Option<&'a Text>
    ensures { option_copied result ≡ first_violation (value_uses scope.now value.now) }
{
    match value {
        Value::Plain(a) | Value::Invert(a) | Value::Repeat { atom: a, .. } => atom(scope, a),
        Value::Binary {
            left: a,
            right: b,
            ..
        } => two_atoms(scope, a, b),
        Value::Choose {
            condition: c,
            yes: a,
            no: b,
        } => {
            if let Some(x) = atom(scope, c) {
                return Some(x);
            }
            two_atoms(scope, a, b)
        }
        Value::Concat(parts) => atoms(scope, parts.atoms()),
        Value::Cell {
            memory: m,
            index: x,
        } => {
            if let Some(name) = memory(scope, m) {
                return Some(name);
            }
            read(scope, x)
        }
    }
}

fn step<'a>(scope: &Scope, step: &'a Step) -> Option<&'a Text>
    ensures { option_copied result ≡ first_violation (step_uses scope.now step.now) }
{
    match step {
        Step::If(c) => read(scope, c),
        Step::Else | Step::End => None,
        Step::NonblockingAssign {
            register: x,
            value: a,
        } => {
            if let Some(name) = register(scope, x) {
                return Some(name);
            }
            atom(scope, a)
        }
        Step::MemoryAssign {
            memory: m,
            index: x,
            value: a,
        } => {
            if let Some(name) = memory(scope, m) {
                return Some(name);
            }
            if let Some(name) = read(scope, x) {
                return Some(name);
            }
            atom(scope, a)
        }
    }
}

fn steps<'a>(scope: &Scope, steps: &'a [Step]) -> Option<&'a Text>
    ensures { option_copied result ≡ first_violation (flat_map (step_uses scope.now) steps.now) }
{
    for s in steps {
        if let Some(x) = step(scope, s) {
            return Some(x);
        }
    }
    None
}

/// Whether a name of this net kind is an input port.
pub fn is_input(net_kind: NetKind) -> bool
    ensures { result ≡ net_kind_is_input net_kind }
{
    matches!(net_kind, NetKind::Input)
}

// The clock, where it is no input port.
fn clock<'a>(library: &'a Library, scope: &Scope) -> Option<&'a Text>
    ensures { option_copied result ≡ first_violation (clock_use scope.now ∷ []) }
{
    let clk = library.clk();
    let (net_kind, _) = scope.find(clk);
    named_if(clk, !is_input(net_kind))
}

fn inner<'a>(scope: &Scope, name: &'a Text) -> Option<&'a Text>
    ensures { option_copied result ≡ first_violation (inner_use scope.now name.now ∷ []) }
{
    named_if(name, scope.is_doubled(name) || is_clock(name))
}

#[tactic(auto, using(vlog_tree::proofs::Walks::passes, vlog_tree::proofs::Walks::tells), unfolding(vlog_tree::specs::V2::port_uses))]
fn port<'a>(scope: &Scope, port: &'a PortDecl) -> Option<&'a Text>
    ensures { option_copied result ≡ first_violation (port_uses scope.now port.now) }
{
    named_if(&port.name, scope.is_doubled(&port.name))
}

fn ports<'a>(scope: &Scope, ports: &'a [PortDecl]) -> Option<&'a Text>
    ensures { option_copied result ≡ first_violation (flat_map (port_uses scope.now) ports.now) }
{
    for p in ports {
        if let Some(x) = port(scope, p) {
            return Some(x);
        }
    }
    None
}

// How often each port is connected, where twice and more are one.
fn connection_counts(alloc: Global, connections: &[Connection]) -> Result<NameCounts, AllocError>
    ensures { IfOk result (λ counts. (x : List ℕ) → count_in counts x ≡ min (count_by (λ l. bytes_eq l.port x) connections.now) 2) }
{
    let mut counts = NameCounts::new(alloc);
    for l in connections {
        count_one(alloc, &mut counts, l.port.bytes())?;
    }
    Ok(counts)
}

fn is_counted_once(name: &Text, counts: &NameCounts) -> bool
    ensures { result ≡ (count_in counts.now name.now == 1) }
{
    count_of(counts, name.bytes()) == 1
}

fn all_counted_once(declarations: &[Declaration], counts: &NameCounts) -> bool
    ensures { result ≡ list_all (λ d. count_in counts.now d.name == 1) declarations.now }
{
    declarations
        .iter()
        .all(|d| is_counted_once(&d.name, counts))
}

fn is_connected_once(name: &Text, connections: &[Connection]) -> bool
    ensures { result ≡ (count_by (λ l. bytes_eq l.port name.now) connections.now == 1) }
{
    let port = name.bytes();
    connections
        .iter()
        .filter(|l| l.port.bytes() == port)
        .count()
        == 1
}

fn all_connected_once(declarations: &[Declaration], connections: &[Connection]) -> bool
    ensures { result ≡ list_all (λ d. count_by (λ l. bytes_eq l.port d.name) connections.now == 1) declarations.now }
{
    declarations
        .iter()
        .all(|d| is_connected_once(&d.name, connections))
}

fn all_connected_by_counts(
    alloc: Global,
    ports: &Scope,
    connections: &[Connection],
) -> Result<bool, AllocError>
    ensures { IfOk result (λ b. b ≡ all_are_connected ports.now connections.now) }
{
    let counts = connection_counts(alloc, connections)?;
    Ok(all_counted_once(ports.declarations(), &counts))
}

// A few connections are looked through for each port, which is faster than to count their names first.
fn all_connected(
    alloc: Global,
    ports: &Scope,
    connections: &[Connection],
) -> Result<bool, AllocError>
    ensures { IfOk result (λ b. b ≡ all_are_connected ports.now connections.now) }
{
    if connections.len() <= 8 {
        return Ok(all_connected_once(ports.declarations(), connections));
    }
    all_connected_by_counts(alloc, ports, connections)
}

fn joined<'a>(
    library: &'a Library,
    ports: &Scope,
    scope: &Scope,
    connection: &'a Connection,
) -> Option<&'a Text>
    ensures { option_copied result ≡ first_violation (joined_use ports.now scope.now connection.now ∷ []) }
{
    if is_clock(&connection.port) && is_clock(&connection.net) {
        return clock(library, scope);
    }
    let (net_kind, _) = ports.find(&connection.port);
    if is_input(net_kind) {
        read(scope, &connection.net)
    } else {
        driven(scope, &connection.net)
    }
}

#[tactic(auto, using(vlog_tree::proofs::Walks::passes, vlog_tree::proofs::Walks::tells), unfolding(vlog_tree::specs::V2::connection_uses))]
fn connection<'a>(
    library: &'a Library,
    ports: &Scope,
    scope: &Scope,
    connection: &'a Connection,
) -> Option<&'a Text>
    ensures { option_copied result ≡ first_violation (connection_uses ports.now scope.now connection.now) }
{
    let (net_kind, _) = ports.find(&connection.port);
    if let Some(x) = named_if(&connection.port, !is_read(net_kind)) {
        return Some(x);
    }
    joined(library, ports, scope, connection)
}

fn connections<'a>(
    library: &'a Library,
    ports: &Scope,
    scope: &Scope,
    connections: &'a [Connection],
) -> Option<&'a Text>
    ensures { option_copied result ≡ first_violation (flat_map (connection_uses ports.now scope.now) connections.now) }
{
    for l in connections {
        if let Some(x) = connection(library, ports, scope, l) {
            return Some(x);
        }
    }
    None
}

// The module's name where it is unknown, then the instance's, then those of the connections.
#[tactic(auto, using(vlog_tree::proofs::Walks::passes, vlog_tree::proofs::Walks::tells), unfolding(vlog_tree::specs::V2::instance_uses))]
fn instance_names<'a>(
    library: &'a Library,
    scope: &Scope,
    m: &'a Text,
    i: &'a Text,
    joins: &'a [Connection],
    connected: bool,
) -> Option<&'a Text>
    requires { connected ≡ all_are_connected (map port_declared (ports_of library.now m.now)) joins.now }
    ensures { option_copied result ≡ first_violation (instance_uses library.now scope.now m.now i.now joins.now) }
{
    let child = library.ports_named(m);
    if let Some(name) = named_if(m, !library.is_module(m)) {
        return Some(name);
    }
    if let Some(name) = named_if(i, scope.is_doubled(i) || is_clock(i) || !connected) {
        return Some(name);
    }
    connections(library, child, scope, joins)
}

fn instance<'a>(
    alloc: Global,
    library: &'a Library,
    scope: &Scope,
    m: &'a Text,
    i: &'a Text,
    joins: &'a [Connection],
) -> Result<Option<&'a Text>, AllocError>
    ensures { IfOk result (λ o. option_copied o ≡ first_violation (instance_uses library.now scope.now m.now i.now joins.now)) }
{
    let connected = all_connected(alloc, library.ports_named(m), joins)?;
    Ok(instance_names(library, scope, m, i, joins, connected))
}

fn assign<'a>(scope: &Scope, x: &'a Text, e: &'a Value) -> Option<&'a Text>
    ensures { option_copied result ≡ first_violation (driven_use scope.now x.now ∷ value_uses scope.now e.now) }
{
    if let Some(name) = driven(scope, x) {
        return Some(name);
    }
    value(scope, e)
}

fn always<'a>(library: &'a Library, scope: &Scope, block: &'a [Step]) -> Option<&'a Text>
    ensures { option_copied result ≡ first_violation (clock_use scope.now ∷ flat_map (step_uses scope.now) block.now) }
{
    if let Some(name) = clock(library, scope) {
        return Some(name);
    }
    steps(scope, block)
}

#[tactic(auto, unfolding(vlog_tree::specs::V2::item_uses))]
fn item<'a>(
    alloc: Global,
    library: &'a Library,
    scope: &Scope,
    item: &'a Item,
) -> Result<Option<&'a Text>, AllocError>
    ensures { IfOk result (λ o. option_copied o ≡ first_violation (item_uses library.now scope.now item.now)) }
{
    match item {
        Item::Wire { name: x, .. } => Ok(inner(scope, x)),
        Item::Reg { name: x, .. } => Ok(inner(scope, x)),
        Item::Memory { name: x, .. } => Ok(inner(scope, x)),
        Item::Assign { net: x, value: e } => Ok(assign(scope, x, e)),
        Item::Always(b) => Ok(always(library, scope, b.steps())),
        Item::Instance {
            module: m,
            name: i,
            connections: joins,
        } => instance(alloc, library, scope, m, i, joins.connections()),
    }
}

fn items<'a>(
    alloc: Global,
    library: &'a Library,
    scope: &Scope,
    items: &'a [Item],
) -> Result<Option<&'a Text>, AllocError>
    ensures { IfOk result (λ o. option_copied o ≡ first_violation (flat_map (item_uses library.now scope.now) items.now)) }
{
    for i in items {
        if let Some(x) = item(alloc, library, scope, i)? {
            return Ok(Some(x));
        }
    }
    Ok(None)
}

// The first wrong name of a module.
#[tactic(auto, using(vlog_tree::proofs::Walks::passes, vlog_tree::proofs::Walks::tells), unfolding(vlog_tree::specs::V2::module_uses))]
fn module_names<'a>(
    alloc: Global,
    library: &'a Library,
    scope: &Scope,
    m: &'a Module,
) -> Result<Option<&'a Text>, AllocError>
    requires { scope.now ≡ declared m.now }
    ensures { IfOk result (λ o. option_copied o ≡ first_violation (module_uses library.now m.now)) }
{
    let names = library.names();
    if let Some(x) = named_if(m.name(), names.is_doubled(m.name())) {
        return Ok(Some(x));
    }
    if let Some(x) = ports(scope, m.ports()) {
        return Ok(Some(x));
    }
    items(alloc, library, scope, m.items())
}

/// The first name in the text that is unknown, doubled or of the wrong net kind.
pub fn first_unknown<'a>(
    alloc: Global,
    library: &'a Library,
) -> Result<Option<&'a Text>, AllocError>
    ensures { IfOk result (λ o. option_copied o ≡ first_violation (v2_uses library.now)) }
{
    let modules = library.modules();
    let scopes = library.scopes();
    for at in 0..modules.len() {
        if let Some(x) = module_names(alloc, library, &scopes[at], &modules[at])? {
            return Ok(Some(x));
        }
    }
    Ok(None)
}
