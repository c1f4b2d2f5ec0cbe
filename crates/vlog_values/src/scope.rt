// What the names of a module denote, looked up line by line.

ghost use Rattle.std.specs.Prelude.{◌≡◌, ◌∷◌, ◌++◌, [], map};
ghost use Rattle.vlog_tree.specs.Table.{declared, items_declared, port_declared, net_kind_of, bits_of, net_kind_is_read, net_kind_is_input};
ghost use Rattle.vlog_values.specs.Scopes.{found};

use std::marker::Model;
use tapa_base::Text;
use vlog_tree::{Item, Module, NetKind, PortDecl};

/// The names of a module's ports and lines, in the order of the text.
#[derive(Drop)]
pub struct Scope<'a> {
    ports: &'a [PortDecl],
    items: &'a [Item],
}

impl<'a> Model for Scope<'a> {
    ghost use Rattle.std.specs.Prelude.{List, map, ◌++◌};
    ghost use Rattle.vlog_tree.specs.declared.table.Declaration.{Declaration};
    ghost use Rattle.vlog_tree.specs.Table.{items_declared, port_declared};

    ghost Value = { List Declaration };

    ghost view = { λ scope. map port_declared scope.ports.now ++ items_declared scope.items.now };
}

/// Whether the number of such a net can be read.
pub fn is_read(net_kind: NetKind) -> bool
    ensures { result ≡ net_kind_is_read net_kind }
{
    matches!(
        net_kind,
        NetKind::Input | NetKind::Output | NetKind::WireNet | NetKind::Register
    )
}

/// Whether such a net is an input.
pub fn is_input(net_kind: NetKind) -> bool
    ensures { result ≡ net_kind_is_input net_kind }
{
    matches!(net_kind, NetKind::Input)
}

fn port_kind(p: &PortDecl) -> NetKind
    ensures { result ≡ (port_declared p.now).net_kind }
{
    if p.is_input() {
        NetKind::Input
    } else {
        NetKind::Output
    }
}

fn in_ports(ports: &[PortDecl], x: &[u8]) -> Option<(NetKind, u32)>
    ensures { result ≡ found (map port_declared ports.now) x.now }
{
    for p in ports {
        if p.name.bytes() == x {
            return Some((port_kind(p), p.width));
        }
    }
    None
}

fn named_so(name: &Text, x: &[u8], net_kind: NetKind, bits: u32) -> Option<(NetKind, u32)>
    ensures { result ≡ found (record { name = name.now; net_kind = net_kind; bits = bits; cells = 0 } ∷ []) x.now }
{
    if name.bytes() == x {
        Some((net_kind, bits))
    } else {
        None
    }
}

fn in_item(item: &Item, x: &[u8]) -> Option<(NetKind, u32)>
    ensures { result ≡ found (items_declared (item.now ∷ [])) x.now }
{
    match item {
        Item::Wire { width, name } => named_so(name, x, NetKind::WireNet, *width),
        Item::Reg { width, name } => named_so(name, x, NetKind::Register, *width),
        Item::Memory { width, name, .. } => named_so(name, x, NetKind::MemoryArray, *width),
        Item::Instance { name, .. } => named_so(name, x, NetKind::ChildInstance, 0),
        Item::Assign { .. } => None,
        Item::Always(_) => None,
    }
}

#[tactic(auto, using(crate::proofs::Named::found_first))]
fn in_items(items: &[Item], x: &[u8]) -> Option<(NetKind, u32)>
    ensures { result ≡ found (items_declared items.now) x.now }
{
    for item in items {
        if let Some(declaration) = in_item(item, x) {
            return Some(declaration);
        }
    }
    None
}

#[tactic(auto, using(crate::proofs::Named::found_append))]
fn find_in(ports: &[PortDecl], items: &[Item], x: &[u8]) -> Option<(NetKind, u32)>
    ensures { result ≡ found (map port_declared ports.now ++ items_declared items.now) x.now }
{
    match in_ports(ports, x) {
        Some(declaration) => Some(declaration),
        None => in_items(items, x),
    }
}

impl<'a> Scope<'a> {
    /// The names of a module.
    pub fn of_module(m: &'a Module) -> Scope<'a>
        ensures { result ≡ declared m.now }
    {
        Scope {
            ports: m.ports(),
            items: m.items(),
        }
    }

    /// The names of ports alone.
    pub fn of_ports(ports: &'a [PortDecl]) -> Scope<'a>
        ensures { result ≡ map port_declared ports.now }
    {
        Scope { ports, items: &[] }
    }

    /// What a name denotes.
    #[tactic(auto, using(crate::proofs::Named::found_kind, crate::proofs::Named::no_kind))]
    pub fn net_kind(&self, name: &[u8]) -> NetKind
        ensures { result ≡ net_kind_of self.now name.now }
    {
        match find_in(self.ports, self.items, name) {
            Some((net_kind, _)) => net_kind,
            None => NetKind::Unknown,
        }
    }

    /// The bits of what a name denotes.
    #[tactic(auto, using(crate::proofs::Named::found_bits, crate::proofs::Named::no_bits))]
    pub fn bits(&self, name: &[u8]) -> u32
        ensures { result ≡ bits_of self.now name.now }
    {
        match find_in(self.ports, self.items, name) {
            Some((_, bits)) => bits,
            None => 0,
        }
    }
}
