// The names that a module declares, with a table of their indices.

ghost use Rattle.std.specs.Prelude.{◌≡◌, ◌<◌, ◌++◌, ◌∷◌, [], suc, Some, None, map, drop, is_some, IfOk, IfSome, OnOk, length, get_or};
ghost use Rattle.vlog_scope.specs.NameTable.{places_from};
ghost use Rattle.vlog_scope.specs.Chains.{name_at};
ghost use Rattle.vlog_tree.specs.Table.{declared, items_declared, port_declared, find_name, unknown, net_kind_of, bits_of, cells_of, is_doubled_name};
ghost use Rattle.vlog_tree.specs.Form.{IsModule};
ghost use Rattle.vlog_tree.specs.Table.{module_declared, declaration_name};

use crate::places::NamePlaces;
use std::alloc::{AllocError, Global};
use std::marker::Model;
use tapa_base::Text;
use vlog_tree::{Declaration, Item, Module, NetKind, PortDecl};

/// Declarations in the order of the text.
#[derive(Drop)]
pub struct Scope {
    declarations: Vec<Declaration>,
    places: NamePlaces,
}

impl Model for Scope {
    ghost use Rattle.std.specs.Prelude.{List};
    ghost use Rattle.vlog_tree.specs.declared.table.Declaration.{Declaration};
    ghost use Rattle.vlog_scope.specs.NamePlaces.{HasPlaces};

    ghost Value = { List Declaration };

    ghost view = { λ scope. scope.declarations.items };

    ghost invariant = { λ scope. HasPlaces scope.declarations.items scope.places };
}

/// A text of its own with the same bytes.
pub fn copy_text(alloc: Global, text: &Text) -> Result<Text, AllocError>
    ensures { IfOk result (λ t. t ≡ text.now) }
{
    Ok(Text::new(text.bytes().to_vec(alloc)?))
}

fn add(
    alloc: Global,
    declarations: &mut Vec<Declaration>,
    name: &Text,
    net_kind: NetKind,
    bits: u32,
    cells: u32,
) -> Result<(), AllocError>
    ensures { OnOk result (declarations.new.items ≡ declarations.old.items ++ record { name = name.now; net_kind = net_kind; bits = bits; cells = cells } ∷ []) }
{
    let name = copy_text(alloc, name)?;
    declarations.push(Declaration {
        name,
        net_kind,
        bits,
        cells,
    })?;
    Ok(())
}

fn add_item(
    alloc: Global,
    declarations: &mut Vec<Declaration>,
    item: &Item,
) -> Result<(), AllocError>
    ensures { OnOk result (declarations.new.items ≡ declarations.old.items ++ items_declared (item.now ∷ [])) }
{
    match item {
        Item::Wire { width, name } => add(alloc, declarations, name, NetKind::WireNet, *width, 0),
        Item::Reg { width, name } => add(alloc, declarations, name, NetKind::Register, *width, 0),
        Item::Memory { width, name, cells } => add(
            alloc,
            declarations,
            name,
            NetKind::MemoryArray,
            *width,
            *cells,
        ),
        Item::Instance { name, .. } => add(alloc, declarations, name, NetKind::ChildInstance, 0, 0),
        Item::Assign { .. } | Item::Always(_) => Ok(()),
    }
}

fn add_port(
    alloc: Global,
    declarations: &mut Vec<Declaration>,
    port: &PortDecl,
) -> Result<(), AllocError>
    ensures { OnOk result (declarations.new.items ≡ declarations.old.items ++ port_declared port.now ∷ []) }
{
    let net_kind = if port.is_input() {
        NetKind::Input
    } else {
        NetKind::Output
    };
    add(alloc, declarations, &port.name, net_kind, port.width, 0)
}

fn add_ports(
    alloc: Global,
    declarations: &mut Vec<Declaration>,
    ports: &[PortDecl],
) -> Result<(), AllocError>
    ensures { OnOk result (declarations.new.items ≡ declarations.old.items ++ map port_declared ports.now) }
{
    for port in ports {
        add_port(alloc, declarations, port)?;
    }
    Ok(())
}

fn add_items(
    alloc: Global,
    declarations: &mut Vec<Declaration>,
    items: &[Item],
) -> Result<(), AllocError>
    ensures { OnOk result (declarations.new.items ≡ declarations.old.items ++ items_declared items.now) }
{
    for item in items {
        add_item(alloc, declarations, item)?;
    }
    Ok(())
}

fn add_modules(
    alloc: Global,
    declarations: &mut Vec<Declaration>,
    modules: &[Module],
) -> Result<(), AllocError>
    ensures { OnOk result (declarations.new.items ≡ declarations.old.items ++ map module_declared modules.now) }
{
    for m in modules {
        add(alloc, declarations, m.name(), NetKind::Unknown, 0, 0)?;
    }
    Ok(())
}

fn declaration_at(declarations: &[Declaration], place: usize) -> &Declaration
    requires { place < length declarations.now }
    ensures { result.now ≡ get_or declarations.now place result.now }
{
    &declarations[place]
}

impl Scope {
    fn of(alloc: Global, declarations: Vec<Declaration>) -> Result<Scope, AllocError>
        ensures { IfOk result (λ scope. scope ≡ declarations.items) }
    {
        let places = NamePlaces::of(alloc, &declarations)?;
        Ok(Scope {
            declarations,
            places,
        })
    }

    /// The ports of a module alone.
    pub fn of_ports(alloc: Global, ports: &[PortDecl]) -> Result<Scope, AllocError>
        ensures { IfOk result (λ scope. scope ≡ map port_declared ports.now) }
    {
        let mut declarations = Vec::new(alloc);
        add_ports(alloc, &mut declarations, ports)?;
        Scope::of(alloc, declarations)
    }

    /// All names of a module.
    pub fn of_module(alloc: Global, m: &Module) -> Result<Scope, AllocError>
        ensures value { IfOk result (λ scope. scope ≡ declared m.now) }
        ensures form { OnOk result (IsModule m.now) }
    {
        let mut declarations = Vec::new(alloc);
        add_ports(alloc, &mut declarations, m.ports())?;
        add_items(alloc, &mut declarations, m.items())?;
        Scope::of(alloc, declarations)
    }

    /// The names of modules.
    pub fn of_modules(alloc: Global, modules: &[Module]) -> Result<Scope, AllocError>
        ensures { IfOk result (λ scope. scope ≡ map module_declared modules.now) }
    {
        let mut declarations = Vec::new(alloc);
        add_modules(alloc, &mut declarations, modules)?;
        Scope::of(alloc, declarations)
    }

    /// The declarations, in the order of the text.
    pub fn declarations(&self) -> &[Declaration]
        ensures { result.now ≡ self.now }
    {
        &self.declarations
    }

    /// The first index of a name, and whether it is declared once more.
    pub fn place(&self, name: &Text) -> Option<(usize, bool)>
        ensures { result ≡ places_from 0 (map declaration_name self.now) name.now }
    {
        self.places.find(&self.declarations, name.bytes())
    }

    /// The first index of a name.
    pub fn first_place(&self, name: &[u8]) -> Option<usize>
        ensures within { IfSome result (λ p. p < length self.now) }
        ensures named { IfSome result (λ p. name_at self.now p ≡ name.now) }
        ensures found { IfSome result (λ p. places_from 0 (map declaration_name self.now) name.now
            ≡ Some (p, is_some (places_from (suc p) (map declaration_name (drop (suc p) self.now)) name.now))) }
        ensures none { result ≡ None → places_from 0 (map declaration_name self.now) name.now ≡ None }
    {
        self.places.first(&self.declarations, name)
    }

    // What a name denotes, where it is declared.
    fn found(&self, name: &[u8]) -> Option<&Declaration>
        ensures some { IfSome result (λ d. d.now ≡ find_name self.now name.now) }
        ensures none { result ≡ None → find_name self.now name.now ≡ unknown }
    {
        let declarations = self.declarations();
        match self.first_place(name) {
            Some(place) => Some(declaration_at(declarations, place)),
            None => None,
        }
    }

    /// What bytes denote as a name.
    pub fn net_kind(&self, name: &[u8]) -> NetKind
        ensures { result ≡ net_kind_of self.now name.now }
    {
        match self.found(name) {
            Some(d) => d.net_kind,
            None => NetKind::Unknown,
        }
    }

    /// The bits of what bytes denote as a name.
    pub fn bits(&self, name: &[u8]) -> u32
        ensures { result ≡ bits_of self.now name.now }
    {
        match self.found(name) {
            Some(d) => d.bits,
            None => 0,
        }
    }

    /// The number of cells of a memory, and 0 of all other names.
    pub fn cells(&self, name: &[u8]) -> u32
        ensures { result ≡ cells_of self.now name.now }
    {
        match self.found(name) {
            Some(d) => d.cells,
            None => 0,
        }
    }

    /// What a name denotes, and its bits.
    pub fn find(&self, name: &Text) -> (NetKind, u32)
        ensures net_kind { result.0 ≡ net_kind_of self.now name.now }
        ensures bits { result.1 ≡ bits_of self.now name.now }
    {
        match self.found(name.bytes()) {
            Some(d) => (d.net_kind, d.bits),
            None => (NetKind::Unknown, 0),
        }
    }

    /// Whether a name is declared twice or more.
    pub fn is_doubled(&self, name: &Text) -> bool
        ensures { result ≡ is_doubled_name self.now name.now }
    {
        match self.place(name) {
            Some((_, again)) => again,
            None => false,
        }
    }
}
