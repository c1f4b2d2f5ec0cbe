// Modules, with tables of their names.

ghost use Rattle.std.specs.Prelude.{◌≡◌, ◌++◌, ◌∷◌, ◌<◌, [], map, IfOk, OnOk, length, get_or};
ghost use Rattle.std.specs.List.{AllByRecursion};
ghost use Rattle.vlog_tree.specs.Form.{IsModule};
ghost use Rattle.vlog_tree.specs.Table.{clk as clk_name, declared, port_declared, module_declared, ports_of, is_module_name, is_doubled_name, names_of, all_ports};

use crate::scope::Scope;
use std::alloc::{AllocError, Global};
use std::marker::Model;
use tapa_base::Text;
use vlog_tree::Module;

/// Modules in the order of the text.
#[derive(Drop)]
pub struct Library {
    modules: Vec<Module>,
    names: Scope,
    scopes: Vec<Scope>,
    ports: Vec<Scope>,
    no_ports: Scope,
    clk: Text,
}

impl Model for Library {
    ghost use Rattle.std.specs.Prelude.{◌≡◌, List, [], map};
    ghost use Rattle.std.specs.List.{AllByRecursion};
    ghost use Rattle.vlog_tree.specs.Form.{ModuleTree, IsModule};
    ghost use Rattle.vlog_tree.specs.Table.{clk as clk_name, module_declared, names_of, all_ports};

    ghost Value = { List ModuleTree };

    ghost view = { λ l. l.modules.items };

    ghost invariant = { λ l. AllByRecursion IsModule l.modules.items × (l.names ≡ map module_declared l.modules.items) × (l.scopes.items ≡ names_of l.modules.items)
        × (l.ports.items ≡ all_ports l.modules.items) × (l.no_ports ≡ []) × (l.clk ≡ clk_name) };
}

#[tactic(auto, unfolding(vlog_tree::specs::Table::clk))]
fn clock_name(alloc: Global) -> Result<Text, AllocError>
    ensures { IfOk result (λ t. t ≡ clk_name) }
{
    Ok(Text::new(b"clk".to_vec(alloc)?))
}

fn scopes_of(alloc: Global, modules: &[Module]) -> Result<Vec<Scope>, AllocError>
    ensures value { IfOk result (λ v. v.items ≡ names_of modules.now) }
    ensures form { OnOk result (AllByRecursion IsModule modules.now) }
{
    let mut scopes = Vec::new(alloc);
    for m in modules {
        scopes.push(Scope::of_module(alloc, m)?)?;
    }
    Ok(scopes)
}

fn ports_of_all(alloc: Global, modules: &[Module]) -> Result<Vec<Scope>, AllocError>
    ensures { IfOk result (λ v. v.items ≡ all_ports modules.now) }
{
    let mut ports = Vec::new(alloc);
    for m in modules {
        ports.push(Scope::of_ports(alloc, m.ports())?)?;
    }
    Ok(ports)
}

fn scope_at(scopes: &[Scope], place: usize) -> &Scope
    requires { place < length scopes.now }
    ensures { result.now ≡ get_or scopes.now place result.now }
{
    &scopes[place]
}

impl Library {
    /// These modules, with a table of their names. Want of memory is the only error.
    pub fn of(alloc: Global, modules: Vec<Module>) -> Result<Library, AllocError>
        ensures { IfOk result (λ l. l ≡ modules.items) }
    {
        let names = Scope::of_modules(alloc, &modules)?;
        let scopes = scopes_of(alloc, &modules)?;
        let ports = ports_of_all(alloc, &modules)?;
        let no_ports = Scope::of_ports(alloc, &[])?;
        let clk = clock_name(alloc)?;
        Ok(Library {
            modules,
            names,
            scopes,
            ports,
            no_ports,
            clk,
        })
    }

    /// The modules, in the order of the text.
    pub fn modules(&self) -> &[Module]
        ensures value { result.now ≡ self.now }
        ensures form { AllByRecursion IsModule self.now }
    {
        &self.modules
    }

    /// The name of the clock.
    pub fn clk(&self) -> &Text
        ensures { result.now ≡ clk_name }
    {
        &self.clk
    }

    /// The names of the modules.
    pub fn names(&self) -> &Scope
        ensures { result.now ≡ map module_declared self.now }
    {
        &self.names
    }

    /// The names that each module declares.
    pub fn scopes(&self) -> &[Scope]
        ensures { result.now ≡ names_of self.now }
    {
        &self.scopes
    }

    /// The ports that each module declares.
    pub fn ports(&self) -> &[Scope]
        ensures { result.now ≡ all_ports self.now }
    {
        &self.ports
    }

    fn no_ports(&self) -> &Scope
        ensures { result.now ≡ [] }
    {
        &self.no_ports
    }

    /// The ports of the first module of this name, and none where there is no such module.
    pub fn ports_named(&self, name: &Text) -> &Scope
        ensures { result.now ≡ map port_declared (ports_of self.now name.now) }
    {
        let ports = self.ports();
        match self.names().place(name) {
            Some((place, _)) => scope_at(ports, place),
            None => self.no_ports(),
        }
    }

    /// Whether a module has this name.
    pub fn is_module(&self, name: &Text) -> bool
        ensures { result ≡ is_module_name self.now name.now }
    {
        self.names().place(name).is_some()
    }
}
