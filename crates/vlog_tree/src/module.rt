// A module, whose type keeps that it has the form of a module.

ghost use Rattle.std.specs.Prelude.{◌≡◌, IfOk, IfSome, is_some};
ghost use Rattle.vlog_tree.specs.Form.{ModuleTree, IsModule, is_module as is_module_lem};

use crate::form::is_module;
use crate::tree::{Item, PortDecl};
use std::alloc::{AllocError, Global};
use std::marker::Model;
use tapa_base::Text;

/// A module: names are names and no keywords, each list has the number of parts that the grammar asks for, and the steps of
/// each block are nested.
#[derive(Drop)]
pub struct Module {
    name: Text,
    ports: Vec<PortDecl>,
    items: Vec<Item>,
}

impl Model for Module {
    ghost use Rattle.vlog_tree.specs.Form.{ModuleTree, IsModule};

    ghost Value = { ModuleTree };

    ghost view = { λ m. record { name = m.name; ports = m.ports.items; items = m.items.items } };

    ghost invariant = { λ m. IsModule (record { name = m.name; ports = m.ports.items; items = m.items.items }) };
}

impl Module {
    /// A module of the subset, of parts that are in its form.
    pub fn of(name: Text, ports: Vec<PortDecl>, items: Vec<Item>) -> Module
        requires { IsModule (record { name = name; ports = ports.items; items = items.items }) }
        ensures { result ≡ record { name = name; ports = ports.items; items = items.items } }
    {
        Module { name, ports, items }
    }

    /// The module, where it has the form of one.
    #[tactic(auto, unfolding(crate::specs::Form::IsModule))]
    pub fn checked(
        alloc: Global,
        name: Text,
        ports: Vec<PortDecl>,
        items: Vec<Item>,
    ) -> Result<Option<Module>, AllocError>
        ensures value { IfOk result (λ o. IfSome o (λ m. m ≡ record { name = name; ports = ports.items; items = items.items })) }
        ensures form { IfOk result (λ o. is_some o ≡ is_module_lem (record { name = name; ports = ports.items; items = items.items })) }
    {
        if is_module(alloc, &name, &ports, &items)? {
            Ok(Some(Module::of(name, ports, items)))
        } else {
            Ok(None)
        }
    }

    /// The name of the module.
    pub fn name(&self) -> &Text
        ensures { result.now ≡ self.now.name }
    {
        &self.name
    }

    /// The ports of the module, in their order.
    pub fn ports(&self) -> &[PortDecl]
        ensures { result.now ≡ self.now.ports }
    {
        &self.ports
    }

    /// The items of the module, in their order.
    pub fn items(&self) -> &[Item]
        ensures value { result.now ≡ self.now.items }
        ensures form { IsModule self.now }
    {
        &self.items
    }
}
