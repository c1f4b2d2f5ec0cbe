// A module under construction.

ghost use Rattle.std.specs.Prelude.{◌≡◌, ◌+◌, ◌≤◌, ◌^◌, ◌++◌, ◌∷◌, [], length, IfOk};
ghost use Rattle.std.specs.Str.{IsAscii};
ghost use Rattle.vlog_tree.specs.Form.{IsModule};
ghost use Rattle.hw_build.specs.Elements.{with, empty, Input as InputElement, Output as OutputElement, Outlet as OutletElement, Wire as WireElement, InstanceWire as LinkElement};
ghost use Rattle.hw_build.specs.Elements.{Register as RegisterElement, Memory as MemoryElement, Block as BlockElement, Instance as InstanceElement};

use crate::texts::{clock_name, reset_name, text};
use std::alloc::{AllocError, Global};
use std::marker::Model;
use tapa_base::Text;
use vlog_tree::{Block, Connections, Direction, Item, Module, PortDecl, Step, Value};

/// A module under construction: it begins with the inputs `clk` and `rst`, and grows by elements.
#[derive(Drop)]
pub struct Draft {
    name: Text,
    ports: Vec<PortDecl>,
    items: Vec<Item>,
}

impl Model for Draft {
    ghost use Rattle.vlog_tree.specs.Form.{ModuleTree};

    ghost Value = { ModuleTree };

    ghost view = { λ m. record { name = m.name; ports = m.ports.items; items = m.items.items } };
}

fn add_port(
    ports: &mut Vec<PortDecl>,
    direction: Direction,
    width: u32,
    name: Text,
) -> Result<(), AllocError>
    ensures { IfOk result (λ u. ports.new.items ≡ ports.old.items ++ record { direction = direction; width = width; name = name } ∷ []) }
{
    ports.push(PortDecl {
        direction,
        width,
        name,
    })?;
    Ok(())
}

impl Draft {
    /// A module with no more than the inputs for the clock and for reset.
    pub fn new(alloc: Global, name: Text) -> Result<Draft, AllocError>
        ensures { IfOk result (λ d. d ≡ empty name) }
    {
        let mut ports = Vec::new(alloc);
        add_port(&mut ports, Direction::Input, 1, clock_name(alloc)?)?;
        add_port(&mut ports, Direction::Input, 1, reset_name(alloc)?)?;
        Ok(Draft {
            name,
            ports,
            items: Vec::new(alloc),
        })
    }

    /// Adds an input of `width` bits. Want of memory is the only error.
    pub fn input(&mut self, alloc: Global, width: u32, name: &[u8]) -> Result<(), AllocError>
        requires { IsAscii name.now }
        ensures { IfOk result (λ u. self.new ≡ with self.old (InputElement width name.now)) }
    {
        add_port(&mut self.ports, Direction::Input, width, text(alloc, name)?)
    }

    /// A port and its driver.
    pub fn output(
        &mut self,
        alloc: Global,
        width: u32,
        name: &[u8],
        value: Value,
    ) -> Result<(), AllocError>
        requires { IsAscii name.now }
        ensures { IfOk result (λ u. self.new ≡ with self.old (OutputElement width name.now value)) }
    {
        let net = text(alloc, name)?;
        self.items.push(Item::Assign { net, value })?;
        add_port(
            &mut self.ports,
            Direction::Output,
            width,
            text(alloc, name)?,
        )
    }

    /// A port that an output of an instance drives.
    pub fn outlet(&mut self, alloc: Global, width: u32, name: &[u8]) -> Result<(), AllocError>
        requires { IsAscii name.now }
        ensures { IfOk result (λ u. self.new ≡ with self.old (OutletElement width name.now)) }
    {
        add_port(
            &mut self.ports,
            Direction::Output,
            width,
            text(alloc, name)?,
        )
    }

    // A wire without its driver, and its name.
    fn declared(&mut self, alloc: Global, width: u32, name: &[u8]) -> Result<Text, AllocError>
        requires { IsAscii name.now }
        ensures wire { IfOk result (λ n. self.new ≡ with self.old (LinkElement width name.now)) }
        ensures name { IfOk result (λ n. n ≡ name.now) }
    {
        let wire = text(alloc, name)?;
        let net = text(alloc, name)?;
        self.items.push(Item::Wire { width, name: wire })?;
        Ok(net)
    }

    /// A wire and its driver.
    pub fn wire(
        &mut self,
        alloc: Global,
        width: u32,
        name: &[u8],
        value: Value,
    ) -> Result<(), AllocError>
        requires { IsAscii name.now }
        ensures { IfOk result (λ u. self.new ≡ with self.old (WireElement width name.now value)) }
    {
        let net = self.declared(alloc, width, name)?;
        self.items.push(Item::Assign { net, value })?;
        Ok(())
    }

    /// A wire that an output of an instance drives.
    pub fn link(&mut self, alloc: Global, width: u32, name: &[u8]) -> Result<(), AllocError>
        requires { IsAscii name.now }
        ensures { IfOk result (λ u. self.new ≡ with self.old (LinkElement width name.now)) }
    {
        let name = text(alloc, name)?;
        self.items.push(Item::Wire { width, name })?;
        Ok(())
    }

    /// Adds a register of `width` bits. Want of memory is the only error.
    pub fn register(&mut self, alloc: Global, width: u32, name: &[u8]) -> Result<(), AllocError>
        requires { IsAscii name.now }
        ensures { IfOk result (λ u. self.new ≡ with self.old (RegisterElement width name.now)) }
    {
        let name = text(alloc, name)?;
        self.items.push(Item::Reg { width, name })?;
        Ok(())
    }

    /// Adds a memory of `cells` cells of `width` bits.
    pub fn memory(
        &mut self,
        alloc: Global,
        width: u32,
        name: &[u8],
        cells: u32,
    ) -> Result<(), AllocError>
        requires { IsAscii name.now }
        ensures { IfOk result (λ u. self.new ≡ with self.old (MemoryElement width name.now cells)) }
    {
        let name = text(alloc, name)?;
        self.items.push(Item::Memory { width, name, cells })?;
        Ok(())
    }

    /// The block of a register or of a memory.
    pub fn block(&mut self, steps: Vec<Step>) -> Result<(), AllocError>
        ensures { IfOk result (λ u. self.new ≡ with self.old (BlockElement steps.items)) }
    {
        self.items.push(Item::Always(Block::of(steps)))?;
        Ok(())
    }

    /// An instance of another module.
    pub fn instance(
        &mut self,
        child: Text,
        name: Text,
        connections: Connections,
    ) -> Result<(), AllocError>
        ensures { IfOk result (λ u. self.new ≡ with self.old (InstanceElement child name connections)) }
    {
        self.items.push(Item::Instance {
            module: child,
            name,
            connections,
        })?;
        Ok(())
    }

    /// Whether its ports and its items together are at most 2^64. What fits in memory has no more.
    pub fn count(&self) -> Result<(), AllocError>
        ensures { IfOk result (λ u. length self.now.ports + length self.now.items ≤ 2 ^ 64) }
    {
        match self.ports.len().checked_add(self.items.len()) {
            Some(_) => Ok(()),
            None => Err(AllocError),
        }
    }

    /// The finished module.
    pub fn module(self) -> Module
        requires { IsModule self }
        ensures { result ≡ self }
    {
        Module::of(self.name, self.ports, self.items)
    }
}
