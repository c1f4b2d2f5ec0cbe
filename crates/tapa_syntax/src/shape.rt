// What a program asks of the data that it runs on.
ghost use Rattle.std.specs.Prelude.{◌≡◌, ◌≤◌, All, map, IfOk};
ghost use Rattle.tapa_syntax.specs.declared.program.Memory.{Memory};
ghost use Rattle.tapa_syntax.specs.declared.program.Scalar.{Scalar};
ghost use Rattle.tapa_syntax.specs.Shapes.{port_of, IsShapeOf};

use crate::program::{Memory, Program, Scalar};
use std::alloc::Global;
use tapa_base::{Kind, OutOfMemory, Port, Shape, Text};

impl Program {
    /// The names and widths, in bits, of the scalars and memories that are the top task's parameters.
    pub fn shape(&self, alloc: Global) -> Result<Shape, OutOfMemory>
        ensures is { IfOk result (IsShapeOf self.now) }
        ensures scalars { IfOk result (λ shape. All (λ port. port.bits ≤ 64) shape.scalars.items) }
        ensures memories { IfOk result (λ shape. All (λ port. port.bits ≤ 64) shape.memories.items) }
    {
        let scalars = scalar_ports(alloc, &self.scalars)?;
        let memories = memory_ports(alloc, &self.memories)?;
        Ok(Shape { scalars, memories })
    }
}

// A named input of a kind.
fn port(alloc: Global, name: &Text, kind: Kind) -> Result<Port, OutOfMemory>
    ensures { IfOk result (λ port. port ≡ port_of name.now kind) }
{
    let name = Text::new(Vec::from_slice(alloc, name.bytes())?);
    let bits = kind.bits();
    Ok(Port { name, bits })
}

fn scalar_ports(alloc: Global, scalars: &[Scalar]) -> Result<Vec<Port>, OutOfMemory>
    ensures { IfOk result (λ ports. ports.items ≡ map (λ (c : Scalar). port_of c.name c.kind) scalars.now) }
{
    let mut ports = Vec::new(alloc);
    for scalar in scalars {
        ports.push(port(alloc, &scalar.name, scalar.kind)?)?;
    }
    Ok(ports)
}

fn memory_ports(alloc: Global, memories: &[Memory]) -> Result<Vec<Port>, OutOfMemory>
    ensures { IfOk result (λ ports. ports.items ≡ map (λ (c : Memory). port_of c.name c.kind) memories.now) }
{
    let mut ports = Vec::new(alloc);
    for memory in memories {
        ports.push(port(alloc, &memory.name, memory.kind)?)?;
    }
    Ok(ports)
}
