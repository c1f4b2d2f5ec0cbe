// Drivers of wires, one after another.

ghost use Rattle.std.specs.Prelude.{◌≡◌, ◌+◌, IfOk};
ghost use Rattle.hw_lines.specs.Drivers.{last_of, one as one_lem};

use hw_nets::{copy, wire};
use std::alloc::{AllocError, Global};
use tapa_base::{Text, narrow, plus};
use vlog_tree::{Atom, Value};

/// The width of a wire and its driver.
pub type Driver = (u32, Value);

/// Where wires are numbered: the prefix of their names, and the first number.
#[derive(Clone, Copy)]
pub struct Numbered<'a> {
    pub front: &'a Text,
    pub first: u32,
}

impl<'a> Numbered<'a> {
    /// Numbers wires from 0 on.
    pub fn from_zero(front: &'a Text) -> Numbered<'a>
        ensures front { result.front.now ≡ front.now }
        ensures first { result.first ≡ 0 }
    {
        Numbered { front, first: 0 }
    }

    /// Numbers the wires that follow the first `count` wires.
    pub fn after(&self, count: u32) -> Result<Numbered<'a>, AllocError>
        ensures front { IfOk result (λ n. n.front.now ≡ self.now.front.now) }
        ensures first { IfOk result (λ n. n.first ≡ self.now.first + count) }
    {
        Ok(Numbered {
            front: self.front,
            first: plus(self.first, count)?,
        })
    }
}

/// The driver of one wire.
pub fn one(alloc: Global, width: u32, value: Value) -> Result<Vec<Driver>, AllocError>
    ensures { IfOk result (λ v. v.items ≡ one_lem width value) }
{
    let mut drivers = Vec::new(alloc);
    drivers.push((width, value))?;
    Ok(drivers)
}

/// The wire of the last driver, or what there was before if there is none.
pub fn last(
    alloc: Global,
    at: &Numbered,
    drivers: &[Driver],
    before: &Atom,
) -> Result<Atom, AllocError>
    ensures { IfOk result (λ a. a ≡ last_of at.now.front.now at.now.first drivers.now before.now) }
{
    let count = drivers.len();
    if count == 0 {
        return copy(alloc, before);
    }
    let offset = narrow(count - 1)?;
    wire(alloc, at.front, plus(at.first, offset)?)
}
