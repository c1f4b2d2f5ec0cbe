// Comparisons.

ghost use Rattle.std.specs.Prelude.{◌≡◌, ◌≤◌, ◌++◌, ◌∷◌, [], IfOk, true};
ghost use Rattle.tapa_base.specs.Kinds.{bits_of, is_signed};
ghost use Rattle.vlog_tree.specs.declared.tree.BinaryOp.TheVariants.{Xor};
ghost use Rattle.vlog_tree.specs.declared.tree.Value.TheVariants.{Binary};
ghost use Rattle.vlog_tree.specs.declared.tree.Atom.TheVariants.{Literal};
ghost use Rattle.hw_lines.specs.Drivers.{as_wide as as_wide_lem, half as half_lem, less as less_lem, not_less as not_less_lem, turned, turned_atom as turned_atom_lem};

use crate::arithmetic::half;
use crate::drivers::{Driver, Numbered, last, one};
use hw_nets::{binary, concat, copy, literal, wire};
use std::alloc::{AllocError, Global};
use tapa_base::{Kind, narrow};
use vlog_tree::{Atom, BinaryOp, Value};

// Adds the driver of an atom with its sign bit turned.
fn push_turned(
    alloc: Global,
    drivers: &mut Vec<Driver>,
    width: u32,
    a: &Atom,
) -> Result<(), AllocError>
    requires { width ≤ 64 }
    ensures { IfOk result (λ u. drivers.new.items ≡ drivers.old.items ++ (width, Binary a.now Xor (Literal width (half_lem width))) ∷ []) }
{
    let turned = binary(copy(alloc, a)?, BinaryOp::Xor, literal(width, half(width)));
    drivers.push((width, turned))?;
    Ok(())
}

// A literal needs none.
fn add_turned(
    alloc: Global,
    drivers: &mut Vec<Driver>,
    width: u32,
    a: &Atom,
) -> Result<(), AllocError>
    requires { width ≤ 64 }
    ensures { IfOk result (λ u. drivers.new.items ≡ drivers.old.items ++ turned width a.now) }
{
    match a {
        Atom::Net(_) => push_turned(alloc, drivers, width, a),
        Atom::Part { .. } => push_turned(alloc, drivers, width, a),
        Atom::Literal { .. } => Ok(()),
    }
}

// What has the turned value: the first wire, or a literal.
fn turned_atom(alloc: Global, at: &Numbered, width: u32, a: &Atom) -> Result<Atom, AllocError>
    requires { width ≤ 64 }
    ensures { IfOk result (λ x. x ≡ turned_atom_lem at.now.front.now at.now.first width a.now) }
{
    match a {
        Atom::Net(_) => wire(alloc, at.front, at.first),
        Atom::Part { .. } => wire(alloc, at.front, at.first),
        Atom::Literal { width: bits, value } => Ok(literal(*bits, *value ^ half(width))),
    }
}

// With the sign bits turned, signed numbers are in the order of unsigned ones.
#[tactic(auto, using(crate::proofs::Lasts::after_is))]
fn signed_less(
    alloc: Global,
    at: &Numbered,
    width: u32,
    a: &Atom,
    b: &Atom,
) -> Result<Vec<Driver>, AllocError>
    requires { width ≤ 64 }
    ensures { IfOk result (λ v. v.items ≡ less_lem true at.now.front.now at.now.first width a.now b.now) }
{
    let mut drivers = Vec::new(alloc);
    add_turned(alloc, &mut drivers, width, a)?;
    let second = at.after(narrow(drivers.len())?)?;
    add_turned(alloc, &mut drivers, width, b)?;
    let left = turned_atom(alloc, at, width, a)?;
    let right = turned_atom(alloc, &second, width, b)?;
    drivers.push((1, binary(left, BinaryOp::Less, right)))?;
    Ok(drivers)
}

pub(crate) fn less(
    alloc: Global,
    at: &Numbered,
    kind: Kind,
    a: &Atom,
    b: &Atom,
) -> Result<Vec<Driver>, AllocError>
    ensures { IfOk result (λ v. v.items ≡ less_lem (is_signed kind) at.now.front.now at.now.first (bits_of kind) a.now b.now) }
{
    if kind.signed() {
        return signed_less(alloc, at, kind.bits(), a, b);
    }
    let less = binary(copy(alloc, a)?, BinaryOp::Less, copy(alloc, b)?);
    one(alloc, 1, less)
}

pub(crate) fn not_less(
    alloc: Global,
    at: &Numbered,
    kind: Kind,
    a: &Atom,
    b: &Atom,
) -> Result<Vec<Driver>, AllocError>
    ensures { IfOk result (λ v. v.items ≡ not_less_lem (is_signed kind) at.now.front.now at.now.first (bits_of kind) a.now b.now) }
{
    let mut drivers = less(alloc, at, kind, a, b)?;
    let result = last(alloc, at, &drivers, &literal(1, 0))?;
    drivers.push((1, Value::Invert(result)))?;
    Ok(drivers)
}

/// The result of a comparison, of one bit, for a kind of some bits.
pub(crate) fn as_wide(
    alloc: Global,
    at: &Numbered,
    width: u32,
    mut drivers: Vec<Driver>,
) -> Result<Vec<Driver>, AllocError>
    ensures { IfOk result (λ v. v.items ≡ as_wide_lem at.now.front.now at.now.first width drivers.items) }
{
    if width == 1 {
        return Ok(drivers);
    }
    let result = last(alloc, at, &drivers, &literal(1, 0))?;
    let joined = concat(alloc, literal(width.saturating_sub(1), 0), result)?;
    drivers.push((width, joined))?;
    Ok(drivers)
}
