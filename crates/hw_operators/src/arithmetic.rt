// Shifts, and division with signs.

ghost use Rattle.std.specs.Prelude.{◌≡◌, ◌≤◌, suc, if◌then◌else◌, IfOk, true};
ghost use Rattle.tapa_base.specs.Kinds.{bits_of, is_signed};
ghost use Rattle.vlog_tree.specs.declared.tree.Value.TheVariants.{Choose};
ghost use Rattle.hw_lines.specs.Drivers.{absolute as absolute_lem, divided as divided_lem, half as half_lem, is_negative as is_negative_lem, shift_count as shift_count_lem};
ghost use Rattle.hw_lines.specs.Drivers.{shifted_right as shifted_right_lem, sign_of as sign_of_lem, wire as wire_lem};

use crate::drivers::{Driver, Numbered, one};
use hw_nets::{binary, choose, copy, literal, power, sign_of, wire};
use std::alloc::{AllocError, Global};
use tapa_base::{Kind, Text, plus};
use vlog_tree::{Atom, BinaryOp, Value};

/// Half the number of values of `width` bits.
pub(crate) fn half(width: u32) -> u128
    requires { width ≤ 128 }
    ensures { result ≡ half_lem width }
{
    power(width.saturating_sub(1))
}

/// A literal count of a shift is cut to the width.
pub(crate) fn shift_count(alloc: Global, width: u32, b: &Atom) -> Result<Atom, AllocError>
    ensures { IfOk result (λ a. a ≡ shift_count_lem width b.now) }
{
    match b {
        Atom::Net(_) => copy(alloc, b),
        Atom::Part { .. } => copy(alloc, b),
        Atom::Literal { width: bits, value } => {
            let most = u128::from(width);
            Ok(literal(*bits, if *value < most { *value } else { most }))
        }
    }
}

// The next number.
fn next(n: u32) -> Result<u32, AllocError>
    ensures { IfOk result (λ m. m ≡ suc n) }
{
    plus(n, 1)
}

// The first wire where the sign is set, and else the operand itself.
fn turned(alloc: Global, at: &Numbered, width: u32, a: &Atom) -> Result<Value, AllocError>
    requires { width ≤ 64 }
    ensures { IfOk result (λ v. v ≡ Choose (sign_of_lem width a.now) (wire_lem at.now.front.now at.now.first) a.now) }
{
    let sign = sign_of(alloc, width, a)?;
    let other = wire(alloc, at.front, at.first)?;
    let itself = copy(alloc, a)?;
    Ok(choose(sign, other, itself))
}

// One wire where the sign is set, and else another.
fn by_sign(
    alloc: Global,
    front: &Text,
    yes: u32,
    no: u32,
    width: u32,
    a: &Atom,
) -> Result<Value, AllocError>
    requires { width ≤ 64 }
    ensures { IfOk result (λ v. v ≡ Choose (sign_of_lem width a.now) (wire_lem front.now yes) (wire_lem front.now no)) }
{
    let sign = sign_of(alloc, width, a)?;
    let first = wire(alloc, front, yes)?;
    let second = wire(alloc, front, no)?;
    Ok(choose(sign, first, second))
}

// Every bit turned where the sign is set, shifted, and turned back.
fn signed_shift(
    alloc: Global,
    at: &Numbered,
    width: u32,
    a: &Atom,
    b: &Atom,
) -> Result<Vec<Driver>, AllocError>
    requires { width ≤ 64 }
    ensures { IfOk result (λ v. v.items ≡ shifted_right_lem true at.now.front.now at.now.first width a.now b.now) }
{
    let second = next(at.first)?;
    let third = next(second)?;
    let fourth = next(third)?;
    let mut drivers = one(alloc, width, Value::Invert(copy(alloc, a)?))?;
    drivers.push((width, turned(alloc, at, width, a)?))?;
    let count = shift_count(alloc, width, b)?;
    let shifted = binary(wire(alloc, at.front, second)?, BinaryOp::ShiftRight, count);
    drivers.push((width, shifted))?;
    drivers.push((width, Value::Invert(wire(alloc, at.front, third)?)))?;
    drivers.push((width, by_sign(alloc, at.front, fourth, third, width, a)?))?;
    Ok(drivers)
}

pub(crate) fn shifted_right(
    alloc: Global,
    at: &Numbered,
    kind: Kind,
    a: &Atom,
    b: &Atom,
) -> Result<Vec<Driver>, AllocError>
    ensures { IfOk result (λ v. v.items ≡ shifted_right_lem (is_signed kind) at.now.front.now at.now.first (bits_of kind) a.now b.now) }
{
    let width = kind.bits();
    if kind.signed() {
        return signed_shift(alloc, at, width, a, b);
    }
    let count = shift_count(alloc, width, b)?;
    let shifted = binary(copy(alloc, a)?, BinaryOp::ShiftRight, count);
    one(alloc, width, shifted)
}

// The absolute value of a literal.
fn absolute(alloc: Global, width: u32, b: &Atom) -> Result<Atom, AllocError>
    requires { width ≤ 64 }
    ensures { IfOk result (λ a. a ≡ absolute_lem width b.now) }
{
    match b {
        Atom::Net(_) => copy(alloc, b),
        Atom::Part { .. } => copy(alloc, b),
        Atom::Literal { width: bits, value } => {
            if *value < half(width) {
                Ok(literal(*bits, *value))
            } else {
                Ok(literal(*bits, power(width).saturating_sub(*value)))
            }
        }
    }
}

/// Whether a literal is negative.
pub(crate) fn is_negative(width: u32, b: &Atom) -> bool
    requires { width ≤ 64 }
    ensures { result ≡ is_negative_lem width b.now }
{
    match b {
        Atom::Net(_) => false,
        Atom::Part { .. } => false,
        Atom::Literal { value, .. } => half(width) <= *value,
    }
}

// The sign of the dividend chooses between a wire and its opposite.
fn sign_back(
    alloc: Global,
    back: bool,
    width: u32,
    a: &Atom,
    same: Atom,
    opposite: Atom,
) -> Result<Value, AllocError>
    requires { width ≤ 64 }
    ensures { IfOk result (λ v. v ≡ Choose (sign_of_lem width a.now) (if back then same else opposite) (if back then opposite else same)) }
{
    let sign = sign_of(alloc, width, a)?;
    if back {
        Ok(choose(sign, same, opposite))
    } else {
        Ok(choose(sign, opposite, same))
    }
}

// Division on absolute values, and the sign back: a quotient's by both signs, a remainder's by the dividend's.
fn signed_division(
    alloc: Global,
    op: BinaryOp,
    back: bool,
    at: &Numbered,
    kind: Kind,
    a: &Atom,
    b: &Atom,
) -> Result<Vec<Driver>, AllocError>
    ensures { IfOk result (λ v. v.items ≡ divided_lem true op back at.now.front.now at.now.first (bits_of kind) a.now b.now) }
{
    let width = kind.bits();
    let second = next(at.first)?;
    let third = next(second)?;
    let fourth = next(third)?;
    let negated = binary(literal(width, 0), BinaryOp::Minus, copy(alloc, a)?);
    let mut drivers = one(alloc, width, negated)?;
    drivers.push((width, turned(alloc, at, width, a)?))?;
    let divisor = absolute(alloc, width, b)?;
    let divided = binary(wire(alloc, at.front, second)?, op, divisor);
    drivers.push((width, divided))?;
    let opposite = binary(
        literal(width, 0),
        BinaryOp::Minus,
        wire(alloc, at.front, third)?,
    );
    drivers.push((width, opposite))?;
    let same = wire(alloc, at.front, third)?;
    let other = wire(alloc, at.front, fourth)?;
    drivers.push((width, sign_back(alloc, back, width, a, same, other)?))?;
    Ok(drivers)
}

/// Divides, for the quotient or for the remainder.
pub(crate) fn divided(
    alloc: Global,
    op: BinaryOp,
    back: bool,
    at: &Numbered,
    kind: Kind,
    a: &Atom,
    b: &Atom,
) -> Result<Vec<Driver>, AllocError>
    ensures { IfOk result (λ v. v.items ≡ divided_lem (is_signed kind) op back at.now.front.now at.now.first (bits_of kind) a.now b.now) }
{
    if kind.signed() {
        return signed_division(alloc, op, back, at, kind, a, b);
    }
    let quotient = binary(copy(alloc, a)?, op, copy(alloc, b)?);
    one(alloc, kind.bits(), quotient)
}
