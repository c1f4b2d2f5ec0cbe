// Values of one width as values of another.

ghost use Rattle.std.specs.Prelude.{◌≡◌, ◌≤◌, IfOk, true};
ghost use Rattle.hw_lines.specs.Drivers.{conversion as conversion_lem, extended as extended_lem, resized as resized_lem, tested as tested_lem};

use crate::drivers::{Driver, Numbered, one};
use hw_nets::{binary, concat, copy, literal, low_bits, sign_of, wire};
use std::alloc::{AllocError, Global};
use tapa_base::Kind;
use vlog_tree::{Atom, BinaryOp, Value};

// An extension by copies of the sign.
fn sign_extended(
    alloc: Global,
    at: &Numbered,
    narrow: u32,
    wide: u32,
    a: &Atom,
) -> Result<Vec<Driver>, AllocError>
    requires { narrow ≤ 64 }
    ensures { IfOk result (λ v. v.items ≡ extended_lem true at.now.front.now at.now.first narrow wide a.now) }
{
    let more = wide.saturating_sub(narrow);
    let copies = Value::Repeat {
        count: more,
        atom: sign_of(alloc, narrow, a)?,
    };
    let mut drivers = one(alloc, more, copies)?;
    let joined = concat(alloc, wire(alloc, at.front, at.first)?, copy(alloc, a)?)?;
    drivers.push((wide, joined))?;
    Ok(drivers)
}

// An extension by zeros, or by copies of the sign.
fn extended(
    alloc: Global,
    signed: bool,
    at: &Numbered,
    narrow: u32,
    wide: u32,
    a: &Atom,
) -> Result<Vec<Driver>, AllocError>
    requires { narrow ≤ 64 }
    ensures { IfOk result (λ v. v.items ≡ extended_lem signed at.now.front.now at.now.first narrow wide a.now) }
{
    if signed {
        return sign_extended(alloc, at, narrow, wide, a);
    }
    let zeros = literal(wide.saturating_sub(narrow), 0);
    let joined = concat(alloc, zeros, copy(alloc, a)?)?;
    one(alloc, wide, joined)
}

fn resized(
    alloc: Global,
    signed: bool,
    at: &Numbered,
    old: u32,
    new: u32,
    a: &Atom,
) -> Result<Vec<Driver>, AllocError>
    requires old_width { old ≤ 64 }
    requires new_width { new ≤ 64 }
    ensures { IfOk result (λ v. v.items ≡ resized_lem signed at.now.front.now at.now.first old new a.now) }
{
    if old == new {
        Ok(Vec::new(alloc))
    } else if new < old {
        one(alloc, new, Value::Plain(low_bits(alloc, new, a)?))
    } else {
        extended(alloc, signed, at, old, new, a)
    }
}

// Whether it is not 0.
fn tested(alloc: Global, width: u32, a: &Atom) -> Result<Vec<Driver>, AllocError>
    ensures { IfOk result (λ v. v.items ≡ tested_lem width a.now) }
{
    if width == 1 {
        Ok(Vec::new(alloc))
    } else {
        let differs = binary(copy(alloc, a)?, BinaryOp::Differs, literal(width, 0));
        one(alloc, 1, differs)
    }
}

/// A value of one kind as one of another.
pub fn conversion(
    alloc: Global,
    at: &Numbered,
    source: Kind,
    target: Kind,
    a: &Atom,
) -> Result<Vec<Driver>, AllocError>
    ensures { IfOk result (λ v. v.items ≡ conversion_lem at.now.front.now at.now.first source target a.now) }
{
    let old = source.bits();
    let new = target.bits();
    match target {
        Kind::Bool => tested(alloc, old, a),
        _ => resized(alloc, source.signed(), at, old, new, a),
    }
}
