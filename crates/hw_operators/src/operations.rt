// Every operator.

ghost use Rattle.std.specs.Prelude.{◌≡◌, IfOk};
ghost use Rattle.tapa_base.specs.Kinds.{bits_of, is_signed};
ghost use Rattle.vlog_tree.specs.declared.tree.Value.TheVariants.{Binary};
ghost use Rattle.vlog_tree.specs.declared.tree.BinaryOp.TheVariants.{Divide, ShiftLeft};
ghost use Rattle.hw_lines.specs.Drivers.{as_wide as as_wide_lem, divided as divided_lem, is_negative as is_negative_lem, less as less_lem, not_less as not_less_lem, one as one_lem, operation as operation_lem, shift_count as shift_count_lem};

use crate::arithmetic::{divided, is_negative, shift_count, shifted_right};
use crate::comparisons::{as_wide, less, not_less};
use crate::drivers::{Driver, Numbered, one};
use hw_nets::{binary, copy};
use std::alloc::{AllocError, Global};
use tapa_base::{Kind, Op};
use vlog_tree::{Atom, BinaryOp};

/// An operator with the kind of its operands, and the kind that is requested, which a comparison's result has.
#[derive(Clone, Copy)]
pub struct Operator {
    pub op: Op,
    pub kind: Kind,
    pub asked: Kind,
}

// One wire of a width.
fn plain(
    alloc: Global,
    width: u32,
    op: BinaryOp,
    a: &Atom,
    b: &Atom,
) -> Result<Vec<Driver>, AllocError>
    ensures { IfOk result (λ v. v.items ≡ one_lem width (Binary a.now op b.now)) }
{
    let value = binary(copy(alloc, a)?, op, copy(alloc, b)?);
    one(alloc, width, value)
}

fn shifted_left(alloc: Global, width: u32, a: &Atom, b: &Atom) -> Result<Vec<Driver>, AllocError>
    ensures { IfOk result (λ v. v.items ≡ one_lem width (Binary a.now ShiftLeft (shift_count_lem width b.now))) }
{
    let count = shift_count(alloc, width, b)?;
    let value = binary(copy(alloc, a)?, BinaryOp::ShiftLeft, count);
    one(alloc, width, value)
}

fn compared(
    alloc: Global,
    op: BinaryOp,
    at: &Numbered,
    asked: Kind,
    a: &Atom,
    b: &Atom,
) -> Result<Vec<Driver>, AllocError>
    ensures { IfOk result (λ v. v.items ≡ as_wide_lem at.now.front.now at.now.first (bits_of asked) (one_lem 1 (Binary a.now op b.now))) }
{
    let drivers = plain(alloc, 1, op, a, b)?;
    as_wide(alloc, at, asked.bits(), drivers)
}

fn below(
    alloc: Global,
    at: &Numbered,
    kind: Kind,
    asked: Kind,
    a: &Atom,
    b: &Atom,
) -> Result<Vec<Driver>, AllocError>
    ensures { IfOk result (λ v. v.items ≡ as_wide_lem at.now.front.now at.now.first (bits_of asked)
        (less_lem (is_signed kind) at.now.front.now at.now.first (bits_of kind) a.now b.now)) }
{
    let drivers = less(alloc, at, kind, a, b)?;
    as_wide(alloc, at, asked.bits(), drivers)
}

fn not_below(
    alloc: Global,
    at: &Numbered,
    kind: Kind,
    asked: Kind,
    a: &Atom,
    b: &Atom,
) -> Result<Vec<Driver>, AllocError>
    ensures { IfOk result (λ v. v.items ≡ as_wide_lem at.now.front.now at.now.first (bits_of asked)
        (not_less_lem (is_signed kind) at.now.front.now at.now.first (bits_of kind) a.now b.now)) }
{
    let drivers = not_less(alloc, at, kind, a, b)?;
    as_wide(alloc, at, asked.bits(), drivers)
}

fn quotient(
    alloc: Global,
    at: &Numbered,
    kind: Kind,
    a: &Atom,
    b: &Atom,
) -> Result<Vec<Driver>, AllocError>
    ensures { IfOk result (λ v. v.items ≡ divided_lem (is_signed kind) Divide (is_negative_lem (bits_of kind) b.now) at.now.front.now at.now.first (bits_of kind) a.now b.now) }
{
    let back = is_negative(kind.bits(), b);
    divided(alloc, BinaryOp::Divide, back, at, kind, a, b)
}

/// An operator in a kind, for a result of another kind where it is a comparison.
pub fn operation(
    alloc: Global,
    at: &Numbered,
    operator: Operator,
    a: &Atom,
    b: &Atom,
) -> Result<Vec<Driver>, AllocError>
    ensures { IfOk result (λ v. v.items ≡ operation_lem at.now.front.now at.now.first operator.op operator.kind operator.asked a.now b.now) }
{
    let Operator { op, kind, asked } = operator;
    let width = kind.bits();
    match op {
        Op::Add => plain(alloc, width, BinaryOp::Plus, a, b),
        Op::Sub => plain(alloc, width, BinaryOp::Minus, a, b),
        Op::Mul => plain(alloc, width, BinaryOp::Times, a, b),
        Op::Div => quotient(alloc, at, kind, a, b),
        Op::Rem => divided(alloc, BinaryOp::Remainder, false, at, kind, a, b),
        Op::And => plain(alloc, width, BinaryOp::And, a, b),
        Op::Or => plain(alloc, width, BinaryOp::Or, a, b),
        Op::Xor => plain(alloc, width, BinaryOp::Xor, a, b),
        Op::Shl => shifted_left(alloc, width, a, b),
        Op::Shr => shifted_right(alloc, at, kind, a, b),
        Op::Eq => compared(alloc, BinaryOp::Equals, at, asked, a, b),
        Op::Ne => compared(alloc, BinaryOp::Differs, at, asked, a, b),
        Op::Lt => below(alloc, at, kind, asked, a, b),
        Op::Le => not_below(alloc, at, kind, asked, b, a),
        Op::Gt => below(alloc, at, kind, asked, b, a),
        Op::Ge => not_below(alloc, at, kind, asked, a, b),
    }
}
