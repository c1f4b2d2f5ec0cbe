// Values of kinds and rows of cells, as the trace uses them.

ghost use Rattle.std.specs.Prelude.{◌≡◌, ◌-◌, ◌*◌, ◌^◌, ◌<◌, IfOk, OnErr};
ghost use Rattle.kahn_model.specs.Rows.{rows_of};
ghost use Rattle.kahn_model.specs.Trace.{at_zero, cell, with_cell};
ghost use Rattle.tapa_base.specs.Kinds.{bits_of, values_of, converted};
ghost use Rattle.tapa_base.specs.Operators.{CanApply, applied};
ghost use Rattle.tapa_syntax.specs.Typed.{right_kind};

use crate::slow::Fault;
use tapa_base::{Kind, Op, apply, can_apply, convert};

// What an operator gives.
pub(crate) fn apply_values(op: Op, kind: Kind, a: u64, b: u64) -> Result<u64, Fault>
    ensures ok { IfOk result (λ v. v ≡ applied op kind a b) }
    ensures err { OnErr result (a < values_of kind → CanApply op kind b → ⊥) }
{
    if can_apply(op, kind, a, b) {
        Ok(apply(op, kind, a, b))
    } else {
        Err(Fault::NotOfItsKind)
    }
}

pub(crate) fn convert_value(from: Kind, to: Kind, v: u64) -> Result<u64, Fault>
    ensures ok { IfOk result (λ w. w ≡ converted from to v) }
    ensures err { OnErr result (v < values_of from → ⊥) }
{
    if from.holds(v) {
        Ok(convert(from, to, v))
    } else {
        Err(Fault::NotOfItsKind)
    }
}

// The cell of kind `own` that holds `old`, after `op=` with a value.
pub(crate) fn changed(own: Kind, kind: Kind, op: Op, old: u64, v: u64) -> Result<u64, Fault>
    ensures value { IfOk result (λ w. w ≡ converted kind own (applied op kind (converted own kind old) v)) }
    ensures err { OnErr result (old < values_of own → v < values_of (right_kind op kind) → CanApply op kind v → ⊥) }
{
    let left = convert_value(own, kind, old)?;
    let value = apply_values(op, kind, left, v)?;
    convert_value(kind, own, value)
}

pub(crate) fn flipped(kind: Kind, v: u64) -> u64
    ensures { result ≡ 2 ^ bits_of kind - 1 - v }
{
    let top: u64 = match kind {
        Kind::Bool => 0x1,
        Kind::I8 | Kind::U8 => 0xff,
        Kind::I16 | Kind::U16 => 0xffff,
        Kind::I32 | Kind::U32 => 0xffff_ffff,
        Kind::I64 | Kind::U64 => 0xffff_ffff_ffff_ffff,
    };
    top.saturating_sub(v)
}

pub(crate) fn negated(v: u64) -> u64
    ensures { result ≡ 1 - v }
{
    1u64.saturating_sub(v)
}

pub(crate) fn both(a: u64, b: u64) -> Result<u64, Fault>
    ensures ok { IfOk result (λ v. v ≡ a * b) }
    ensures err { OnErr result (a < 2 → b < 2 → ⊥) }
{
    match a.checked_mul(b) {
        Some(v) => Ok(v),
        None => Err(Fault::NotOfItsKind),
    }
}

pub(crate) fn either(a: u64, b: u64) -> u64
    ensures { result ≡ 1 - (1 - a) * (1 - b) }
{
    if a == 0 { u64::from(b != 0) } else { 1 }
}

pub(crate) fn chosen(v: u64, a: u64, b: u64) -> u64
    ensures { result ≡ at_zero v b a }
{
    if v == 0 { b } else { a }
}

// A cell, or 0 past the end.
pub(crate) fn cell_of(rows: &[Vec<u64>], r: u32, i: u64) -> u64
    ensures { result ≡ cell (rows_of rows.now) r i }
{
    match rows.get(r as usize) {
        Some(row) => match row.get(i as usize) {
            Some(v) => *v,
            None => 0,
        },
        None => 0,
    }
}

// A cell gets a value, where it is there.
pub(crate) fn set_cell_of(rows: &mut Vec<Vec<u64>>, r: u32, i: u64, v: u64)
    ensures { rows_of rows.new.items ≡ with_cell (rows_of rows.old.items) r i v }
{
    let r = r as usize;
    let i = i as usize;
    if r < rows.len() {
        let row = &mut rows[r];
        if i < row.len() {
            row[i] = v;
        }
    }
}
