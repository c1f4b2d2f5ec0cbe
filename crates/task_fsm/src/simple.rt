// Statements that have no others in them.

ghost use Rattle.std.specs.Prelude.{◌≡◌, IfOk};
ghost use Rattle.tapa_syntax.specs.declared.program.Stmt.TheVariants.{Set, SetCell, SetCellBy, Store, StoreBy, ReadVar, ReadCell, ReadStore, Write};
ghost use Rattle.tapa_syntax.specs.LeafKinds.{kinds_of};
ghost use Rattle.task_fsm.specs.Code.{plain_code};
ghost use Rattle.task_fsm.specs.Draft.{emitted};

use crate::draft::{Emission, write_held, write_state};
use crate::machine::State;
use crate::operations::write_ops;
use crate::residual::{cell_at, converted, joined, register, residual};
use crate::size::count_of;
use kahn_model::kinds::{array_kind, memory_kind, stream_kind, var_kind};
use std::alloc::{AllocError, Global};
use tapa_base::{Kind, Op, narrow, plus};
use tapa_syntax::{Expr, Leaf};

// `x = e`
pub(crate) fn write_set(
    alloc: Global,
    draft: &mut Emission,
    leaf: &Leaf,
    total: u32,
    x: u32,
    e: &Expr,
) -> Result<(), AllocError>
    ensures { IfOk result (λ u. emitted draft.new ≡ plain_code (kinds_of leaf.now) total (Set x e.now) (emitted draft.old)) }
{
    let t = narrow(draft.regs.len())?;
    let next = draft.entry;
    let value = residual(alloc, e, t)?;
    write_state(
        draft,
        total,
        State::Set {
            reg: x,
            value,
            next,
        },
    )?;
    write_ops(alloc, draft, leaf, total, e)
}

// `a[i] = e`
pub(crate) fn write_set_cell(
    alloc: Global,
    draft: &mut Emission,
    leaf: &Leaf,
    total: u32,
    array: u32,
    i: &Expr,
    e: &Expr,
) -> Result<(), AllocError>
    ensures { IfOk result (λ u. emitted draft.new ≡ plain_code (kinds_of leaf.now) total (SetCell array i.now e.now) (emitted draft.old)) }
{
    let t = narrow(draft.regs.len())?;
    let next = draft.entry;
    let after = plus(t, count_of(i)?)?;
    let index = residual(alloc, i, t)?;
    let value = residual(alloc, e, after)?;
    let state = State::Cell {
        array,
        index,
        value,
        next,
    };
    write_state(draft, total, state)?;
    write_ops(alloc, draft, leaf, total, i)?;
    write_ops(alloc, draft, leaf, total, e)
}

// `a[i] op= e`
pub(crate) fn write_set_cell_by(
    alloc: Global,
    draft: &mut Emission,
    leaf: &Leaf,
    total: u32,
    array: u32,
    i: &Expr,
    op: Op,
    kind: Kind,
    e: &Expr,
) -> Result<(), AllocError>
    ensures { IfOk result (λ u. emitted draft.new ≡ plain_code (kinds_of leaf.now) total (SetCellBy array i.now op kind e.now) (emitted draft.old)) }
{
    let t = narrow(draft.regs.len())?;
    let next = draft.entry;
    let after = plus(t, count_of(i)?)?;
    let old = cell_at(alloc, array, i, t)?;
    let new = residual(alloc, e, after)?;
    let value = joined(alloc, op, kind, array_kind(leaf, array), old, new)?;
    let index = residual(alloc, i, t)?;
    let state = State::Cell {
        array,
        index,
        value,
        next,
    };
    write_state(draft, total, state)?;
    write_ops(alloc, draft, leaf, total, i)?;
    write_ops(alloc, draft, leaf, total, e)
}

// `m[i] = e`
pub(crate) fn write_store(
    alloc: Global,
    draft: &mut Emission,
    leaf: &Leaf,
    total: u32,
    memory: u32,
    i: &Expr,
    e: &Expr,
) -> Result<(), AllocError>
    ensures { IfOk result (λ u. emitted draft.new ≡ plain_code (kinds_of leaf.now) total (Store memory i.now e.now) (emitted draft.old)) }
{
    let t = narrow(draft.regs.len())?;
    let next = draft.entry;
    let after = plus(t, count_of(i)?)?;
    let index = residual(alloc, i, t)?;
    let value = residual(alloc, e, after)?;
    let state = State::Store {
        memory,
        index,
        value,
        next,
    };
    write_state(draft, total, state)?;
    write_ops(alloc, draft, leaf, total, i)?;
    write_ops(alloc, draft, leaf, total, e)
}

// `m[i] op= e`
pub(crate) fn write_store_by(
    alloc: Global,
    draft: &mut Emission,
    leaf: &Leaf,
    total: u32,
    memory: u32,
    i: &Expr,
    op: Op,
    kind: Kind,
    e: &Expr,
) -> Result<(), AllocError>
    ensures { IfOk result (λ u. emitted draft.new ≡ plain_code (kinds_of leaf.now) total (StoreBy memory i.now op kind e.now) (emitted draft.old)) }
{
    let t = narrow(draft.regs.len())?;
    let next = draft.entry;
    let cells = memory_kind(leaf, memory);
    let after = plus(t, 1)?;
    let behind = plus(after, count_of(i)?)?;
    let new = residual(alloc, e, behind)?;
    let value = joined(alloc, op, kind, cells, register(t), new)?;
    let index = residual(alloc, i, after)?;
    let state = State::Store {
        memory,
        index,
        value,
        next,
    };
    write_state(draft, total, state)?;
    let index = residual(alloc, i, after)?;
    let next = draft.entry;
    let state = State::Load {
        memory,
        index,
        into: Some(t),
        next,
    };
    write_held(draft, total, cells, state)?;
    write_ops(alloc, draft, leaf, total, i)?;
    write_ops(alloc, draft, leaf, total, e)
}

// `s >> x`
pub(crate) fn write_read_var(
    alloc: Global,
    draft: &mut Emission,
    leaf: &Leaf,
    total: u32,
    stream: u32,
    var: u32,
) -> Result<(), AllocError>
    ensures { IfOk result (λ u. emitted draft.new ≡ plain_code (kinds_of leaf.now) total (ReadVar stream var) (emitted draft.old)) }
{
    let t = narrow(draft.regs.len())?;
    let next = draft.entry;
    let kind = stream_kind(leaf, stream);
    let value = converted(alloc, kind, var_kind(leaf, var), t)?;
    write_state(
        draft,
        total,
        State::Set {
            reg: var,
            value,
            next,
        },
    )?;
    let next = draft.entry;
    let state = State::Read {
        stream,
        into: Some(t),
        next,
    };
    write_held(draft, total, kind, state)
}

// `s >> a[i]`
pub(crate) fn write_read_cell(
    alloc: Global,
    draft: &mut Emission,
    leaf: &Leaf,
    total: u32,
    stream: u32,
    array: u32,
    i: &Expr,
) -> Result<(), AllocError>
    ensures { IfOk result (λ u. emitted draft.new ≡ plain_code (kinds_of leaf.now) total (ReadCell stream array i.now) (emitted draft.old)) }
{
    let t = narrow(draft.regs.len())?;
    let next = draft.entry;
    let kind = stream_kind(leaf, stream);
    let index = residual(alloc, i, plus(t, 1)?)?;
    let value = converted(alloc, kind, array_kind(leaf, array), t)?;
    let state = State::Cell {
        array,
        index,
        value,
        next,
    };
    write_state(draft, total, state)?;
    let next = draft.entry;
    let state = State::Read {
        stream,
        into: Some(t),
        next,
    };
    write_held(draft, total, kind, state)?;
    write_ops(alloc, draft, leaf, total, i)
}

// `s >> m[i]`
pub(crate) fn write_read_store(
    alloc: Global,
    draft: &mut Emission,
    leaf: &Leaf,
    total: u32,
    stream: u32,
    memory: u32,
    i: &Expr,
) -> Result<(), AllocError>
    ensures { IfOk result (λ u. emitted draft.new ≡ plain_code (kinds_of leaf.now) total (ReadStore stream memory i.now) (emitted draft.old)) }
{
    let t = narrow(draft.regs.len())?;
    let next = draft.entry;
    let kind = stream_kind(leaf, stream);
    let index = residual(alloc, i, plus(t, 1)?)?;
    let value = converted(alloc, kind, memory_kind(leaf, memory), t)?;
    let state = State::Store {
        memory,
        index,
        value,
        next,
    };
    write_state(draft, total, state)?;
    let next = draft.entry;
    let state = State::Read {
        stream,
        into: Some(t),
        next,
    };
    write_held(draft, total, kind, state)?;
    write_ops(alloc, draft, leaf, total, i)
}

// `s << e`
pub(crate) fn write_write(
    alloc: Global,
    draft: &mut Emission,
    leaf: &Leaf,
    total: u32,
    stream: u32,
    e: &Expr,
) -> Result<(), AllocError>
    ensures { IfOk result (λ u. emitted draft.new ≡ plain_code (kinds_of leaf.now) total (Write stream e.now) (emitted draft.old)) }
{
    let t = narrow(draft.regs.len())?;
    let next = draft.entry;
    let value = residual(alloc, e, t)?;
    write_state(
        draft,
        total,
        State::Write {
            stream,
            value,
            next,
        },
    )?;
    write_ops(alloc, draft, leaf, total, e)
}
