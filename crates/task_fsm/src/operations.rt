// The states of an expression's operations.

ghost use Rattle.std.specs.Prelude.{◌≡◌, IfOk};
ghost use Rattle.tapa_syntax.specs.LeafKinds.{kinds_of};
ghost use Rattle.task_fsm.specs.Code.{operations, discarded, test_code};
ghost use Rattle.task_fsm.specs.Draft.{emitted};

use crate::draft::{Emission, write_held, write_state};
use crate::machine::State;
use crate::residual::residual;
use kahn_model::kinds::{memory_kind, stream_kind};
use std::alloc::{AllocError, Global};
use tapa_base::{Kind, narrow, plus};
use tapa_syntax::{Expr, Leaf};

// The operations of an expression, the last one first.
pub(crate) fn write_ops(
    alloc: Global,
    draft: &mut Emission,
    leaf: &Leaf,
    total: u32,
    e: &Expr,
) -> Result<(), AllocError>
    ensures { IfOk result (λ u. emitted draft.new ≡ operations (kinds_of leaf.now) total e.now (emitted draft.old)) }
{
    match e {
        Expr::Lit(_, _) => Ok(()),
        Expr::Var(_) => Ok(()),
        Expr::Cell(_, i) => write_ops(alloc, draft, leaf, total, i),
        Expr::Read(s) => {
            let t = narrow(draft.regs.len())?;
            let kind = stream_kind(leaf, *s);
            let next = draft.entry;
            write_held(
                draft,
                total,
                kind,
                State::Read {
                    stream: *s,
                    into: Some(t),
                    next,
                },
            )
        }
        Expr::Peek(s) => {
            let t = narrow(draft.regs.len())?;
            let kind = stream_kind(leaf, *s);
            let next = draft.entry;
            write_held(
                draft,
                total,
                kind,
                State::Peek {
                    stream: *s,
                    into: Some(t),
                    next,
                },
            )
        }
        Expr::Eot(s) => {
            let t = narrow(draft.regs.len())?;
            let next = draft.entry;
            write_held(
                draft,
                total,
                Kind::Bool,
                State::Eot {
                    stream: *s,
                    into: Some(t),
                    next,
                },
            )
        }
        Expr::Load(m, i) => {
            let t = narrow(draft.regs.len())?;
            let kind = memory_kind(leaf, *m);
            let next = draft.entry;
            let index = residual(alloc, i, plus(t, 1)?)?;
            write_held(
                draft,
                total,
                kind,
                State::Load {
                    memory: *m,
                    index,
                    into: Some(t),
                    next,
                },
            )?;
            write_ops(alloc, draft, leaf, total, i)
        }
        Expr::Conv { value, .. } => write_ops(alloc, draft, leaf, total, value),
        Expr::Apply { left, right, .. } => {
            write_ops(alloc, draft, leaf, total, right)?;
            write_ops(alloc, draft, leaf, total, left)
        }
        Expr::Flip(_, e) => write_ops(alloc, draft, leaf, total, e),
        Expr::Not(e) => write_ops(alloc, draft, leaf, total, e),
        Expr::And(l, r) => {
            write_ops(alloc, draft, leaf, total, r)?;
            write_ops(alloc, draft, leaf, total, l)
        }
        Expr::Or(l, r) => {
            write_ops(alloc, draft, leaf, total, r)?;
            write_ops(alloc, draft, leaf, total, l)
        }
        Expr::Choose(e, a, b) => {
            write_ops(alloc, draft, leaf, total, b)?;
            write_ops(alloc, draft, leaf, total, a)?;
            write_ops(alloc, draft, leaf, total, e)
        }
    }
}

// An expression that is a statement.
pub(crate) fn write_alone(
    alloc: Global,
    draft: &mut Emission,
    leaf: &Leaf,
    total: u32,
    e: &Expr,
) -> Result<(), AllocError>
    ensures { IfOk result (λ u. emitted draft.new ≡ discarded (kinds_of leaf.now) total e.now (emitted draft.old)) }
{
    let next = draft.entry;
    match e {
        Expr::Read(s) => write_state(
            draft,
            total,
            State::Read {
                stream: *s,
                into: None,
                next,
            },
        ),
        Expr::Peek(s) => write_state(
            draft,
            total,
            State::Peek {
                stream: *s,
                into: None,
                next,
            },
        ),
        Expr::Eot(s) => write_state(
            draft,
            total,
            State::Eot {
                stream: *s,
                into: None,
                next,
            },
        ),
        Expr::Load(m, i) => {
            let t = narrow(draft.regs.len())?;
            let index = residual(alloc, i, t)?;
            write_state(
                draft,
                total,
                State::Load {
                    memory: *m,
                    index,
                    into: None,
                    next,
                },
            )?;
            write_ops(alloc, draft, leaf, total, i)
        }
        _ => write_ops(alloc, draft, leaf, total, e),
    }
}

// A test, which goes on to the next state where it holds, and to state `no` where not.
pub(crate) fn write_test(
    alloc: Global,
    draft: &mut Emission,
    leaf: &Leaf,
    total: u32,
    e: &Expr,
    no: u32,
) -> Result<(), AllocError>
    ensures { IfOk result (λ u. emitted draft.new ≡ test_code (kinds_of leaf.now) total e.now no (emitted draft.old)) }
{
    let t = narrow(draft.regs.len())?;
    let test = residual(alloc, e, t)?;
    let yes = draft.entry;
    write_state(draft, total, State::Test { test, yes, no })?;
    write_ops(alloc, draft, leaf, total, e)
}
