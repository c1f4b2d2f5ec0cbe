// What is left of an expression whose operations have registers.

ghost use Rattle.std.specs.Prelude.{◌≡◌, IfOk};
ghost use Rattle.task_fsm.specs.Code.{residual as residual_lem, old_with};
ghost use Rattle.task_fsm.specs.Machine.{expression_of, CellOf, Converted, Reg};

use crate::machine::Expr;
use crate::size::count_of;
use std::alloc::{AllocError, Global};
use tapa_base::{Kind, Op, plus};
use tapa_syntax::Expr as Source;

// What is left of an expression, in a box.
#[cycle(residual)]
pub(crate) fn boxed(alloc: Global, e: &Source, t: u32) -> Result<Box<Expr>, AllocError>
    ensures { IfOk result (λ r. expression_of r.value ≡ residual_lem e.now t) }
{
    let left = residual(alloc, e, t)?;
    Ok(Box::new(alloc, left)?)
}

// What is left of an expression whose operations have their values in the registers from t on.
#[cycle(residual)]
pub(crate) fn residual(alloc: Global, e: &Source, t: u32) -> Result<Expr, AllocError>
    ensures { IfOk result (λ r. expression_of r ≡ residual_lem e.now t) }
{
    match e {
        Source::Lit(kind, n) => Ok(Expr::Lit(*kind, *n)),
        Source::Var(x) => Ok(Expr::Var(*x)),
        Source::Cell(a, i) => Ok(Expr::Cell(*a, boxed(alloc, i, t)?)),
        Source::Read(_) | Source::Peek(_) | Source::Eot(_) | Source::Load(_, _) => Ok(Expr::Var(t)),
        Source::Conv { from, to, value } => Ok(Expr::Conv {
            from: *from,
            to: *to,
            value: boxed(alloc, value, t)?,
        }),
        Source::Apply {
            op,
            kind,
            left,
            right,
        } => {
            let after = plus(t, count_of(right)?)?;
            Ok(Expr::Apply {
                op: *op,
                kind: *kind,
                left: boxed(alloc, left, after)?,
                right: boxed(alloc, right, t)?,
            })
        }
        Source::Flip(kind, e) => Ok(Expr::Flip(*kind, boxed(alloc, e, t)?)),
        Source::Not(e) => Ok(Expr::Not(boxed(alloc, e, t)?)),
        Source::And(l, r) => {
            let after = plus(t, count_of(r)?)?;
            Ok(Expr::And(boxed(alloc, l, after)?, boxed(alloc, r, t)?))
        }
        Source::Or(l, r) => {
            let after = plus(t, count_of(r)?)?;
            Ok(Expr::Or(boxed(alloc, l, after)?, boxed(alloc, r, t)?))
        }
        Source::Choose(e, a, b) => {
            let second = count_of(b)?;
            let both = plus(second, count_of(a)?)?;
            Ok(Expr::Choose(
                boxed(alloc, e, plus(t, both)?)?,
                boxed(alloc, a, plus(t, second)?)?,
                boxed(alloc, b, t)?,
            ))
        }
    }
}

// An old value of kind k combined with another by an operator in a kind of its own.
pub(crate) fn joined(
    alloc: Global,
    op: Op,
    kind: Kind,
    k: Kind,
    old: Expr,
    new: Expr,
) -> Result<Expr, AllocError>
    ensures { IfOk result (λ r. expression_of r ≡ old_with op kind k (expression_of old) (expression_of new)) }
{
    let left = Expr::Conv {
        from: k,
        to: kind,
        value: Box::new(alloc, old)?,
    };
    let value = Expr::Apply {
        op,
        kind,
        left: Box::new(alloc, left)?,
        right: Box::new(alloc, new)?,
    };
    Ok(Expr::Conv {
        from: kind,
        to: k,
        value: Box::new(alloc, value)?,
    })
}

// A register's value.
pub(crate) fn register(t: u32) -> Expr
    ensures { expression_of result ≡ Reg t }
{
    Expr::Var(t)
}

// The value of a cell of an array, whose index is the residual of an expression.
pub(crate) fn cell_at(alloc: Global, array: u32, i: &Source, t: u32) -> Result<Expr, AllocError>
    ensures { IfOk result (λ r. expression_of r ≡ CellOf array (residual_lem i.now t)) }
{
    Ok(Expr::Cell(array, boxed(alloc, i, t)?))
}

// A register's value in another kind.
pub(crate) fn converted(alloc: Global, from: Kind, to: Kind, t: u32) -> Result<Expr, AllocError>
    ensures { IfOk result (λ r. expression_of r ≡ Converted from to (Reg t)) }
{
    Ok(Expr::Conv {
        from,
        to,
        value: Box::new(alloc, Expr::Var(t))?,
    })
}
