//! The number of tick places of code.
ghost use Rattle.std.specs.Prelude.{◌≡◌, ◌+◌, ℕ};
ghost use Rattle.tapa_syntax.specs.TickPlaces as ticks;
ghost use Rattle.tapa_syntax.specs.TickPlaces.{capped};

use crate::program::{Expr, Stmt};

/// The operations of an expression on streams and memories, at most the greatest number.
pub fn operations(value: &Expr) -> u64
    ensures { result ≡ capped (ticks.operation_count value.now) }
{
    match value {
        Expr::Lit(_, _) => 0,
        Expr::Var(_) => 0,
        Expr::Cell(_, index) => operations(index),
        Expr::Read(_) => 1,
        Expr::Peek(_) => 1,
        Expr::Eot(_) => 1,
        Expr::Load(_, index) => operations(index).saturating_add(1),
        Expr::Conv { value, .. } => operations(value),
        Expr::Apply { left, right, .. } => operations(left).saturating_add(operations(right)),
        Expr::Flip(_, value) => operations(value),
        Expr::Not(value) => operations(value),
        Expr::And(left, right) => operations(left).saturating_add(operations(right)),
        Expr::Or(left, right) => operations(left).saturating_add(operations(right)),
        Expr::Choose(test, first, second) => operations(test)
            .saturating_add(operations(first))
            .saturating_add(operations(second)),
    }
}

/// The operations of two expressions, and `more` tick places.
fn two(first: &Expr, second: &Expr, more: u64) -> u64
    ensures { result ≡ capped (more + ticks.operation_count second.now + ticks.operation_count first.now) }
{
    operations(first)
        .saturating_add(operations(second))
        .saturating_add(more)
}

/// The tick places of a choice or a loop: one, those of its test, and those of its two parts, `first` and `second`.
fn with_test(test: &Expr, first: u64, second: u64) -> u64
    ensures { (m n : ℕ) → first ≡ capped m → second ≡ capped n → result ≡ capped (n + m + (1 + ticks.operation_count test.now)) }
{
    operations(test)
        .saturating_add(1)
        .saturating_add(first)
        .saturating_add(second)
}

/// The tick places of a statement, at most the greatest number.
#[cycle(places)]
fn places(statement: &Stmt) -> u64
    ensures { result ≡ capped (ticks.size_of statement.now) }
{
    match statement {
        Stmt::Set(_, value) => operations(value).saturating_add(1),
        Stmt::SetCell { index, value, .. } => two(value, index, 1),
        Stmt::SetCellBy { index, value, .. } => two(value, index, 1),
        Stmt::Store { index, value, .. } => two(value, index, 1),
        Stmt::StoreBy { index, value, .. } => two(value, index, 2),
        Stmt::ReadVar { .. } => 2,
        Stmt::ReadCell { index, .. } => operations(index).saturating_add(2),
        Stmt::ReadStore { index, .. } => operations(index).saturating_add(2),
        Stmt::Write(_, value) => operations(value).saturating_add(1),
        Stmt::Open(_) => 1,
        Stmt::Close(_) => 1,
        Stmt::Discard(value) => operations(value),
        Stmt::Clear(_) => 1,
        Stmt::If(test, left, right) => with_test(test, places_in(left), places_in(right)),
        Stmt::Loop { test, body, step } => with_test(test, places_in(body), places_in(step)),
        Stmt::Break => 0,
        Stmt::Continue => 0,
    }
}

/// The tick places of statements, at most the greatest number. A leaf has one more, its end.
#[cycle(places)]
pub fn places_in(code: &[Stmt]) -> u64
    ensures { result ≡ capped (ticks.size_of_list code.now) }
{
    let mut sum: u64 = 0;
    for statement in code {
        sum = sum.saturating_add(places(statement));
    }
    sum
}
