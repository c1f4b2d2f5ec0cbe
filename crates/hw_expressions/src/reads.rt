// What an expression reads of arrays.

ghost use Rattle.std.specs.Prelude.{◌≡◌, ◌++◌, IfOk};
ghost use Rattle.task_fsm.specs.Machine.{expression_of};
ghost use Rattle.hw_lines.specs.Wires.{read_count as read_count_lem, reads_in};
ghost use Rattle.hw_expressions.specs.Reads.{read_forms};

use std::alloc::AllocError;
use tapa_base::plus;
use task_fsm::Expr;

/// A read of an array: its index, and the number of the first read in that.
#[derive(Clone, Copy)]
pub struct ArrayRead<'a> {
    pub array: u32,
    pub index: &'a Expr,
    pub first: u32,
}

/// How many reads of arrays an expression has.
pub fn read_count(e: &Expr) -> Result<u32, AllocError>
    ensures { IfOk result (λ n. n ≡ read_count_lem (expression_of e.now)) }
{
    match e {
        Expr::Lit(_, _) => Ok(0),
        Expr::Var(_) => Ok(0),
        Expr::Cell(_, i) => plus(read_count(i)?, 1),
        Expr::Conv { value, .. } => read_count(value),
        Expr::Apply { left, right, .. } => plus(read_count(left)?, read_count(right)?),
        Expr::Flip(_, e) => read_count(e),
        Expr::Not(e) => read_count(e),
        Expr::And(l, r) => plus(read_count(l)?, read_count(r)?),
        Expr::Or(l, r) => plus(read_count(l)?, read_count(r)?),
        Expr::Choose(e, a, b) => {
            let test = read_count(e)?;
            let branches = plus(read_count(a)?, read_count(b)?)?;
            plus(test, branches)
        }
    }
}

/// Adds the reads of an expression, of which the first has a number: inner reads come first, and the left ones before the
/// right ones.
pub fn add_reads<'a>(reads: &mut Vec<ArrayRead<'a>>, m: u32, e: &'a Expr) -> Result<(), AllocError>
    ensures { IfOk result (λ u. read_forms reads.new.items ≡ read_forms reads.old.items ++ reads_in m (expression_of e.now)) }
{
    match e {
        Expr::Lit(_, _) => Ok(()),
        Expr::Var(_) => Ok(()),
        Expr::Cell(a, i) => {
            add_reads(reads, m, i)?;
            reads.push(ArrayRead {
                array: *a,
                index: i,
                first: m,
            })?;
            Ok(())
        }
        Expr::Conv { value, .. } => {
            add_reads(reads, m, value)?;
            Ok(())
        }
        Expr::Apply { left, right, .. } => {
            let second = plus(m, read_count(left)?)?;
            add_reads(reads, m, left)?;
            add_reads(reads, second, right)?;
            Ok(())
        }
        Expr::Flip(_, e) => {
            add_reads(reads, m, e)?;
            Ok(())
        }
        Expr::Not(e) => {
            add_reads(reads, m, e)?;
            Ok(())
        }
        Expr::And(l, r) => {
            let second = plus(m, read_count(l)?)?;
            add_reads(reads, m, l)?;
            add_reads(reads, second, r)?;
            Ok(())
        }
        Expr::Or(l, r) => {
            let second = plus(m, read_count(l)?)?;
            add_reads(reads, m, l)?;
            add_reads(reads, second, r)?;
            Ok(())
        }
        Expr::Choose(e, a, b) => {
            let second = plus(m, read_count(e)?)?;
            let third = plus(second, read_count(a)?)?;
            add_reads(reads, m, e)?;
            add_reads(reads, second, a)?;
            add_reads(reads, third, b)?;
            Ok(())
        }
    }
}
