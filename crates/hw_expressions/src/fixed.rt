// Expressions of numbers alone.

ghost use Rattle.std.specs.Prelude.{◌≡◌, ◌<◌, ◌-◌, ◌*◌, ◌^◌, ◌&&◌, nat_lt};
ghost use Rattle.tapa_base.specs.Kinds.{bits_of, values_of, converted as converted_lem};
ghost use Rattle.tapa_base.specs.Operators.{applied as applied_lem};
ghost use Rattle.kahn_model.specs.Trace.{at_zero};
ghost use Rattle.task_fsm.specs.Machine.{expression_of};
ghost use Rattle.hw_lines.specs.Fixed.{can_apply as can_apply_lem, fixed as fixed_lem, only_if};

use tapa_base::{Kind, Op, apply, can_apply, convert};
use task_fsm::Expr;

fn converted(source: Kind, target: Kind, value: u64) -> Option<u64>
    ensures { result ≡ only_if (nat_lt value (values_of source)) (converted_lem source target value) }
{
    if source.holds(value) {
        Some(convert(source, target, value))
    } else {
        None
    }
}

fn applied(op: Op, kind: Kind, left: u64, right: u64) -> Option<u64>
    ensures { result ≡ only_if (nat_lt left (values_of kind) && can_apply_lem op kind right) (applied_lem op kind left right) }
{
    if can_apply(op, kind, left, right) {
        Some(apply(op, kind, left, right))
    } else {
        None
    }
}

// Every bit turned.
fn flipped(kind: Kind, value: u64) -> Option<u64>
    ensures { result ≡ only_if (nat_lt value (values_of kind)) (2 ^ bits_of kind - 1 - value) }
{
    if kind.holds(value) {
        Some(kind.flipped(value))
    } else {
        None
    }
}

fn inverse(value: u64) -> Option<u64>
    ensures { result ≡ only_if (nat_lt value 2) (1 - value) }
{
    if value < 2 { Some(1 - value) } else { None }
}

#[tactic(auto, using(crate::proofs::Fixes::both_zero, crate::proofs::Fixes::both_one))]
fn both(left: u64, right: u64) -> Option<u64>
    ensures { result ≡ only_if (nat_lt left 2 && nat_lt right 2) (left * right) }
{
    if left >= 2 || right >= 2 {
        return None;
    }
    if left == 0 { Some(0) } else { Some(right) }
}

#[tactic(auto, using(crate::proofs::Fixes::either_zero, crate::proofs::Fixes::either_one))]
fn either(left: u64, right: u64) -> Option<u64>
    ensures { result ≡ only_if (nat_lt left 2 && nat_lt right 2) (1 - (1 - left) * (1 - right)) }
{
    if left >= 2 || right >= 2 {
        return None;
    }
    if left == 0 { Some(right) } else { Some(1) }
}

#[tactic(auto, using(crate::proofs::Fixes::first_chosen, crate::proofs::Fixes::second_chosen))]
fn chosen(test: u64, yes: u64, no: u64) -> u64
    ensures { result ≡ at_zero test no yes }
{
    if test == 0 { no } else { yes }
}

/// The value of an expression of numbers alone, whose parts have their kinds.
pub(crate) fn fixed(e: &Expr) -> Option<u64>
    ensures { result ≡ fixed_lem (expression_of e.now) }
{
    match e {
        Expr::Lit(_, n) => Some(*n),
        Expr::Var(_) => None,
        Expr::Cell(_, _) => None,
        Expr::Conv { from, to, value } => {
            let value = fixed(value)?;
            converted(*from, *to, value)
        }
        Expr::Apply {
            op,
            kind,
            left,
            right,
        } => {
            let left = fixed(left)?;
            let right = fixed(right)?;
            applied(*op, *kind, left, right)
        }
        Expr::Flip(kind, e) => {
            let value = fixed(e)?;
            flipped(*kind, value)
        }
        Expr::Not(e) => {
            let value = fixed(e)?;
            inverse(value)
        }
        Expr::And(l, r) => {
            let left = fixed(l)?;
            let right = fixed(r)?;
            both(left, right)
        }
        Expr::Or(l, r) => {
            let left = fixed(l)?;
            let right = fixed(r)?;
            either(left, right)
        }
        Expr::Choose(e, a, b) => {
            let test = fixed(e)?;
            let yes = fixed(a)?;
            let no = fixed(b)?;
            Some(chosen(test, yes, no))
        }
    }
}
