// The kind that an operator is done in, and the kind that the arms of a choice share.
ghost use Rattle.std.specs.Prelude.{◌≡◌};
ghost use Rattle.check_expression.specs.Kinds as spec;
ghost use Rattle.check_expression.specs.Expressions as meaning;

use tapa_base::{Kind, Op};

fn rank(kind: Kind) -> u8
    ensures { result ≡ spec.rank kind }
{
    match kind {
        Kind::Bool => 0,
        Kind::I8 => 1,
        Kind::U8 => 2,
        Kind::I16 => 3,
        Kind::U16 => 4,
        Kind::I32 => 5,
        Kind::U32 => 6,
        Kind::I64 => 7,
        Kind::U64 => 8,
    }
}

/// Whether two kinds are one.
pub fn same_kind(first: Kind, second: Kind) -> bool
    ensures { result ≡ spec.same_kind first second }
{
    rank(first) == rank(second)
}

/// The kind in which an operator is done (ISO C++ [expr.arith.conv], [expr.shift]).
pub fn operated_kind(op: Op, left: Kind, right: Kind) -> Kind
    ensures { result ≡ meaning.operated_kind op left right }
{
    match op {
        Op::Shl | Op::Shr => left.promoted(),
        _ => left.join(right),
    }
}

/// The kind that two arms of a choice share (ISO C++ [expr.cond]).
pub(crate) fn arm_kind(first: Kind, second: Kind) -> Kind
    ensures { result ≡ meaning.arm_kind first second }
{
    if same_kind(first, second) {
        first
    } else {
        first.join(second)
    }
}
