// Operators on numbers of at most 128 bits.

ghost use Rattle.std.specs.Prelude.{◌≡◌, ◌+◌, ◌-◌, ◌*◌, ◌/◌, ◌%◌, ◌^◌, ◌<◌, ◌≤◌};
ghost use Rattle.vlog_tree.specs.Cycle.{op_value};
ghost use Rattle.vlog_tree.specs.Table.{one_if};

use vlog_tree::BinaryOp;

/// The low bits of a number.
pub(crate) fn low_bits(n: u128, bits: u32) -> u128
    requires { bits ≤ 128 }
    ensures { result ≡ n % 2 ^ bits }
{
    if bits < 128 { n % (1 << bits) } else { n }
}

#[tactic(auto, using(crate::proofs::Cuts::cut_twice))]
fn plus(bits: u32, a: u128, b: u128) -> u128
    requires { bits ≤ 128 }
    ensures { result ≡ (a + b) % 2 ^ bits }
{
    low_bits(a.wrapping_add(b), bits)
}

/// The highest number of some bits.
#[tactic(auto, using(crate::proofs::Cuts::highest_is))]
pub(crate) fn highest(bits: u32) -> u128
    requires { bits ≤ 128 }
    ensures { result ≡ 2 ^ bits - 1 }
{
    if bits < 128 {
        (1 << bits) - 1
    } else {
        u128::MAX
    }
}

#[tactic(auto, using(crate::proofs::Cuts::wraps, crate::proofs::Cuts::stays))]
fn minus(bits: u32, a: u128, b: u128) -> u128
    requires { bits ≤ 128 }
    ensures { result ≡ (a + 2 ^ bits - b) % 2 ^ bits }
{
    if b <= a {
        low_bits(a - b, bits)
    } else {
        highest(bits).saturating_sub(b - a - 1)
    }
}

#[tactic(auto, using(crate::proofs::Cuts::cut_twice))]
fn times(bits: u32, a: u128, b: u128) -> u128
    requires { bits ≤ 128 }
    ensures { result ≡ (a * b) % 2 ^ bits }
{
    low_bits(a.wrapping_mul(b), bits)
}

#[tactic(auto, using(crate::proofs::Cuts::all_gone))]
fn shift_left(bits: u32, a: u128, b: u128) -> u128
    requires { bits ≤ 128 }
    ensures { result ≡ (a * 2 ^ b) % 2 ^ bits }
{
    if b < 128 { times(bits, a, 1 << b) } else { 0 }
}

#[tactic(auto, using(crate::proofs::Cuts::nothing_left))]
pub(crate) fn shift_right(a: u128, b: u128) -> u128
    ensures { result ≡ a / 2 ^ b }
{
    if b < 128 { a / (1 << b) } else { 0 }
}

#[tactic(auto, using(crate::proofs::Cuts::over_none))]
fn divide(a: u128, b: u128) -> u128
    ensures { result ≡ a / b }
{
    if b == 0 { 0 } else { a / b }
}

#[tactic(auto, using(crate::proofs::Cuts::left_of_none))]
fn remainder(a: u128, b: u128) -> u128
    ensures { result ≡ a % b }
{
    if b == 0 { a } else { a % b }
}

/// The result of an operator, for a target of some bits.
pub fn apply(bits: u32, op: BinaryOp, a: u128, b: u128) -> u128
    requires { bits ≤ 128 }
    ensures { result ≡ op_value bits op a b }
{
    match op {
        BinaryOp::Plus => plus(bits, a, b),
        BinaryOp::Minus => minus(bits, a, b),
        BinaryOp::Times => times(bits, a, b),
        BinaryOp::Divide => divide(a, b),
        BinaryOp::Remainder => remainder(a, b),
        BinaryOp::And => a & b,
        BinaryOp::Or => a | b,
        BinaryOp::Xor => a ^ b,
        BinaryOp::ShiftLeft => shift_left(bits, a, b),
        BinaryOp::ShiftRight => shift_right(a, b),
        BinaryOp::Equals => (a == b) as u128,
        BinaryOp::Differs => (a != b) as u128,
        BinaryOp::Less => (a < b) as u128,
    }
}
