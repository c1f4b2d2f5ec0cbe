// Wide operators on pairs of slots.

ghost use Rattle.std.specs.Prelude.{◌≡◌, ◌+◌, ◌*◌, ◌/◌, ◌%◌, ◌^◌, ◌<◌, ◌≤◌, length};
ghost use Rattle.sim_tape.specs.Tape.{pair_value, wide_value, PairBefore};

use sim_tape::{Pair, Wide};
use vlog_values::apply;

fn number_of(numbers: &[u64], pair: Pair) -> u128
    requires { PairBefore (length numbers.now) pair }
    ensures { result ≡ pair_value numbers.now pair }
{
    let low = numbers[pair.low as usize];
    let high = numbers[pair.high as usize];
    (u128::from(high) << 64) + u128::from(low)
}

/// What a wide operator makes of the numbers of its slots.
pub(crate) fn result_of(numbers: &[u64], wide: &Wide) -> u128
    requires bits { wide.now.bits ≤ 128 }
    requires left { PairBefore (length numbers.now) wide.now.left }
    requires right { PairBefore (length numbers.now) wide.now.right }
    ensures { result ≡ wide_value wide.now numbers.now }
{
    let left = number_of(numbers, wide.left);
    let right = number_of(numbers, wide.right);
    apply(wide.bits, wide.op, left, right)
}

pub(crate) fn low_half(n: u128) -> u64
    ensures { result ≡ n % 2 ^ 64 }
{
    (n % (1 << 64)) as u64
}

pub(crate) fn high_half(n: u128) -> u64
    ensures { result ≡ n / 2 ^ 64 }
{
    (n / (1 << 64)) as u64
}
