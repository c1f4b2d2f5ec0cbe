// Pairs of all nets of a design, and those of one instance.

ghost use Rattle.std.specs.Prelude.{◌≡◌, ◌+◌, ◌≤◌, ℕ, None, length, get_or, take, drop, option_and_then, IfSome};
ghost use Rattle.sim_tape.specs.Tape.{PairBefore};
ghost use Rattle.sim_gates.specs.Nets.{SlotsBefore};

use sim_tape::Pair;

/// The pair of a number.
pub fn pair_of(pairs: &[Option<Pair>], number: Option<usize>) -> Option<Pair>
    ensures value { result ≡ option_and_then (λ k. get_or pairs.now k None) number }
    ensures slots { (n : ℕ) → SlotsBefore pairs.now n → IfSome result (λ p. PairBefore n p) }
{
    match number {
        Some(k) => match pairs.get(k) {
            Some(pair) => *pair,
            None => None,
        },
        None => None,
    }
}

/// So many pairs from one on, and none where there are fewer.
pub fn part_of(pairs: &[Option<Pair>], base: usize, count: usize) -> &[Option<Pair>]
    ensures value { base + count ≤ length pairs.now → result.now ≡ take count (drop base pairs.now) }
    ensures slots { (n : ℕ) → SlotsBefore pairs.now n → SlotsBefore result.now n }
{
    if base > pairs.len() {
        return &[];
    }
    if count > pairs.len() - base {
        return &[];
    }
    &pairs[base..base + count]
}
