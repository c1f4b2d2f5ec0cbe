// Numbers of slots, and those that registers latch.

ghost use Rattle.std.specs.Prelude.{◌≡◌, ◌<◌, ℕ, Some, length, slice_get};
ghost use Rattle.sim_tape.specs.Tape.{number_at};
ghost use Rattle.sim_design.specs.declared.drafts.Commit.{Commit as CommitTree};
ghost use Rattle.cycle_sim.specs.Steps.{HasRoom, IsAway, PairHas, AreOnce, is_one as is_one_lem};

use sim_design::Commit;
use sim_tape::Pair;

/// Returns the number of a slot, and 0 past the last.
pub fn number(numbers: &[u64], slot: u32) -> u64
    ensures { result ≡ number_at numbers.now slot }
{
    match numbers.get(slot as usize) {
        Some(n) => *n,
        None => 0,
    }
}

/// Checks whether a pair has the number 1.
pub fn is_one(numbers: &[u64], pair: Pair) -> bool
    ensures { result ≡ is_one_lem numbers.now pair }
{
    number(numbers, pair.high) == 0 && number(numbers, pair.low) == 1
}

/// Writes a number of at most 64 bits to a pair.
pub fn put_pair(numbers: &mut [u64], pair: Pair, n: u64)
    requires { HasRoom (length numbers.old) pair }
    ensures value { PairHas numbers.new pair n }
    ensures kept { (k : ℕ) → IsAway k pair → number_at numbers.new k ≡ number_at numbers.old k }
{
    if pair.high != 0 {
        numbers[pair.high as usize] = 0;
    }
    numbers[pair.low as usize] = n;
}

/// Writes the numbers that registers latch, all at once.
pub fn take_over(commits: &[Commit], numbers: &[u64], given: &mut [u64])
    requires slots { (i : ℕ) (a : CommitTree) → slice_get commits.now i ≡ Some a → a.slot < length given.old }
    requires once { AreOnce commits.now }
    ensures { (i : ℕ) (a : CommitTree) → slice_get commits.now i ≡ Some a → number_at given.new a.slot ≡ number_at numbers.now a.next }
{
    for commit in commits {
        given[commit.slot as usize] = number(numbers, commit.next);
    }
}
