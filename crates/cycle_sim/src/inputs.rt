// The inputs of the top and their supplies.

ghost use Rattle.std.specs.Prelude.{◌≡◌, ℕ, Bool, List, [], Some, true, length, slice_get, slice_index_or};
ghost use Rattle.vlog_tree.specs.Environment.{ready_at};
ghost use Rattle.vlog_design.specs.Environments.{lists_of};
ghost use Rattle.sim_tape.specs.Tape.{number_at};
ghost use Rattle.cycle_sim.specs.declared.inputs.Input.{Input as InputTree};
ghost use Rattle.cycle_sim.specs.Steps.{HaveSlots, IsAway, PairHas, supplied as supplied_lem};

use crate::slots::{number, put_pair};
use sim_tape::Pair;

/// The supply of an input of the top: the reset, a number that stays, or 1 while the memory at an index is ready.
#[derive(Clone, Copy)]
pub enum Supply {
    Reset,
    Scalar(u64),
    Ready(usize),
}

/// The slots of an input of the top, and its supply.
#[derive(Clone, Copy)]
pub struct Input {
    pub pair: Pair,
    pub supply: Supply,
}

fn ready_in(bits: &[bool], cycle: u64) -> u64
    ensures { result ≡ ready_at bits.now cycle }
{
    if cycle == 0 {
        return 0;
    }
    match bits.get((cycle - 1) as usize) {
        Some(b) => { if *b { 1 } else { 0 } }
        None => 1,
    }
}

fn is_ready(ready: &[Vec<bool>], place: usize, cycle: u64) -> u64
    ensures { (bits : List Bool) → bits ≡ slice_index_or (lists_of ready.now) place [] → result ≡ ready_at bits cycle }
{
    match ready.get(place) {
        Some(bits) => ready_in(bits, cycle),
        None => ready_in(&[], cycle),
    }
}

fn supplied(ready: &[Vec<bool>], cycle: u64, supply: Supply) -> u64
    ensures { result ≡ supplied_lem (lists_of ready.now) cycle supply }
{
    match supply {
        Supply::Reset => { if cycle == 0 { 1 } else { 0 } }
        Supply::Scalar(n) => n,
        Supply::Ready(place) => is_ready(ready, place, cycle),
    }
}

/// Writes the numbers that the environment supplies in a cycle to the inputs of the top.
pub fn give(inputs: &[Input], ready: &[Vec<bool>], cycle: u64, numbers: &mut [u64])
    requires { HaveSlots (length numbers.old) inputs.now }
    ensures values { (i : ℕ) (a : InputTree) → slice_get inputs.now i ≡ Some a → PairHas numbers.new a.pair (supplied_lem (lists_of ready.now) cycle a.supply) }
    ensures kept { (k : ℕ) → ((i : ℕ) (a : InputTree) → slice_get inputs.now i ≡ Some a → IsAway k a.pair) → number_at numbers.new k ≡ number_at numbers.old k }
{
    for input in inputs {
        put_pair(numbers, input.pair, supplied(ready, cycle, input.supply));
    }
}

// Checks whether a pair has a number of at most 64 bits.
fn has_number(numbers: &[u64], pair: Pair, n: u64) -> bool
    ensures { result ≡ true → PairHas numbers.now pair n }
{
    if number(numbers, pair.low) != n {
        return false;
    }
    pair.high == 0 || number(numbers, pair.high) == 0
}

/// Checks whether the inputs of the top have the numbers that the environment supplies in a cycle.
pub fn are_given(inputs: &[Input], ready: &[Vec<bool>], cycle: u64, numbers: &[u64]) -> bool
    ensures { result ≡ true → (i : ℕ) (a : InputTree) → slice_get inputs.now i ≡ Some a → PairHas numbers.now a.pair (supplied_lem (lists_of ready.now) cycle a.supply) }
{
    for input in inputs {
        if !has_number(numbers, input.pair, supplied(ready, cycle, input.supply)) {
            return false;
        }
    }
    true
}
