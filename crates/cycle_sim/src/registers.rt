// The registers of a design, each with one number in its slots, cut to its width.

ghost use Rattle.std.specs.Prelude.{◌≡◌, ◌%◌, ◌^◌, ℕ, Some, length, IfSome};
ghost use Rattle.vlog_tree.specs.Table.{net_kind_is_register};
ghost use Rattle.sim_tape.specs.declared.gates.Pair.{Pair as PairTree};
ghost use Rattle.sim_tape.specs.Tape.{number_at};
ghost use Rattle.cycle_sim.specs.Firsts.{IsHeldAt, AreHeld};
ghost use Rattle.cycle_sim.specs.Steps.{IsAway, PairHas};

use crate::first::cut;
use crate::slots::put_pair;
use sim_design::{declaration_of, pair_of};
use sim_flat::Flat;
use sim_tape::Pair;
use vlog_tree::NetKind;

fn is_register(net_kind: NetKind) -> bool
    ensures { result ≡ net_kind_is_register net_kind }
{
    matches!(net_kind, NetKind::Register)
}

// Returns the pair of a register and its width in bits, by its net's number.
fn held_at(flat: &Flat, pairs: &[Option<Pair>], number: usize) -> Option<(Pair, u32)>
    ensures is { IfSome result (λ r. IsHeldAt flat.now pairs.now number r.1 r.0) }
    ensures some { (bits : ℕ) (p : PairTree) → IsHeldAt flat.now pairs.now number bits p → result ≡ Some (p, bits) }
{
    let Some(d) = declaration_of(flat, number) else {
        return None;
    };
    if !is_register(d.net_kind) {
        return None;
    }
    let Some(pair) = pair_of(pairs, Some(number)) else {
        return None;
    };
    Some((pair, d.bits))
}

fn fill_register(flat: &Flat, pairs: &[Option<Pair>], number: usize, fill: u64, numbers: &mut [u64])
    requires { AreHeld flat.now pairs.now (length numbers.old) }
    ensures value { (bits : ℕ) (p : PairTree) → IsHeldAt flat.now pairs.now number bits p → PairHas numbers.new p (fill % 2 ^ bits) }
    ensures kept { (k : ℕ) → ((bits : ℕ) (p : PairTree) → IsHeldAt flat.now pairs.now number bits p → IsAway k p) → number_at numbers.new k ≡ number_at numbers.old k }
{
    let Some((pair, bits)) = held_at(flat, pairs, number) else {
        return;
    };
    put_pair(numbers, pair, cut(fill, bits));
}

/// Writes one number to all registers, modulo 2 to the power of each one's width.
pub fn fill_registers(flat: &Flat, pairs: &[Option<Pair>], fill: u64, numbers: &mut [u64])
    requires { AreHeld flat.now pairs.now (length numbers.old) }
    ensures { (number bits : ℕ) (p : PairTree) → IsHeldAt flat.now pairs.now number bits p → PairHas numbers.new p (fill % 2 ^ bits) }
{
    for number in 0..pairs.len() {
        fill_register(flat, pairs, number, fill, numbers);
    }
}
