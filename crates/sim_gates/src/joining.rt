// Concatenations as drivers.

ghost use Rattle.std.specs.Prelude.{◌≡◌, ◌+◌, ◌*◌, ◌^◌, ◌<◌, ◌≤◌, length, IfOk, IfSome, IsSome, IsTrue};
ghost use Rattle.vlog_tree.specs.Cycle.{atom_value, atom_width};
ghost use Rattle.vlog_tree.specs.Loops.{atom_nets};
ghost use Rattle.vlog_tree.specs.V3.{atom_bits, atom_fits};
ghost use Rattle.sim_tape.specs.Tape.{pair_value};
ghost use Rattle.sim_gates.specs.Nets.{HavePairs, Told};
ghost use Rattle.vlog_tree.specs.declared.tree.Value.TheVariants as driver;
ghost use Rattle.vlog_tree.specs.V3.{value_fits};
ghost use Rattle.sim_tape.specs.Tape.{Extends, IsTape, PairBefore};
ghost use Rattle.sim_tape.specs.Trees.{tree_of};
ghost use Rattle.sim_gates.specs.Nets.{SlotsBefore};
ghost use Rattle.sim_gates.specs.Drivers.{HasParts, IsDriven};

use crate::atoms::pair_of_atom;
use crate::joins::put_below;
use crate::nets::Nets;
use sim_tape::{Pair, Tape};
use std::alloc::AllocError;
use vlog_tree::Atom;

// Slots with what is put together, and how many bits it has.
#[derive(Clone, Copy)]
struct Front {
    pair: Pair,
    bits: u32,
}

// What is put together with one more atom below it.
fn put_atom(
    tape: &mut Tape,
    nets: &Nets,
    above: Front,
    atom: &Atom,
) -> Result<Option<Front>, AllocError>
    requires tape { IsTape (tree_of tape.old) }
    requires nets { SlotsBefore nets.now.pairs.now (length (tree_of tape.old).gates) }
    requires above { PairBefore (length (tree_of tape.old).gates) above.pair }
    requires bits { above.bits ≤ 128 }
    ensures extends { Extends (tree_of tape.old) (tree_of tape.new) }
    ensures slots { IfOk result (λ o. IfSome o (λ f. PairBefore (length (tree_of tape.new).gates) f.pair)) }
    ensures bits { IfOk result (λ o. IfSome o (λ f. f.bits ≡ above.bits + atom_bits nets.now.scope.now atom.now)) }
    ensures most { IfOk result (λ o. IfSome o (λ f. f.bits ≤ 128)) }
    ensures says { IsTrue (atom_fits nets.now.scope.now atom.now)
        → IfOk result (λ o. IfSome o (λ f. Told nets.now.scope.now nets.now.pairs.now (tree_of tape.new)
        (λ s c ns. pair_value ns above.pair < 2 ^ above.bits → (pair_value ns f.pair ≡ pair_value ns above.pair * 2 ^ atom_width s atom.now + atom_value c atom.now)
        × (pair_value ns f.pair < 2 ^ f.bits)))) }
    ensures some { IsTrue (atom_fits nets.now.scope.now atom.now) → HavePairs nets.now.scope.now nets.now.pairs.now (atom_nets atom.now)
        → above.bits + atom_bits nets.now.scope.now atom.now ≤ 128 → IfOk result (λ o. IsSome o) }
{
    let more = nets.atom_bits(atom);
    let Some(below) = pair_of_atom(tape, nets, atom)? else {
        return Ok(None);
    };
    if more > u64::from(128 - above.bits) {
        return Ok(None);
    }
    let more = more as u32;
    let pair = put_below(tape, above.pair, above.bits, below, more)?;
    let bits = above.bits + more;
    Ok(Some(Front { pair, bits }))
}

/// A pair with atoms put together, the first one highest.
pub(crate) fn pair_of_concat(
    tape: &mut Tape,
    nets: &Nets,
    bits: u32,
    atoms: &[Atom],
) -> Result<Option<Pair>, AllocError>
    requires tape { IsTape (tree_of tape.old) }
    requires nets { SlotsBefore nets.now.pairs.now (length (tree_of tape.old).gates) }
    requires bits { bits ≤ 128 }
    ensures extends { Extends (tree_of tape.old) (tree_of tape.new) }
    ensures slots { IfOk result (λ o. IfSome o (λ p. PairBefore (length (tree_of tape.new).gates) p)) }
    ensures says { IsTrue (value_fits nets.now.scope.now bits (driver.Concat atoms.now))
        → IfOk result (λ o. IfSome o (λ p. IsDriven nets.now.scope.now nets.now.pairs.now nets.now.memories.now bits (driver.Concat atoms.now) (tree_of tape.new) p)) }
    ensures some { IsTrue (value_fits nets.now.scope.now bits (driver.Concat atoms.now))
        → HasParts nets.now.scope.now nets.now.pairs.now nets.now.memories.now (driver.Concat atoms.now) → IfOk result (λ o. IsSome o) }
{
    let mut above = Front {
        pair: Pair { low: 0, high: 0 },
        bits: 0,
    };
    for atom in atoms {
        match put_atom(tape, nets, above, atom)? {
            Some(more) => above = more,
            None => return Ok(None),
        }
    }
    Ok(Some(above.pair))
}
