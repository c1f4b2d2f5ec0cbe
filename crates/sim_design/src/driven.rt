// Nets that lines drive.

ghost use Rattle.std.specs.Prelude.{◌≡◌, ◌<◌, List, length, IfOk, IfSome, IsSome};
ghost use Rattle.vlog_tree.specs.Form.{ModuleTree};
ghost use Rattle.vlog_tree.specs.Cycle.{Path};
ghost use Rattle.vlog_tree.specs.Table.{Name};
ghost use Rattle.sim_tape.specs.Tape.{Extends, IsTape, PairBefore};
ghost use Rattle.sim_tape.specs.Trees.{tree_of};
ghost use Rattle.sim_gates.specs.Nets.{SlotsBefore};
ghost use Rattle.sim_flat.specs.Flat.{IsFlat};
ghost use Rattle.sim_design.specs.States.{AreRead, AreMemories, MemoriesPlaced, PartsPlaced, HasNumbersOf};
ghost use Rattle.sim_design.specs.Lines.{IsLine};

use crate::slices::part_of;
use sim_flat::Flat;
use sim_gates::{Nets, pair_of_driver};
use sim_tape::{Pair, Tape};
use std::alloc::AllocError;
use vlog_scope::Scope;
use vlog_tree::Value;

/// An instance in a flattened design: its number, and that of its first net.
#[derive(Clone, Copy)]
pub struct Spot {
    pub instance: usize,
    pub base: usize,
}

/// The pair of a net that a line of an instance's module drives, which declares these names.
pub fn pair_of_line(
    tape: &mut Tape,
    flat: &Flat,
    spot: Spot,
    scope: &Scope,
    pairs: &[Option<Pair>],
    memories: &[Option<Pair>],
    bits: u32,
    value: &Value,
) -> Result<Option<Pair>, AllocError>
    requires tape { IsTape (tree_of tape.old) }
    requires slots { SlotsBefore pairs.now (length (tree_of tape.old).gates) }
    ensures extends { Extends (tree_of tape.old) (tree_of tape.new) }
    ensures slots { IfOk result (λ o. IfSome o (λ p. PairBefore (length (tree_of tape.new).gates) p)) }
    ensures told { (ms : List ModuleTree) (top : ModuleTree) (path : Path) (m : ModuleTree) (x : Name) → IsFlat ms top flat.now
        → IsLine ms flat.now spot scope.now path m x value.now bits → length pairs.now ≡ length flat.now.owners.items → length memories.now ≡ length flat.now.owners.items
        → AreRead ms top flat.now pairs.now → AreMemories ms top flat.now memories.now
        → IfOk result (λ o. IfSome o (λ p. HasNumbersOf ms top flat.now memories.now pairs.now (tree_of tape.new) (path, x) p)) }
    ensures some { (ms : List ModuleTree) (top : ModuleTree) (path : Path) (m : ModuleTree) (x : Name) → IsFlat ms top flat.now
        → IsLine ms flat.now spot scope.now path m x value.now bits → length pairs.now ≡ length flat.now.owners.items → length memories.now ≡ length flat.now.owners.items
        → PartsPlaced ms top flat.now pairs.now (path, x) → MemoriesPlaced ms top flat.now memories.now
        → IfOk result (λ o. IsSome o) }
{
    let count = scope.declarations().len();
    let nets = Nets {
        scope,
        pairs: part_of(pairs, spot.base, count),
        memories: part_of(memories, spot.base, count),
    };
    let pair = pair_of_driver(tape, &nets, bits, value)?;
    Ok(pair)
}
