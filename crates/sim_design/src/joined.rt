// Nets that are connected to others by instances.

ghost use Rattle.std.specs.Prelude.{◌≡◌, ◌<◌, ℕ, true, List, IfSome, IsSome};
ghost use Rattle.vlog_tree.specs.Form.{ModuleTree};
ghost use Rattle.vlog_tree.specs.Flattened.{FlatNet};
ghost use Rattle.vlog_tree.specs.Cycle.{Cycle, Path};
ghost use Rattle.vlog_tree.specs.Table.{declared, net_kind_of, net_kind_is_input};
ghost use Rattle.sim_tape.specs.Tape.{pair_value, PairBefore};
ghost use Rattle.sim_gates.specs.Nets.{SlotsBefore};
ghost use Rattle.sim_flat.specs.Tables.{IsDrivenByPort};
ghost use Rattle.sim_flat.specs.Flat.{IsFlat, IsNetAt};
ghost use Rattle.sim_design.specs.Valuations.{IsValuation};
ghost use Rattle.sim_design.specs.States.{ShowsPlaced, PartsPlaced};

use crate::slices::pair_of;
use sim_flat::{Flat, net_around, net_inside};
use sim_tape::Pair;

/// The pair of an input of an instance: that of the net around that it is connected to.
pub fn pair_around(
    flat: &Flat,
    pairs: &[Option<Pair>],
    instance: usize,
    place: usize,
) -> Option<Pair>
    ensures slots { (n : ℕ) → SlotsBefore pairs.now n → IfSome result (λ p. PairBefore n p) }
    ensures told { (ms : List ModuleTree) (top : ModuleTree) (n : FlatNet) → IsFlat ms top flat.now → 0 < instance → (h : IsNetAt ms flat.now instance place n)
        → net_kind_is_input (net_kind_of (declared h.tree) n.1) ≡ true
        → IfSome result (λ p. (c : Path → Cycle) (ns : List ℕ) → IsValuation ms top c → ShowsPlaced ms flat.now pairs.now c ns → (c n.0).net n.1 ≡ pair_value ns p) }
    ensures some { (ms : List ModuleTree) (top : ModuleTree) (n : FlatNet) → IsFlat ms top flat.now → 0 < instance → (h : IsNetAt ms flat.now instance place n)
        → net_kind_is_input (net_kind_of (declared h.tree) n.1) ≡ true
        → PartsPlaced ms top flat.now pairs.now n → IsSome result }
{
    let number = net_around(flat, instance, place);
    pair_of(pairs, number)
}

/// The pair of a net that a port of an instance drives: that of the port.
pub fn pair_inside(
    flat: &Flat,
    pairs: &[Option<Pair>],
    instance: usize,
    child: usize,
    port: usize,
) -> Option<Pair>
    ensures slots { (n : ℕ) → SlotsBefore pairs.now n → IfSome result (λ p. PairBefore n p) }
    ensures told { (ms : List ModuleTree) (top : ModuleTree) (j : ℕ) (n : FlatNet) → IsFlat ms top flat.now → (h : IsNetAt ms flat.now instance j n) → IsDrivenByPort ms h.tree j child port
        → IfSome result (λ p. (c : Path → Cycle) (ns : List ℕ) → IsValuation ms top c → ShowsPlaced ms flat.now pairs.now c ns → (c n.0).net n.1 ≡ pair_value ns p) }
    ensures some { (ms : List ModuleTree) (top : ModuleTree) (j : ℕ) (n : FlatNet) → IsFlat ms top flat.now → (h : IsNetAt ms flat.now instance j n) → IsDrivenByPort ms h.tree j child port
        → PartsPlaced ms top flat.now pairs.now n → IsSome result }
{
    let number = net_inside(flat, instance, child, port);
    pair_of(pairs, number)
}
