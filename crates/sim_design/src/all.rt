// All nets of a design on a tape.

ghost use Rattle.std.specs.Prelude.{◌≡◌, ℕ, List, Some, None, length, get_or, is_some, IsSome, OnOk};
ghost use Rattle.vlog_tree.specs.Form.{ModuleTree};
ghost use Rattle.sim_tape.specs.declared.gates.Pair.{Pair as PairTree};
ghost use Rattle.sim_tape.specs.Tape.{Extends, IsTape};
ghost use Rattle.sim_tape.specs.Trees.{tree_of};
ghost use Rattle.sim_gates.specs.Nets.{SlotsBefore};
ghost use Rattle.sim_design.specs.Plans.{IsPlan};
ghost use Rattle.sim_design.specs.States.{AreRead, PartsPlaced, TellsNumbers};
ghost use Rattle.vlog_tree.specs.Flattened.{FlatNet};
ghost use Rattle.sim_flat.specs.Flat.{HasNumber};
ghost use Rattle.sim_flat.specs.Order.{IsNetOrder};
ghost use Rattle.sim_design.specs.Given.{ArePlaced, AreGiven, AreGivenNets, HaveOwn};
ghost use Rattle.vlog_run_laws.specs.runs.Readable.{CanBeRead};
ghost use Rattle.sim_design.specs.Placed.{AreFree, AllFree, ArePlacedMore, AreKept};

use crate::net::place_net;
use crate::plan::Plan;
use sim_tape::{Pair, Tape};
use std::alloc::{AllocError, Global};

fn is_placed(pairs: &[Option<Pair>], number: usize) -> bool
    ensures { result ≡ is_some (get_or pairs.now number None) }
{
    match pairs.get(number) {
        Some(pair) => pair.is_some(),
        None => false,
    }
}

// One net gets its pair, unless it has one.
fn put_net(
    alloc: Global,
    tape: &mut Tape,
    plan: &Plan,
    number: usize,
    pairs: &mut Vec<Option<Pair>>,
) -> Result<(), AllocError>
    requires tape { IsTape (tree_of tape.old) }
    requires slots { SlotsBefore pairs.old.items (length (tree_of tape.old).gates) }
    ensures extends { Extends (tree_of tape.old) (tree_of tape.new) }
    ensures slots { OnOk result (SlotsBefore pairs.new.items (length (tree_of tape.new).gates)) }
    ensures kept { OnOk result (AreKept pairs.old.items pairs.new.items) }
    ensures more { OnOk result ((ms : List ModuleTree) (top : ModuleTree) → IsPlan ms top plan.now
        → ArePlacedMore ms top plan.now.flat.now plan.now.memories.now pairs.old.items (tree_of tape.old) pairs.new.items (tree_of tape.new)) }
    ensures all { OnOk result ((ms : List ModuleTree) (top : ModuleTree) (n : FlatNet) → IsPlan ms top plan.now → HasNumber ms plan.now.flat.now number n
        → CanBeRead ms top n → length pairs.old.items ≡ length plan.now.flat.now.owners.items
        → AllFree ms top plan.now.flat.now pairs.old.items → PartsPlaced ms top plan.now.flat.now pairs.old.items n → IsSome (get_or pairs.new.items number None)) }
{
    if is_placed(pairs, number) {
        return Ok(());
    }
    if number >= pairs.len() {
        return Ok(());
    }
    let pair = place_net(alloc, tape, plan, pairs, number)?;
    pairs[number] = pair;
    Ok(())
}

/// Places nets in an order in which each comes after those that it has its number from, where those have pairs that have theirs
/// from no other net.
pub fn place_all(
    alloc: Global,
    tape: &mut Tape,
    plan: &Plan,
    order: &[usize],
    pairs: &mut Vec<Option<Pair>>,
) -> Result<(), AllocError>
    requires tape { IsTape (tree_of tape.old) }
    requires slots { SlotsBefore pairs.old.items (length (tree_of tape.old).gates) }
    ensures extends { Extends (tree_of tape.old) (tree_of tape.new) }
    ensures slots { OnOk result (SlotsBefore pairs.new.items (length (tree_of tape.new).gates)) }
    ensures kept { OnOk result (AreKept pairs.old.items pairs.new.items) }
    ensures tells { OnOk result ((ms : List ModuleTree) (top : ModuleTree) → IsPlan ms top plan.now → length pairs.old.items ≡ length plan.now.flat.now.owners.items
        → AreRead ms top plan.now.flat.now pairs.old.items → AreFree ms top plan.now.flat.now pairs.old.items
        → AreRead ms top plan.now.flat.now pairs.new.items × TellsNumbers ms top plan.now.flat.now pairs.new.items plan.now.memories.now (tree_of tape.new)) }
    ensures placed { OnOk result ((ms : List ModuleTree) (top : ModuleTree) → IsPlan ms top plan.now → IsNetOrder ms top plan.now.flat.now order.now
        → length pairs.old.items ≡ length plan.now.flat.now.owners.items → AreRead ms top plan.now.flat.now pairs.old.items → AllFree ms top plan.now.flat.now pairs.old.items
        → ArePlaced ms top plan.now.flat.now pairs.new.items) }
    ensures given { OnOk result ((ms : List ModuleTree) (top : ModuleTree) → IsPlan ms top plan.now → length pairs.old.items ≡ length plan.now.flat.now.owners.items
        → AreRead ms top plan.now.flat.now pairs.old.items → AllFree ms top plan.now.flat.now pairs.old.items
        → AreGivenNets ms top plan.now.flat.now pairs.old.items (tree_of tape.old) → HaveOwn pairs.old.items → AreGiven ms top plan.now.flat.now pairs.new.items (tree_of tape.new)) }
{
    for number in order {
        put_net(alloc, tape, plan, *number, pairs)?;
    }
    Ok(())
}
