// The clocked blocks of a module.

ghost use Rattle.std.specs.Prelude.{◌≡◌, ◌∷◌, ◌<◌, [], List, length, reverse, IfOk, IfSome, OnOk, IsSome, IsTrue};
ghost use Rattle.std.specs.Bool.{OnTrue};
ghost use Rattle.std.specs.List.{list_all, AllByRecursion};
ghost use Rattle.vlog_tree.specs.declared.tree.Step.{Step as StepTree};
ghost use Rattle.vlog_tree.specs.declared.tree.Item.TheVariants as lines;
ghost use Rattle.vlog_tree.specs.Form.{nested};
ghost use Rattle.vlog_tree.specs.Cycle.{Cycle, run_steps, run_items, step_next};
ghost use Rattle.sim_tape.specs.Tape.{Extends, IsTape};
ghost use Rattle.sim_tape.specs.Trees.{tree_of};
ghost use Rattle.sim_gates.specs.Nets.{SlotsBefore, Told};
ghost use Rattle.sim_gates.specs.Parts.{parts_run, WalkShows, WalkBefore, IsTurned, is_condition, has_conditions};
ghost use Rattle.sim_gates.specs.Next.{ShowsNext, AreApart, AreKnown, SamePlaces};
ghost use Rattle.sim_gates.specs.Ready.{IsReady, IsStepReady, elses};

use crate::nets::Nets;
use crate::parts::{Walk, turn};
use crate::writes::{Writes, write};
use sim_tape::{Pair, Tape};
use std::alloc::{AllocError, Global};
use vlog_tree::{Item, Step};

fn add_step(
    tape: &mut Tape,
    nets: &Nets,
    walk: &mut Walk,
    step: &Step,
    after: &mut Writes,
) -> Result<bool, AllocError>
    requires tape { IsTape (tree_of tape.old) }
    requires nets { SlotsBefore nets.now.pairs.now (length (tree_of tape.old).gates) }
    requires walk { WalkBefore (length (tree_of tape.old).gates) walk.old.on (reverse walk.old.parts.items) }
    requires next { SlotsBefore after.old.next.items (length (tree_of tape.old).gates) }
    ensures extends { Extends (tree_of tape.old) (tree_of tape.new) }
    ensures walk { OnOk result (WalkBefore (length (tree_of tape.new).gates) walk.new.on (reverse walk.new.parts.items)) }
    ensures slots { OnOk result (SlotsBefore after.new.next.items (length (tree_of tape.new).gates)) }
    ensures same { OnOk result (SamePlaces after.old.next.items after.new.next.items) }
    ensures known { OnOk result (AreKnown nets.now.scope.now nets.now.memories.now after.old.stores.items → AreKnown nets.now.scope.now nets.now.memories.now after.new.stores.items) }
    ensures value { IfOk result (λ done. OnTrue done (AreApart nets.now.scope.now nets.now.memories.now
        → Told nets.now.scope.now nets.now.pairs.now (tree_of tape.new)
        (λ s c ns. (first now : Cycle) → IsTrue (is_condition nets.now.scope.now step.now) → WalkShows ns walk.old.on (reverse walk.old.parts.items)
        → ShowsNext nets.now.scope.now nets.now.memories.now after.old.next.items after.old.stores.items s first now ns
        → IsTurned s c ns step.now (reverse walk.old.parts.items) walk.new.on (reverse walk.new.parts.items)
        × ShowsNext nets.now.scope.now nets.now.memories.now after.new.next.items after.new.stores.items s first
        (step_next s c (parts_run ns (reverse walk.old.parts.items)) step.now now) ns))) }
    ensures some { (rest : List StepTree) → SamePlaces nets.now.pairs.now after.old.next.items → IsStepReady nets.now.scope.now nets.now.pairs.now nets.now.memories.now step.now
        → IsTrue (nested (elses (reverse walk.old.parts.items)) (step.now ∷ rest))
        → IfOk result (λ done. IsTrue done × IsTrue (nested (elses (reverse walk.new.parts.items)) rest)) }
{
    if !write(tape, nets, walk.on, step, after)? {
        return Ok(false);
    }
    let done = turn(tape, nets, walk, step)?;
    Ok(done)
}

fn add_steps(
    alloc: Global,
    tape: &mut Tape,
    nets: &Nets,
    steps: &[Step],
    after: &mut Writes,
) -> Result<bool, AllocError>
    requires tape { IsTape (tree_of tape.old) }
    requires nets { SlotsBefore nets.now.pairs.now (length (tree_of tape.old).gates) }
    requires next { SlotsBefore after.old.next.items (length (tree_of tape.old).gates) }
    ensures extends { Extends (tree_of tape.old) (tree_of tape.new) }
    ensures slots { OnOk result (SlotsBefore after.new.next.items (length (tree_of tape.new).gates)) }
    ensures same { OnOk result (SamePlaces after.old.next.items after.new.next.items) }
    ensures known { OnOk result (AreKnown nets.now.scope.now nets.now.memories.now after.old.stores.items → AreKnown nets.now.scope.now nets.now.memories.now after.new.stores.items) }
    ensures value { IfOk result (λ done. OnTrue done (AreApart nets.now.scope.now nets.now.memories.now
        → Told nets.now.scope.now nets.now.pairs.now (tree_of tape.new)
        (λ s c ns. (first now : Cycle) → IsTrue (list_all (is_condition nets.now.scope.now) steps.now)
        → ShowsNext nets.now.scope.now nets.now.memories.now after.old.next.items after.old.stores.items s first now ns
        → ShowsNext nets.now.scope.now nets.now.memories.now after.new.next.items after.new.stores.items s first (run_steps s c [] steps.now now) ns))) }
    ensures some { SamePlaces nets.now.pairs.now after.old.next.items → IsReady nets.now.scope.now nets.now.pairs.now nets.now.memories.now (lines.Always steps.now)
        → IfOk result (λ done. IsTrue done) }
{
    let on = tape.constant(1)?;
    let mut walk = Walk {
        on,
        parts: Vec::new(alloc),
    };
    for step in steps {
        if !add_step(tape, nets, &mut walk, step, after)? {
            return Ok(false);
        }
    }
    Ok(true)
}

fn add_item(
    alloc: Global,
    tape: &mut Tape,
    nets: &Nets,
    item: &Item,
    after: &mut Writes,
) -> Result<bool, AllocError>
    requires tape { IsTape (tree_of tape.old) }
    requires nets { SlotsBefore nets.now.pairs.now (length (tree_of tape.old).gates) }
    requires next { SlotsBefore after.old.next.items (length (tree_of tape.old).gates) }
    ensures extends { Extends (tree_of tape.old) (tree_of tape.new) }
    ensures slots { OnOk result (SlotsBefore after.new.next.items (length (tree_of tape.new).gates)) }
    ensures same { OnOk result (SamePlaces after.old.next.items after.new.next.items) }
    ensures known { OnOk result (AreKnown nets.now.scope.now nets.now.memories.now after.old.stores.items → AreKnown nets.now.scope.now nets.now.memories.now after.new.stores.items) }
    ensures value { IfOk result (λ done. OnTrue done (AreApart nets.now.scope.now nets.now.memories.now
        → Told nets.now.scope.now nets.now.pairs.now (tree_of tape.new)
        (λ s c ns. (first now : Cycle) → IsTrue (has_conditions nets.now.scope.now item.now)
        → ShowsNext nets.now.scope.now nets.now.memories.now after.old.next.items after.old.stores.items s first now ns
        → ShowsNext nets.now.scope.now nets.now.memories.now after.new.next.items after.new.stores.items s first (run_items s c (item.now ∷ []) now) ns))) }
    ensures some { SamePlaces nets.now.pairs.now after.old.next.items → IsReady nets.now.scope.now nets.now.pairs.now nets.now.memories.now item.now → IfOk result (λ done. IsTrue done) }
{
    match item {
        Item::Always(block) => {
            let done = add_steps(alloc, tape, nets, block.steps(), after)?;
            Ok(done)
        }
        Item::Wire { .. } => Ok(true),
        Item::Reg { .. } => Ok(true),
        Item::Memory { .. } => Ok(true),
        Item::Assign { .. } => Ok(true),
        Item::Instance { .. } => Ok(true),
    }
}

fn copy_pairs(alloc: Global, pairs: &[Option<Pair>]) -> Result<Vec<Option<Pair>>, AllocError>
    ensures { IfOk result (λ v. v.items ≡ pairs.now) }
{
    let mut out = Vec::new(alloc);
    for pair in pairs {
        out.push(*pair)?;
    }
    Ok(out)
}

/// What the blocks of a module leave, over the nets and memories of one of its instances (IEEE 1364-2005, 9.2.2); none where
/// a net that they read has no slots, a memory no numbers, or a part is closed that is not open.
pub fn blocks_of(
    alloc: Global,
    tape: &mut Tape,
    nets: &Nets,
    items: &[Item],
) -> Result<Option<Writes>, AllocError>
    requires tape { IsTape (tree_of tape.old) }
    requires nets { SlotsBefore nets.now.pairs.now (length (tree_of tape.old).gates) }
    ensures extends { Extends (tree_of tape.old) (tree_of tape.new) }
    ensures slots { IfOk result (λ o. IfSome o (λ b. SlotsBefore b.next.items (length (tree_of tape.new).gates))) }
    ensures same { IfOk result (λ o. IfSome o (λ b. SamePlaces nets.now.pairs.now b.next.items)) }
    ensures known { IfOk result (λ o. IfSome o (λ b. AreKnown nets.now.scope.now nets.now.memories.now b.stores.items)) }
    ensures value { IfOk result (λ o. IfSome o (λ b. AreApart nets.now.scope.now nets.now.memories.now
        → Told nets.now.scope.now nets.now.pairs.now (tree_of tape.new)
        (λ s c ns. IsTrue (list_all (has_conditions nets.now.scope.now) items.now)
        → ShowsNext nets.now.scope.now nets.now.memories.now b.next.items b.stores.items s c (run_items s c items.now c) ns))) }
    ensures some { AllByRecursion (IsReady nets.now.scope.now nets.now.pairs.now nets.now.memories.now) items.now → IfOk result (λ o. IsSome o) }
{
    let next = copy_pairs(alloc, nets.pairs)?;
    let mut after = Writes {
        next,
        stores: Vec::new(alloc),
    };
    for item in items {
        if !add_item(alloc, tape, nets, item, &mut after)? {
            return Ok(None);
        }
    }
    Ok(Some(after))
}
