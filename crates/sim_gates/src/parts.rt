// The parts of a clocked block that are open.

ghost use Rattle.std.specs.Prelude.{◌≡◌, ◌∷◌, ◌<◌, ◌==◌, if◌then◌else◌, ℕ, Bool, true, false, List, reverse, length, IfOk, OnOk, IsSome, IsTrue};
ghost use Rattle.std.specs.Bool.{OnTrue};
ghost use Rattle.vlog_tree.specs.declared.tree.Step.{Step as StepTree};
ghost use Rattle.vlog_tree.specs.declared.tree.Step.TheVariants as steps;
ghost use Rattle.vlog_tree.specs.Form.{nested};
ghost use Rattle.vlog_tree.specs.Cycle.{Cycle, Sizes};
ghost use Rattle.sim_tape.specs.Tape.{number_at, Extends, IsTape};
ghost use Rattle.sim_tape.specs.Solved.{Says};
ghost use Rattle.sim_tape.specs.Trees.{tree_of};
ghost use Rattle.sim_gates.specs.Nets.{pair_in, SlotsBefore, Told};
ghost use Rattle.sim_gates.specs.Parts.{part_runs, WalkShows, WalkBefore, IsTurned, is_condition};
ghost use Rattle.sim_gates.specs.Ready.{IsStepReady, elses};

use crate::nets::Nets;
use sim_tape::{Operator, Tape};
use std::alloc::AllocError;
use tapa_base::Text;
use vlog_tree::Step;

/// A part that is open: the slot that says whether what is around it runs, the slot of its condition, and whether it runs
/// where that is not 1.
#[derive(Clone, Copy)]
pub(crate) struct Part {
    pub around: u32,
    pub test: u32,
    pub is_else: bool,
}

/// The slot that says whether steps run here, and the parts that are open, the innermost last.
#[derive(Drop)]
pub(crate) struct Walk {
    pub on: u32,
    pub parts: Vec<Part>,
}

// A slot that is 1 where a part and all around it run.
fn slot_of(tape: &mut Tape, part: Part) -> Result<u32, AllocError>
    requires tape { IsTape (tree_of tape.old) }
    requires around { part.around < length (tree_of tape.old).gates }
    requires test { part.test < length (tree_of tape.old).gates }
    ensures extends { Extends (tree_of tape.old) (tree_of tape.new) }
    ensures slot { IfOk result (λ s. s < length (tree_of tape.new).gates) }
    ensures says { IfOk result (λ s. Says (tree_of tape.new) (λ cells ns. number_at ns s ≡ (if part_runs ns part then number_at ns part.around else 0))) }
{
    if part.is_else {
        let off = tape.operate(Operator::Choose, part.test, 0, part.around)?;
        return Ok(off);
    }
    let on = tape.operate(Operator::Choose, part.test, part.around, 0)?;
    Ok(on)
}

// Opens a part inside those that are open.
#[tactic(auto, using(crate::proofs::Walking::reverse_push))]
fn enter(tape: &mut Tape, walk: &mut Walk, part: Part) -> Result<(), AllocError>
    requires tape { IsTape (tree_of tape.old) }
    requires walk { WalkBefore (length (tree_of tape.old).gates) part.around (reverse walk.old.parts.items) }
    requires around { part.around < length (tree_of tape.old).gates }
    requires test { part.test < length (tree_of tape.old).gates }
    ensures extends { Extends (tree_of tape.old) (tree_of tape.new) }
    ensures parts { OnOk result (reverse walk.new.parts.items ≡ part ∷ reverse walk.old.parts.items) }
    ensures slots { OnOk result (WalkBefore (length (tree_of tape.new).gates) walk.new.on (reverse walk.new.parts.items)) }
    ensures says { OnOk result (Says (tree_of tape.new) (λ cells ns. number_at ns walk.new.on ≡ (if part_runs ns part then number_at ns part.around else 0))) }
{
    let on = slot_of(tape, part)?;
    walk.parts.push(part)?;
    walk.on = on;
    Ok(())
}

// The part that runs where a net is 1; false where the net has no slots.
fn open_part(tape: &mut Tape, nets: &Nets, walk: &mut Walk, test: &Text) -> Result<bool, AllocError>
    requires tape { IsTape (tree_of tape.old) }
    requires nets { SlotsBefore nets.now.pairs.now (length (tree_of tape.old).gates) }
    requires walk { WalkBefore (length (tree_of tape.old).gates) walk.old.on (reverse walk.old.parts.items) }
    ensures extends { Extends (tree_of tape.old) (tree_of tape.new) }
    ensures slots { OnOk result (WalkBefore (length (tree_of tape.new).gates) walk.new.on (reverse walk.new.parts.items)) }
    ensures value { IfOk result (λ done. OnTrue done (Told nets.now.scope.now nets.now.pairs.now (tree_of tape.new)
        (λ s c ns. IsTrue (is_condition nets.now.scope.now (steps.If test.now)) → WalkShows ns walk.old.on (reverse walk.old.parts.items)
        → IsTurned s c ns (steps.If test.now) (reverse walk.old.parts.items) walk.new.on (reverse walk.new.parts.items)))) }
    ensures some { IsSome (pair_in nets.now.scope.now nets.now.pairs.now test.now)
        → IfOk result (λ done. IsTrue done × (elses (reverse walk.new.parts.items) ≡ false ∷ elses (reverse walk.old.parts.items))) }
{
    let Some(pair) = nets.pair(test) else {
        return Ok(false);
    };
    let part = Part {
        around: walk.on,
        test: pair.low,
        is_else: false,
    };
    enter(tape, walk, part)?;
    Ok(true)
}

// The other part of the innermost one; false where none is open.
#[tactic(auto, using(crate::proofs::Walking::reverse_push))]
fn turn_part(tape: &mut Tape, walk: &mut Walk) -> Result<bool, AllocError>
    requires tape { IsTape (tree_of tape.old) }
    requires walk { WalkBefore (length (tree_of tape.old).gates) walk.old.on (reverse walk.old.parts.items) }
    ensures extends { Extends (tree_of tape.old) (tree_of tape.new) }
    ensures slots { OnOk result (WalkBefore (length (tree_of tape.new).gates) walk.new.on (reverse walk.new.parts.items)) }
    ensures value { IfOk result (λ done. OnTrue done (Says (tree_of tape.new)
        (λ cells ns. (s : Sizes) (c : Cycle) → WalkShows ns walk.old.on (reverse walk.old.parts.items)
        → IsTurned s c ns steps.Else (reverse walk.old.parts.items) walk.new.on (reverse walk.new.parts.items)))) }
    ensures some { (parts : List Bool) → elses (reverse walk.old.parts.items) ≡ false ∷ parts
        → IfOk result (λ done. IsTrue done × (elses (reverse walk.new.parts.items) ≡ true ∷ parts)) }
{
    let Some(part) = walk.parts.pop() else {
        return Ok(false);
    };
    let other = Part {
        around: part.around,
        test: part.test,
        is_else: !part.is_else,
    };
    enter(tape, walk, other)?;
    Ok(true)
}

// What is around the innermost part; false where none is open.
#[tactic(auto, using(crate::proofs::Walking::reverse_push))]
fn close_part(walk: &mut Walk) -> bool
    ensures slots { (n : ℕ) → WalkBefore n walk.old.on (reverse walk.old.parts.items) → WalkBefore n walk.new.on (reverse walk.new.parts.items) }
    ensures value { OnTrue result ((s : Sizes) (c : Cycle) (ns : List ℕ) → WalkShows ns walk.old.on (reverse walk.old.parts.items)
        → IsTurned s c ns steps.End (reverse walk.old.parts.items) walk.new.on (reverse walk.new.parts.items)) }
    ensures some { (b : Bool) (parts : List Bool) → elses (reverse walk.old.parts.items) ≡ b ∷ parts → IsTrue result × (elses (reverse walk.new.parts.items) ≡ parts) }
{
    let Some(part) = walk.parts.pop() else {
        return false;
    };
    walk.on = part.around;
    true
}

/// Opens and closes parts; false where a net has no slots, and where a part is closed that is not open.
pub(crate) fn turn(
    tape: &mut Tape,
    nets: &Nets,
    walk: &mut Walk,
    step: &Step,
) -> Result<bool, AllocError>
    requires tape { IsTape (tree_of tape.old) }
    requires nets { SlotsBefore nets.now.pairs.now (length (tree_of tape.old).gates) }
    requires walk { WalkBefore (length (tree_of tape.old).gates) walk.old.on (reverse walk.old.parts.items) }
    ensures extends { Extends (tree_of tape.old) (tree_of tape.new) }
    ensures slots { OnOk result (WalkBefore (length (tree_of tape.new).gates) walk.new.on (reverse walk.new.parts.items)) }
    ensures value { IfOk result (λ done. OnTrue done (Told nets.now.scope.now nets.now.pairs.now (tree_of tape.new)
        (λ s c ns. IsTrue (is_condition nets.now.scope.now step.now) → WalkShows ns walk.old.on (reverse walk.old.parts.items)
        → IsTurned s c ns step.now (reverse walk.old.parts.items) walk.new.on (reverse walk.new.parts.items)))) }
    ensures some { (rest : List StepTree) → IsStepReady nets.now.scope.now nets.now.pairs.now nets.now.memories.now step.now
        → IsTrue (nested (elses (reverse walk.old.parts.items)) (step.now ∷ rest))
        → IfOk result (λ done. IsTrue done × IsTrue (nested (elses (reverse walk.new.parts.items)) rest)) }
{
    match step {
        Step::If(test) => {
            let opened = open_part(tape, nets, walk, test)?;
            Ok(opened)
        }
        Step::Else => {
            let turned = turn_part(tape, walk)?;
            Ok(turned)
        }
        Step::End => {
            let closed = close_part(walk);
            Ok(closed)
        }
        Step::NonblockingAssign { .. } => Ok(true),
        Step::MemoryAssign { .. } => Ok(true),
    }
}
