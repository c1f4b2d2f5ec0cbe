// What registers take over, and what is stored in memories.

ghost use Rattle.std.specs.Prelude.{◌≡◌, ◌<◌, ◌==◌, ℕ, Bool, List, Option, Some, None, length, get_or, IfOk, OnOk, IsSome, IsTrue};
ghost use Rattle.std.specs.Bool.{OnTrue};
ghost use Rattle.std.specs.List.{list_all};
ghost use Rattle.vlog_tree.specs.declared.tree.Step.TheVariants as steps;
ghost use Rattle.vlog_tree.specs.Table.{one_if};
ghost use Rattle.vlog_tree.specs.Cycle.{Cycle, step_next};
ghost use Rattle.sim_tape.specs.Tape.{number_at, Extends, IsTape, PairBefore};
ghost use Rattle.sim_tape.specs.Solved.{Says};
ghost use Rattle.sim_tape.specs.Trees.{tree_of};
ghost use Rattle.sim_gates.specs.Nets.{SlotsBefore, Told};
ghost use Rattle.sim_gates.specs.Next.{NetsNext, CellsNext, ShowsNext, AreApart, AreKnown, SamePlaces, IsPut};
ghost use Rattle.sim_gates.specs.Ready.{IsStepReady};

use crate::atoms::pair_of_atom;
use crate::joins::choose;
use crate::nets::Nets;
use sim_tape::{Pair, Tape};
use std::alloc::AllocError;
use tapa_base::Text;
use vlog_tree::{Atom, Step};

/// A store: where the slot `on` is 1, the cell at `at` of the memory with these two numbers gets `value`.
#[derive(Clone, Copy)]
pub struct Store {
    pub on: u32,
    pub memory: Pair,
    pub at: Pair,
    pub value: Pair,
}

/// What the blocks of a module leave: by the indices of its names the pairs with the numbers that nets have in the next cycle,
/// and the stores, in the order of the text.
#[derive(Drop)]
pub struct Writes {
    pub next: Vec<Option<Pair>>,
    pub stores: Vec<Store>,
}

fn pair_at(pairs: &[Option<Pair>], place: usize) -> Option<Pair>
    ensures { result ≡ get_or pairs.now place None }
{
    match pairs.get(place) {
        Some(pair) => *pair,
        None => None,
    }
}

// The pair at an index gets another number where a slot is 1; false where there is none.
fn put_at(
    tape: &mut Tape,
    on: u32,
    value: Pair,
    place: usize,
    next: &mut Vec<Option<Pair>>,
) -> Result<bool, AllocError>
    requires tape { IsTape (tree_of tape.old) }
    requires on { on < length (tree_of tape.old).gates }
    requires value { PairBefore (length (tree_of tape.old).gates) value }
    requires next { SlotsBefore next.old.items (length (tree_of tape.old).gates) }
    ensures extends { Extends (tree_of tape.old) (tree_of tape.new) }
    ensures slots { OnOk result (SlotsBefore next.new.items (length (tree_of tape.new).gates)) }
    ensures same { OnOk result (SamePlaces next.old.items next.new.items) }
    ensures says { IfOk result (λ done. OnTrue done (Says (tree_of tape.new) (λ cells ns. IsPut ns on value place next.old.items next.new.items))) }
    ensures some { IsSome (get_or next.old.items place None) → IfOk result (λ done. IsTrue done) }
{
    if place >= next.len() {
        return Ok(false);
    }
    let Some(old) = pair_at(next, place) else {
        return Ok(false);
    };
    let chosen = choose(tape, on, value, old)?;
    next[place] = Some(chosen);
    Ok(true)
}

// A register takes over a number where a slot is 1; false where a net has no slots.
fn put_register(
    tape: &mut Tape,
    nets: &Nets,
    on: u32,
    register: &Text,
    value: &Atom,
    next: &mut Vec<Option<Pair>>,
) -> Result<bool, AllocError>
    requires tape { IsTape (tree_of tape.old) }
    requires nets { SlotsBefore nets.now.pairs.now (length (tree_of tape.old).gates) }
    requires on { on < length (tree_of tape.old).gates }
    requires next { SlotsBefore next.old.items (length (tree_of tape.old).gates) }
    ensures extends { Extends (tree_of tape.old) (tree_of tape.new) }
    ensures slots { OnOk result (SlotsBefore next.new.items (length (tree_of tape.new).gates)) }
    ensures same { OnOk result (SamePlaces next.old.items next.new.items) }
    ensures value { IfOk result (λ done. OnTrue done (Told nets.now.scope.now nets.now.pairs.now (tree_of tape.new)
        (λ s c ns. (bs : List Bool) (now : Cycle) → number_at ns on ≡ one_if (list_all (λ b. b) bs) → NetsNext nets.now.scope.now next.old.items now ns
        → NetsNext nets.now.scope.now next.new.items (step_next s c bs (steps.NonblockingAssign register.now value.now) now) ns))) }
    ensures some { SamePlaces nets.now.pairs.now next.old.items
        → IsStepReady nets.now.scope.now nets.now.pairs.now nets.now.memories.now (steps.NonblockingAssign register.now value.now) → IfOk result (λ done. IsTrue done) }
{
    let Some((place, _)) = nets.scope.place(register) else {
        return Ok(false);
    };
    let Some(new) = pair_of_atom(tape, nets, value)? else {
        return Ok(false);
    };
    let done = put_at(tape, on, new, place, next)?;
    Ok(done)
}

// A number is stored where a slot is 1; false where a net has no slots or a memory no numbers.
fn add_store(
    tape: &mut Tape,
    nets: &Nets,
    on: u32,
    memory: &Text,
    index: &Text,
    value: &Atom,
    stores: &mut Vec<Store>,
) -> Result<bool, AllocError>
    requires tape { IsTape (tree_of tape.old) }
    requires nets { SlotsBefore nets.now.pairs.now (length (tree_of tape.old).gates) }
    ensures extends { Extends (tree_of tape.old) (tree_of tape.new) }
    ensures known { OnOk result (AreKnown nets.now.scope.now nets.now.memories.now stores.old.items → AreKnown nets.now.scope.now nets.now.memories.now stores.new.items) }
    ensures value { IfOk result (λ done. OnTrue done (AreApart nets.now.scope.now nets.now.memories.now
        → Told nets.now.scope.now nets.now.pairs.now (tree_of tape.new)
        (λ s c ns. (bs : List Bool) (first now : Cycle) → number_at ns on ≡ one_if (list_all (λ b. b) bs)
        → CellsNext nets.now.scope.now nets.now.memories.now stores.old.items s first now ns
        → CellsNext nets.now.scope.now nets.now.memories.now stores.new.items s first (step_next s c bs (steps.MemoryAssign memory.now index.now value.now) now) ns))) }
    ensures some { IsStepReady nets.now.scope.now nets.now.pairs.now nets.now.memories.now (steps.MemoryAssign memory.now index.now value.now) → IfOk result (λ done. IsTrue done) }
{
    let Some(numbers) = nets.memory(memory) else {
        return Ok(false);
    };
    let Some(at) = nets.pair(index) else {
        return Ok(false);
    };
    let Some(pair) = pair_of_atom(tape, nets, value)? else {
        return Ok(false);
    };
    stores.push(Store {
        on,
        memory: numbers,
        at,
        value: pair,
    })?;
    Ok(true)
}

/// What a step writes where a slot is 1; false where a net has no slots or a memory no numbers.
pub(crate) fn write(
    tape: &mut Tape,
    nets: &Nets,
    on: u32,
    step: &Step,
    after: &mut Writes,
) -> Result<bool, AllocError>
    requires tape { IsTape (tree_of tape.old) }
    requires nets { SlotsBefore nets.now.pairs.now (length (tree_of tape.old).gates) }
    requires on { on < length (tree_of tape.old).gates }
    requires next { SlotsBefore after.old.next.items (length (tree_of tape.old).gates) }
    ensures extends { Extends (tree_of tape.old) (tree_of tape.new) }
    ensures slots { OnOk result (SlotsBefore after.new.next.items (length (tree_of tape.new).gates)) }
    ensures same { OnOk result (SamePlaces after.old.next.items after.new.next.items) }
    ensures known { OnOk result (AreKnown nets.now.scope.now nets.now.memories.now after.old.stores.items → AreKnown nets.now.scope.now nets.now.memories.now after.new.stores.items) }
    ensures value { IfOk result (λ done. OnTrue done (AreApart nets.now.scope.now nets.now.memories.now
        → Told nets.now.scope.now nets.now.pairs.now (tree_of tape.new)
        (λ s c ns. (bs : List Bool) (first now : Cycle) → number_at ns on ≡ one_if (list_all (λ b. b) bs)
        → ShowsNext nets.now.scope.now nets.now.memories.now after.old.next.items after.old.stores.items s first now ns
        → ShowsNext nets.now.scope.now nets.now.memories.now after.new.next.items after.new.stores.items s first (step_next s c bs step.now now) ns))) }
    ensures some { SamePlaces nets.now.pairs.now after.old.next.items → IsStepReady nets.now.scope.now nets.now.pairs.now nets.now.memories.now step.now → IfOk result (λ done. IsTrue done) }
{
    match step {
        Step::NonblockingAssign { register, value } => {
            let done = put_register(tape, nets, on, register, value, &mut after.next)?;
            Ok(done)
        }
        Step::MemoryAssign {
            memory,
            index,
            value,
        } => {
            let done = add_store(tape, nets, on, memory, index, value, &mut after.stores)?;
            Ok(done)
        }
        Step::If(_) => Ok(true),
        Step::Else => Ok(true),
        Step::End => Ok(true),
    }
}
