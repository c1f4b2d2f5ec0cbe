// The first cycle of a design.

ghost use Rattle.std.specs.Prelude.{◌≡◌, ◌%◌, ◌^◌, ℕ, List, Some, length, slice_get, IfOk};
ghost use Rattle.vlog_tree.specs.Form.{ModuleTree};
ghost use Rattle.vlog_tree.specs.Environment.{Environment, FitsShape, shape_of};
ghost use Rattle.vlog_design.specs.Designs.{TopOf};
ghost use Rattle.vlog_design.specs.Environments.{lists_of};
ghost use Rattle.cycle_sim.specs.Told.{TellsEachRun};
ghost use Rattle.sim_tape.specs.declared.gates.Pair.{Pair as PairTree};
ghost use Rattle.sim_tape.specs.Operators.{cells_of};
ghost use Rattle.sim_tape.specs.Tape.{IsTape, pair_value};
ghost use Rattle.sim_tape.specs.Solved.{IsSolved};
ghost use Rattle.sim_tape.specs.Trees.{tree_of};
ghost use Rattle.sim_flat.specs.declared.flat.Flat.{Flat as FlatTree};
ghost use Rattle.sim_flat.specs.Flat.{IsFlat};
ghost use Rattle.sim_design.specs.Drafts.{IsDraft};
ghost use Rattle.cycle_sim.specs.declared.inputs.Input.{Input as InputTree};
ghost use Rattle.cycle_sim.specs.Firsts.{IsHeldAt};
ghost use Rattle.cycle_sim.specs.Steps.{supplied};
ghost use Rattle.cycle_sim.specs.Machines.{IsMachine};
ghost use Rattle.cycle_sim.specs.Wholes.{AreParts, IsAround, IsSim, sim_tree};

use crate::around::{Around, around_of};
use crate::first::first_cells;
use crate::inputs::give;
use crate::parts::{Machine, Parts, State};
use crate::registers::fill_registers;
use sim_design::{TapeDraft, draft_of};
use sim_flat::{Flat, flatten};
use sim_pass::Schedule;
use std::alloc::{AllocError, Global};
use vlog_design::{Design, Env};

fn copied(alloc: Global, ready: &[Vec<bool>]) -> Result<Vec<Vec<bool>>, AllocError>
    ensures { IfOk result (λ v. lists_of v.items ≡ lists_of ready.now) }
{
    let mut out = Vec::new(alloc);
    for bits in ready {
        let one = bits.as_slice().to_vec(alloc)?;
        out.push(one)?;
    }
    Ok(out)
}

// Makes a draft's tape ready to run.
fn finish(alloc: Global, draft: TapeDraft) -> Result<Machine, AllocError>
    requires { IsTape (tree_of draft.tape) }
    ensures machine { IfOk result (λ k. (ms : List ModuleTree) (m : ModuleTree) (flat : FlatTree) → IsDraft ms m flat draft → IsMachine ms m flat k) }
    ensures pairs { IfOk result (λ k. k.pairs ≡ draft.pairs) }
{
    let program = Schedule::of_tape(alloc, draft.tape)?;
    Ok(Machine {
        program,
        pairs: draft.pairs,
        memories: draft.memories,
        widths: draft.cells,
        commits: draft.commits,
        stores: draft.stores,
    })
}

// Puts a flattened design on a tape, and finds its interface to its environment.
fn laid_out(
    alloc: Global,
    design: &Design,
    flat: &Flat,
    scalars: &[u64],
) -> Result<(Machine, Around), AllocError>
    requires { (m : ModuleTree) → TopOf design.now m → IsFlat design.now.modules m flat.now }
    ensures machine { IfOk result (λ r. (m : ModuleTree) → TopOf design.now m → IsMachine design.now.modules m flat.now r.0) }
    ensures around { IfOk result (λ r. (m : ModuleTree) → TopOf design.now m → IsAround design.now.modules m flat.now r.0.pairs.items scalars.now r.1) }
{
    design.valid();
    let draft = draft_of(alloc, design, flat)?.unwrap();
    let around = around_of(alloc, design, &draft.pairs, scalars)?;
    let machine = finish(alloc, draft)?;
    Ok((machine, around))
}

/// Puts a design on a tape, with its interface to the environment.
pub fn parts_of(alloc: Global, design: Design, around: &Env) -> Result<Parts, AllocError>
    ensures parts { IfOk result (λ p. AreParts p) }
    ensures design { IfOk result (λ p. p.design ≡ design) }
    ensures scalars { IfOk result (λ p. p.scalars.items ≡ around.now.scalars.items) }
    ensures ready { IfOk result (λ p. lists_of p.ready.items ≡ lists_of around.now.ready.items) }
{
    design.valid();
    let scalars = around.scalars.as_slice().to_vec(alloc)?;
    let ready = copied(alloc, &around.ready)?;
    let flat = flatten(alloc, &design)?;
    let (machine, around) = laid_out(alloc, &design, &flat, &scalars)?;
    Ok(Parts {
        design,
        flat,
        machine,
        around,
        scalars,
        ready,
    })
}

// Writes the numbers of the first cycle to all slots.
fn first_numbers(parts: &Parts, fill: u64, cells: &[Vec<u64>], numbers: &mut [u64])
    requires parts { AreParts parts.now }
    requires size { length numbers.old ≡ length parts.now.machine.program.gates }
    ensures solved { IsSolved parts.now.machine.program (cells_of cells.now) numbers.new }
    ensures given { (i : ℕ) (a : InputTree) → slice_get parts.now.around.inputs.items i ≡ Some a → pair_value numbers.new a.pair ≡ supplied (lists_of parts.now.ready.items) 0 a.supply }
    ensures filled { (number bits : ℕ) (p : PairTree) → IsHeldAt parts.now.flat parts.now.machine.pairs.items number bits p → pair_value numbers.new p ≡ fill % 2 ^ bits }
{
    fill_registers(&parts.flat, &parts.machine.pairs, fill, numbers);
    give(&parts.around.inputs, &parts.ready, 0, numbers);
    parts.machine.program.pass(numbers, cells);
}

/// Returns the first cycle: every register and every cell inside holds `fill` modulo 2 to the power of its width, and the memories
/// around the design hold these cells.
pub fn first_state(
    alloc: Global,
    parts: &Parts,
    memories: &[Vec<u64>],
    fill: u64,
) -> Result<State, AllocError>
    requires { AreParts parts.now }
    ensures sim { IfOk result (λ s. IsSim parts.now s) }
    ensures cycle { IfOk result (λ s. s.cycle ≡ 0) }
    ensures told { IfOk result (λ s. (m : ModuleTree) (env : Environment) → TopOf parts.now.design m → FitsShape env (shape_of m) → env.scalars ≡ parts.now.scalars.items
        → env.memories ≡ lists_of memories.now
        → TellsEachRun parts.now.design.modules m env fill (sim_tree parts.now s).told) }
{
    let outside = parts.around.outside.len();
    let cells = first_cells(alloc, memories, outside, &parts.machine.widths, fill)?;
    let mut numbers = vec![in alloc; 0; parts.machine.program.len()]?;
    first_numbers(parts, fill, &cells, &mut numbers);
    let given = vec![in alloc; 0; parts.machine.program.len()]?;
    let marks = parts.machine.program.marks(alloc)?;
    Ok(State {
        cycle: 0,
        numbers,
        cells,
        given,
        marks,
        is_still: false,
    })
}
