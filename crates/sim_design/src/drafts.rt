// A design on a tape.

ghost use Rattle.std.specs.Prelude.{◌≡◌, [], length, IfOk, IfSome, IsSome};
ghost use Rattle.vlog_tree.specs.Form.{ModuleTree};
ghost use Rattle.vlog_design.specs.Designs.{TopOf};
ghost use Rattle.sim_tape.specs.Tape.{IsTape};
ghost use Rattle.sim_tape.specs.Trees.{tree_of};
ghost use Rattle.sim_gates.specs.Nets.{SlotsBefore};
ghost use Rattle.sim_flat.specs.Flat.{IsFlat};
ghost use Rattle.sim_design.specs.States.{TellsNumbers};
ghost use Rattle.sim_design.specs.Drafts.{IsDraft};
ghost use Rattle.sim_design.specs.Below.{HasPlaces};

use crate::all::place_all;
use crate::given::give_all;
use crate::memories::memories_of;
use crate::plan::Plan;
use crate::rows::add_next;
use sim_flat::{Flat, order_of_nets};
use sim_gates::Store;
use sim_tape::{Pair, Tape};
use std::alloc::{AllocError, Global};
use vlog_design::Design;

/// A memory: the numbers of the lists with the low and the high halves of its cells, the bits of a cell, and how many there
/// are.
#[derive(Clone, Copy)]
pub struct Width {
    pub pair: Pair,
    pub bits: u32,
    pub cells: u32,
}

/// A slot of a register, and the slot whose number it has in the next cycle.
#[derive(Clone, Copy)]
pub struct Commit {
    pub slot: u32,
    pub next: u32,
}

/// A design on a tape: by numbers of nets their pairs of slots, and by those of memories the numbers of the lists with the
/// halves of their cells; the memories, what registers take over, and what is stored.
#[derive(Drop)]
pub struct TapeDraft {
    pub tape: Tape,
    pub pairs: Vec<Option<Pair>>,
    pub memories: Vec<Option<Pair>>,
    pub cells: Vec<Width>,
    pub commits: Vec<Commit>,
    pub stores: Vec<Store>,
}

// The nets and memories of a design on a tape; nothing is taken over or stored yet.
fn placed_of(alloc: Global, design: &Design, flat: &Flat) -> Result<TapeDraft, AllocError>
    requires { (m : ModuleTree) → TopOf design.now m → IsFlat design.now.modules m flat.now }
    ensures tape { IfOk result (λ d. IsTape (tree_of d.tape)) }
    ensures slots { IfOk result (λ d. SlotsBefore d.pairs.items (length (tree_of d.tape).gates)) }
    ensures commits { IfOk result (λ d. d.commits.items ≡ []) }
    ensures stores { IfOk result (λ d. d.stores.items ≡ []) }
    ensures places { IfOk result (λ d. (m : ModuleTree) → TopOf design.now m → HasPlaces design.now.modules m flat.now d.pairs.items d.memories.items d.cells.items (tree_of d.tape)) }
    ensures tells { IfOk result (λ d. (m : ModuleTree) → TopOf design.now m → TellsNumbers design.now.modules m flat.now d.pairs.items d.memories.items (tree_of d.tape)) }
{
    let shape = design.shape(alloc)?;
    let memories = memories_of(alloc, flat, shape.memories.len())?;
    let order = order_of_nets(alloc, flat, design)?;
    let mut tape = Tape::new(alloc)?;
    let mut pairs = give_all(alloc, &mut tape, flat)?;
    let plan = Plan {
        flat,
        modules: design.modules(),
        memories: &memories.numbers,
        outside: &shape.memories,
    };
    place_all(alloc, &mut tape, &plan, &order, &mut pairs)?;
    Ok(TapeDraft {
        tape,
        pairs,
        memories: memories.numbers,
        cells: memories.widths,
        commits: Vec::new(alloc),
        stores: Vec::new(alloc),
    })
}

/// A design on a tape.
pub fn draft_of(
    alloc: Global,
    design: &Design,
    flat: &Flat,
) -> Result<Option<TapeDraft>, AllocError>
    requires { (m : ModuleTree) → TopOf design.now m → IsFlat design.now.modules m flat.now }
    ensures draft { IfOk result (λ o. IfSome o (λ d. (m : ModuleTree) → TopOf design.now m → IsDraft design.now.modules m flat.now d)) }
    ensures some { IfOk result (λ o. IsSome o) }
{
    let mut draft = placed_of(alloc, design, flat)?;
    let modules = design.modules();
    if !add_next(alloc, &mut draft, flat, modules)? {
        return Ok(None);
    }
    Ok(Some(draft))
}
