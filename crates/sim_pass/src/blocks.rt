// Blocks of a few gates, and what they read.

ghost use Rattle.std.specs.Prelude.{◌≡◌, ◌<◌, ◌^◌, length, IfOk};
ghost use Rattle.sim_pass.specs.Blocks.{AreBlocks};
ghost use Rattle.sim_pass.specs.Marks.{ListsGiven};
ghost use Rattle.sim_pass.specs.Rows.{gates_in};

use crate::given::given_of;
use crate::readers::readers_of;
use crate::rows::Row;
use crate::runs::{GateRun, runs_of};
use sim_tape::{Gate, Wide};
use std::alloc::{AllocError, Global};

/// How many gates a block has at most.
pub(crate) const BLOCK: usize = 16;

/// Runs of a few gates of one rule; by slots those of them that read a slot; and the slots that are given from outside.
#[derive(Drop)]
pub struct Blocks {
    pub runs: Vec<GateRun>,
    pub readers: Vec<Vec<u32>>,
    pub given: Vec<u32>,
}

/// The blocks of rows. The gates are those of the slots 0, 1, 2 and so on, and once more those of the rows.
pub(crate) fn blocks_of(
    alloc: Global,
    gates: &[Gate],
    wides: &[Wide],
    rows: &[Row],
    ordered: &[Gate],
) -> Result<Blocks, AllocError>
    requires few { length gates.now < 2 ^ 32 }
    requires ordered { ordered.now ≡ gates_in rows.now }
    ensures blocks { IfOk result (λ b. AreBlocks wides.now (gates_in rows.now) b) }
    ensures given { IfOk result (λ b. ListsGiven gates.now (length gates.now) b.given.items) }
{
    let given = given_of(alloc, gates)?;
    let runs = runs_of(alloc, ordered, BLOCK)?;
    let readers = readers_of(alloc, gates.len(), wides, rows, &runs)?;
    Ok(Blocks {
        runs,
        readers,
        given,
    })
}
