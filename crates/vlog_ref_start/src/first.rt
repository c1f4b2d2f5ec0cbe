// The first snapshot of a design's runs.

ghost use Rattle.std.specs.Prelude.{◌≡◌, IfOk};
ghost use Rattle.vlog_tree.specs.Form.{ModuleTree};
ghost use Rattle.vlog_design.specs.Designs.{TopOf};
ghost use Rattle.vlog_design.specs.Environments.{environment_of};
ghost use Rattle.vlog_ref_start.specs.Runs.{IsStart};

use crate::contents::first_held;
use crate::outside::{first_memories, first_scalars};
use std::alloc::{AllocError, Global};
use vlog_design::{Design, Env};
use vlog_values::Moment;

/// The snapshot of cycle 0, in which every register and every cell of the design holds `fill` modulo 2 to the power of its
/// width, and the environment is the given one.
pub fn first_moment(
    alloc: Global,
    design: &Design,
    around: &Env,
    fill: u128,
) -> Result<Moment, AllocError>
    ensures { IfOk result (λ now. (m : ModuleTree) → TopOf design.now m → IsStart design.now.modules m (environment_of around.now) fill now) }
{
    let held = first_held(alloc, design.modules(), design.top(), fill)?;
    let shape = design.shape(alloc)?;
    let scalars = first_scalars(alloc, &shape.scalars, &around.scalars)?;
    let outside = first_memories(alloc, &shape.memories, around)?;
    Ok(Moment {
        cycle: 0,
        held,
        scalars,
        outside,
    })
}
