// The cycle in which a design is done.

ghost use Rattle.std.specs.Prelude.{◌≡◌, IfOk};
ghost use Rattle.vlog_tree.specs.Environment.{FitsShape, shape_of};
ghost use Rattle.vlog_tree.specs.Form.{ModuleTree};
ghost use Rattle.vlog_design.specs.Designs.{TopOf};
ghost use Rattle.vlog_design.specs.Environments.{environment_of};
ghost use Rattle.sim_output.specs.Reports.{IsSimulatedSo};

use cycle_sim::{Sim, run_cycles};
use std::alloc::Global;
use tapa_base::OutOfMemory;
use vlog_design::{Design, Env};

/// Runs a design in an environment that fits it until the design is done, for at most `limit` cycles. Power-up puts 0 in every register and every cell.
/// Returns the cycle in which the design is done, or `None` if there is none.
pub fn done_cycle(
    alloc: Global,
    design: Design,
    around: &Env,
    limit: u64,
) -> Result<Option<u64>, OutOfMemory>
    requires fits { (m : ModuleTree) → TopOf design m → FitsShape (environment_of around.now) (shape_of m) }
    ensures { IfOk result (IsSimulatedSo design (environment_of around.now) limit) }
{
    let _modules = design.modules();
    design.valid();
    let mut sim = Sim::new(alloc, design, around, 0)?;
    let carried = run_cycles(alloc, &mut sim, limit)?;
    Ok(carried.done_at)
}
