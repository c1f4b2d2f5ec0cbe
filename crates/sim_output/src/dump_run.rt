// The dump of a design's run on its data.

ghost use Rattle.std.specs.Prelude.{◌≡◌, ◌≤◌, IfOk, OnErr, IsErrOf};
ghost use Rattle.tapa_files.specs.Outside.{Rose};
ghost use Rattle.vlog_tree.specs.Environment.{FitsShape, shape_of};
ghost use Rattle.vlog_tree.specs.Form.{ModuleTree};
ghost use Rattle.vlog_design.specs.Designs.{TopOf};
ghost use Rattle.vlog_design.specs.Environments.{environment_of};
ghost use Rattle.sim_output.specs.Ending.{EndsSo, HasFront, HasPart};
ghost use Rattle.sim_output.specs.Dumped.{IsDumped};

use crate::dump_write::write_vcd;
use crate::run::{DesignEnd, end_after};
use cycle_sim::Sim;
use std::alloc::Global;
use tapa_files::{PrintFault, Sink};
use vlog_design::{Design, Env};

/// Runs a design in an environment that fits it, from power-up with 0 in every register and every cell, until it is done and
/// for at most `limit` cycles, and writes the value change dump of the nets of its top in these cycles. After an error the
/// output holds what it held and a prefix of the dump; a write fails only where there is a dump.
pub fn dump_design<O: Sink>(
    alloc: Global,
    design: Design,
    around: &Env,
    limit: u64,
    out: &mut O,
) -> Result<DesignEnd, PrintFault>
    requires fits { (m : ModuleTree) → TopOf design m → FitsShape (environment_of around.now) (shape_of m) }
    ensures end { IfOk result (λ end. EndsSo IsDumped design (environment_of around.now) limit (O.contents out.old) (O.contents out.new) end) }
    ensures part { OnErr result (HasPart IsDumped design (environment_of around.now) limit (O.contents out.old) (O.contents out.new)) }
    ensures front { IsErrOf result PrintFault.WriteFault → HasFront IsDumped design (environment_of around.now) limit (O.contents out.old) (O.contents out.new) }
    ensures later { O.faults out.old ≤ O.faults out.new }
    ensures fault { IsErrOf result PrintFault.WriteFault → Rose (O.faults out.old) (O.faults out.new) }
{
    let _modules = design.modules();
    design.valid();
    let mut sim = Sim::new(alloc, design, around, 0)?;
    let done_at = write_vcd(alloc, &mut sim, limit, out)?;
    Ok(end_after(done_at))
}
