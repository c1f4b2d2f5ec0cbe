// The design of a program.

ghost use Rattle.std.specs.Prelude.{IfOk};
ghost use Rattle.tapa_syntax.specs.WellFormed.{IsWellFormed};
ghost use Rattle.hw_top_lines.specs.Designs.{AreShort};
ghost use Rattle.hw_top_lines.specs.Legal.{AreMachinesOf};
ghost use Rattle.tapa_syntax.specs.OwnNames.{HasOwnNames};
ghost use Rattle.circuit_meaning.specs.Circuits.{IsCircuitOf};

use crate::modules::modules_of;
use std::alloc::Global;
use tapa_base::OutOfMemory;
use tapa_syntax::Program;
use task_fsm::Fsm;
use vlog_design::Design;

/// The circuit of a program, whose bodies have these machines, with the listed cycles of latency added to its streams, and none
/// past the list's end. Of equal channels, and of instances of one task, one module serves all.
pub fn design(
    alloc: Global,
    program: &Program,
    machines: &[Fsm],
    added: &[u32],
) -> Result<Design, OutOfMemory>
    requires program { IsWellFormed program.now }
    requires names { HasOwnNames program.now }
    requires machines { AreMachinesOf program.now machines.now }
    requires added { AreShort added.now }
    ensures { IfOk result (IsCircuitOf program.now added.now) }
{
    let modules = modules_of(alloc, program, machines, added)?;
    let top = modules.len() - 1;
    let design = Design::of_known(alloc, modules, top)?;
    Ok(design)
}
