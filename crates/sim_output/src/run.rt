// A run of a design on its data, and its report.

ghost use Rattle.std.specs.Prelude.{◌≡◌, ◌≤◌, IfOk, OnErr, IsErrOf};
ghost use Rattle.tapa_files.specs.Outside.{Rose};
ghost use Rattle.vlog_tree.specs.Environment.{FitsShape, shape_of};
ghost use Rattle.vlog_tree.specs.Form.{ModuleTree};
ghost use Rattle.vlog_design.specs.Designs.{TopOf};
ghost use Rattle.vlog_design.specs.Environments.{environment_of};
ghost use Rattle.sim_output.specs.Ending.{EndsSo, HasFront, HasPart, end_of};
ghost use Rattle.sim_output.specs.Reports.{last_of, IsSimulated};

use crate::shown::show;
use cycle_sim::{Sim, run_cycles};
use run_data::Last;
use std::alloc::Global;
use tapa_files::{PrintFault, Sink};
use vlog_design::{Design, Env};

/// How the run of a design ended.
#[derive(Clone, Copy, Debug, PartialEq, Eq)]
pub enum DesignEnd {
    /// It was done in one of the cycles.
    Done,
    /// It was done in none of them.
    Running,
}

// The last line of a report, by the cycle in which the design was done.
fn last_after(limit: u64, done_at: Option<u64>) -> Last
    ensures { result ≡ last_of limit done_at }
{
    match done_at {
        Some(at) => Last::Done(at),
        None => Last::Running(limit),
    }
}

/// How a run ended, by the cycle in which the design was done.
pub fn end_after(done_at: Option<u64>) -> DesignEnd
    ensures { result ≡ end_of done_at }
{
    match done_at {
        Some(_) => DesignEnd::Done,
        None => DesignEnd::Running,
    }
}

/// Runs a design in an environment that fits it, from power-up with 0 in every register and every cell, until it is done and
/// for at most `limit` cycles, and writes the report: what each stream carried, the cells of each memory in the last cycle,
/// before its store, and the cycle. After an error the output holds what it held and a prefix of the report; a write
/// fails only where there is a report.
pub fn run_design<O: Sink>(
    alloc: Global,
    design: Design,
    around: &Env,
    limit: u64,
    out: &mut O,
) -> Result<DesignEnd, PrintFault>
    requires fits { (m : ModuleTree) → TopOf design m → FitsShape (environment_of around.now) (shape_of m) }
    ensures end { IfOk result (λ end. EndsSo IsSimulated design (environment_of around.now) limit (O.contents out.old) (O.contents out.new) end) }
    ensures part { OnErr result (HasPart IsSimulated design (environment_of around.now) limit (O.contents out.old) (O.contents out.new)) }
    ensures front { IsErrOf result PrintFault.WriteFault → HasFront IsSimulated design (environment_of around.now) limit (O.contents out.old) (O.contents out.new) }
    ensures later { O.faults out.old ≤ O.faults out.new }
    ensures fault { IsErrOf result PrintFault.WriteFault → Rose (O.faults out.old) (O.faults out.new) }
{
    let _modules = design.modules();
    design.valid();
    let shape = design.shape(alloc)?;
    let streams = design.streams(alloc)?;
    let mut sim = Sim::new(alloc, design, around, 0)?;
    let carried = run_cycles(alloc, &mut sim, limit)?;
    show(
        alloc,
        &streams,
        &carried.tokens,
        &shape.memories,
        &sim,
        last_after(limit, carried.done_at),
        out,
    )?;
    Ok(end_after(carried.done_at))
}
