// A run of a flat program on an input, and its report.
ghost use Rattle.std.specs.Prelude.{◌<◌, ◌≤◌, IfOk, OnErr, IsErrOf};
ghost use Rattle.std.specs.Arc.{arc_value};
ghost use Rattle.tapa_files.specs.Outside.{Rose};
ghost use Rattle.tapa_syntax.specs.WellFormed.{IsWellFormed};
ghost use Rattle.kahn_model.specs.Fits.{FitsInput};
ghost use Rattle.run_program.specs.Ending.{EndsSo, HasFront, HasPart};
ghost use Rattle.net_core.specs.Bounded.{scalars_of, memories_of, values_of};
ghost use Rattle.run_program.specs.Fresh.{IsFresh};

use crate::shown::show;
use crate::start::coroutines;
use crate::waits::wait_lines;
use coro_machine::Coro;
use coro_threads::{Crew, Gate, Run, run_by};
use net_core::{Input, Net, Outcome};
use run_data::Last;
use std::alloc::Global;
use std::sync::{Arc, Wait};
use std::thread::Threads;
use tapa_base::OutOfMemory;
use tapa_files::{PrintFault, Sink};
use tapa_syntax::Program;

/// How a run ended.
#[derive(Drop)]
pub enum RunEnd {
    /// Every instance that is waited for has ended, and the report is written.
    Done,
    /// Nothing may step; the report is written, and each line says what an instance waits for.
    Stopped { lines: Vec<Vec<u8>> },
    /// The instances that are waited for make more ticks than the limit, or never end; nothing is written.
    Limit,
}

/// The program's network before its first tick.
pub fn network(
    alloc: Global,
    program: &Arc<Program>,
    input: &Arc<Input>,
) -> Result<Net<Coro>, OutOfMemory>
    requires well_formed { IsWellFormed (arc_value program.now) }
    requires fits { FitsInput (arc_value program.now) (scalars_of (arc_value input.now)) (memories_of (arc_value input.now)) }
    ensures { IfOk result (λ net. IsFresh (arc_value program.now) (arc_value input.now) net) }
{
    let bodies = coroutines(alloc, program, input)?;
    Net::new(alloc, program.clone()?, input.clone()?, bodies)
}

// Drives the network by the workers of a crew, and writes its report.
fn drive<R: Threads + Wait + Sync, G: Gate, O: Sink>(
    crew: &Crew<'_, R, G>,
    alloc: Global,
    program: &Program,
    input: &Input,
    net: Net<Coro>,
    limit: u64,
    out: &mut O,
) -> Result<RunEnd, PrintFault>
    requires workers { (0 < crew.now.workers) × (crew.now.workers ≤ 64) }
    requires fresh { IsFresh program.now input.now net }
    requires limit { limit ≤ 1000000000000 }
    ensures end { IfOk result (λ end. EndsSo program.now (values_of input.now) limit (O.contents out.old) (O.contents out.new) end) }
    ensures part { OnErr result (HasPart program.now (values_of input.now) limit (O.contents out.old) (O.contents out.new)) }
    ensures front { IsErrOf result PrintFault.WriteFault → HasFront program.now (values_of input.now) limit (O.contents out.old) (O.contents out.new) }
    ensures later { O.faults out.old ≤ O.faults out.new }
    ensures fault { IsErrOf result PrintFault.WriteFault → Rose (O.faults out.old) (O.faults out.new) }
{
    let Run { net, end } = run_by(crew, alloc, net, limit);
    match end? {
        Outcome::Done { ticks } => {
            show(alloc, program, input, &net, Last::Done(ticks), out)?;
            Ok(RunEnd::Done)
        }
        Outcome::Stopped { ticks } => {
            let lines = wait_lines(alloc, program, &net)?;
            show(alloc, program, input, &net, Last::Stopped(ticks), out)?;
            Ok(RunEnd::Stopped { lines })
        }
        Outcome::Limit => Ok(RunEnd::Limit),
    }
}

/// Runs a program on an input at its declared depths, by the workers of a crew, and writes the report: what each stream carried, the
/// last cells of each memory, and the ticks of the instances that are waited for. These together make at most `limit` ticks, and each
/// detached one at most `limit` of its own. After an error the output has the bytes that it had before and a prefix of the report; a
/// write fails only where there is a report.
pub fn run_program<R: Threads + Wait + Sync, G: Gate, O: Sink>(
    crew: &Crew<'_, R, G>,
    alloc: Global,
    program: Program,
    input: Input,
    limit: u64,
    out: &mut O,
) -> Result<RunEnd, PrintFault>
    requires workers { (0 < crew.now.workers) × (crew.now.workers ≤ 64) }
    requires well_formed { IsWellFormed program }
    requires fits { FitsInput program (scalars_of input) (memories_of input) }
    requires limit { limit ≤ 1000000000000 }
    ensures end { IfOk result (λ end. EndsSo program (values_of input) limit (O.contents out.old) (O.contents out.new) end) }
    ensures part { OnErr result (HasPart program (values_of input) limit (O.contents out.old) (O.contents out.new)) }
    ensures front { IsErrOf result PrintFault.WriteFault → HasFront program (values_of input) limit (O.contents out.old) (O.contents out.new) }
    ensures later { O.faults out.old ≤ O.faults out.new }
    ensures fault { IsErrOf result PrintFault.WriteFault → Rose (O.faults out.old) (O.faults out.new) }
{
    let program = match Arc::new(alloc, program) {
        Ok(program) => program,
        Err(_) => return Err(PrintFault::OutOfMemory),
    };
    let input = match Arc::new(alloc, input) {
        Ok(input) => input,
        Err(_) => return Err(PrintFault::OutOfMemory),
    };
    let net = network(alloc, &program, &input)?;
    drive(crew, alloc, &program, &input, net, limit, out)
}
