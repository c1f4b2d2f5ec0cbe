// The text of the circuit of a program.
ghost use Rattle.std.specs.Prelude.{ℕ, List, IfOk};
ghost use Rattle.tapa_syntax.specs.WellFormed.{IsWellFormed};
ghost use Rattle.tapa_syntax.specs.OwnNames.{HasOwnNames};
ghost use Rattle.circuit_meaning.specs.Circuits.{IsCircuitOf};
ghost use Rattle.hw_top_lines.specs.Designs.{AreShort};
ghost use Rattle.command_answers.specs.Ends.{IsCarriedOut};
ghost use Rattle.command_answers.specs.Meaning.{end_of};
ghost use Rattle.command_answers.specs.Outside.{written, outside};
ghost use Rattle.command_answers.specs.Steps.{Wrote};
ghost use Rattle.command_build.specs.Built.{IsCircuitText};
ghost use Rattle.command_build.specs.Means.{MeansBuild, files_of_build};

use command_answers::Refusal;
use command_source::read_source;
use hw_top::{design, machines_of};
use std::alloc::Global;
use tapa_base::OutOfMemory;
use tapa_files::{Shelf, Sink};
use tapa_syntax::Program;
use verilog_text::print;
use vlog_design::Design;

/// The circuit of a program, to whose streams these latencies are added.
pub fn circuit_of(alloc: Global, program: &Program, added: &[u32]) -> Result<Design, OutOfMemory>
    requires program { IsWellFormed program.now }
    requires names { HasOwnNames program.now }
    requires added { AreShort added.now }
    ensures { IfOk result (IsCircuitOf program.now added.now) }
{
    let machines = machines_of(alloc, program)?;
    design(alloc, program, &machines, added)
}

/// Writes the text of the circuit of a program, to whose streams these latencies are added, a line at a time.
pub fn put_circuit<O: Sink>(
    alloc: Global,
    program: &Program,
    added: &[u32],
    out: &mut O,
) -> Result<(), Refusal>
    requires program { IsWellFormed program.now }
    requires names { HasOwnNames program.now }
    requires added { AreShort added.now }
    ensures { Wrote (IsCircuitText program.now added.now) (written O.Sink out.old) (written O.Sink out.new) (end_of result) }
{
    let design = circuit_of(alloc, program, added)?;
    print(alloc, &design, out)?;
    Ok(())
}

/// Builds the circuit of the program of a source without a device, up to the first step that refuses.
pub fn build_source<S: Shelf, O: Sink>(
    alloc: Global,
    source: &str,
    top: &str,
    shelf: &mut S,
    out: &mut O,
) -> Result<(), Refusal>
    ensures { IsCarriedOut (files_of_build source.now) (MeansBuild top.now) (outside S.Shelf O.Sink shelf.old out.old) (outside S.Shelf O.Sink shelf.new out.new) (end_of result) }
{
    let program = read_source(alloc, source, top, shelf)?;
    put_circuit(alloc, &program, &[], out)
}
