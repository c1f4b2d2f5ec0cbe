// The simulation of a Verilog text on its data.
ghost use Rattle.std.specs.Prelude.{◌≡◌, ◌≤◌, ℕ, List, All, IfOk, OnErr, IsErrOf, option_map};
ghost use Rattle.tapa_files.specs.Outside.{Rose};
ghost use Rattle.vlog_tree.specs.Environment.{FitsShape, shape_of};
ghost use Rattle.vlog_tree.specs.Form.{ModuleTree};
ghost use Rattle.vlog_design.specs.Designs.{TopOf};
ghost use Rattle.vlog_design.specs.Environments.{environment_of};
ghost use Rattle.sim_output.specs.Ending.{EndsSo, HasFront, HasPart};
ghost use Rattle.command_answers.specs.Ends.{IsCarriedOut};
ghost use Rattle.command_answers.specs.Files.{Named, Asks, data_held};
ghost use Rattle.command_answers.specs.Meaning.{end_of};
ghost use Rattle.command_answers.specs.Outside.{store, outside};
ghost use Rattle.command_answers.specs.Steps.{Took};
ghost use Rattle.command_source.specs.Means.{IsDataFault};
ghost use Rattle.command_cosim.specs.Designs.{IsDesignOf, IsShapeIn, GivesEnvironment, IsToldFor};
ghost use Rattle.command_cosim.specs.Means.{IsTextFault, MeansCosim, files_of_cosim};

use command_answers::{File, Refusal, read_file};
use command_source::read_given;
use run_data::Data;
use sim_output::{DesignEnd, dump_design, run_design};
use std::alloc::{AllocError, Global};
use tapa_base::Shape;
use tapa_files::{PrintFault, Shelf, Sink};
use tapa_words::CosimAim;
use vlog_design::{Design, Env};
use vlog_read::read;

// The design of a Verilog text on a shelf.
fn read_design<S: Shelf>(alloc: Global, file: &str, shelf: &mut S) -> Result<Design, Refusal>
    ensures took { Took (store S.Shelf shelf.old) (store S.Shelf shelf.new) File.Text (Named file.now) IsTextFault (λ text design. IsDesignOf text design) result }
    ensures asks { Asks (store S.Shelf shelf.old) (store S.Shelf shelf.new) (Named file.now) }
{
    let text = read_file(alloc, File::Text, file, shelf)?;
    let design = read(alloc, &text)?;
    Ok(design)
}

// What the top of a design asks for. Its scalars and its memories' cells have at most 64 bits.
fn shape(alloc: Global, design: &Design) -> Result<Shape, AllocError>
    ensures is { IfOk result (IsShapeIn design.now) }
    ensures scalars { IfOk result (λ shape. All (λ port. port.bits ≤ 64) shape.scalars.items) }
    ensures memories { IfOk result (λ shape. All (λ port. port.bits ≤ 64) shape.memories.items) }
{
    let _modules = design.modules();
    design.valid();
    design.shape(alloc)
}

// The environment that a file of data on a shelf gives a design, and that of an empty object if no file is named.
fn read_surroundings<S: Shelf>(
    alloc: Global,
    design: &Design,
    named: Option<&str>,
    shelf: &mut S,
) -> Result<Env, Refusal>
    ensures took { Took (store S.Shelf shelf.old) (store S.Shelf shelf.new) File.Data (data_held (option_map (λ file. file.now) named.entry)) (IsDataFault (IsShapeIn design.now))
        (λ bytes around. GivesEnvironment design.now bytes (environment_of around)) result }
    ensures fits { IfOk result (λ around. (m : ModuleTree) → TopOf design.now m → FitsShape (environment_of around) (shape_of m)) }
    ensures asks { Asks (store S.Shelf shelf.old) (store S.Shelf shelf.new) (data_held (option_map (λ file. file.now) named.entry)) }
{
    let shape = shape(alloc, design)?;
    let Data {
        scalars,
        memories,
        waits,
    } = read_given(alloc, named, &shape, shelf)?;
    Ok(Env {
        scalars,
        memories,
        ready: waits,
    })
}

// Runs a design in an environment, and writes what is to be shown of it.
fn show_design<O: Sink>(
    alloc: Global,
    design: Design,
    around: &Env,
    limit: u64,
    aim: CosimAim,
    out: &mut O,
) -> Result<DesignEnd, PrintFault>
    requires fits { (m : ModuleTree) → TopOf design m → FitsShape (environment_of around.now) (shape_of m) }
    ensures end { IfOk result (λ end. EndsSo (IsToldFor aim) design (environment_of around.now) limit (O.contents out.old) (O.contents out.new) end) }
    ensures part { OnErr result (HasPart (IsToldFor aim) design (environment_of around.now) limit (O.contents out.old) (O.contents out.new)) }
    ensures front { IsErrOf result PrintFault.WriteFault → HasFront (IsToldFor aim) design (environment_of around.now) limit (O.contents out.old) (O.contents out.new) }
    ensures later { O.faults out.old ≤ O.faults out.new }
    ensures fault { IsErrOf result PrintFault.WriteFault → Rose (O.faults out.old) (O.faults out.new) }
{
    match aim {
        CosimAim::Report => run_design(alloc, design, around, limit, out),
        CosimAim::Dump => dump_design(alloc, design, around, limit, out),
    }
}

/// Simulates the design of a Verilog text on its data and writes its report or its dump, up to the first step that refuses.
pub fn cosim_text<S: Shelf, O: Sink>(
    alloc: Global,
    text: &str,
    named: Option<&str>,
    limit: u64,
    aim: CosimAim,
    shelf: &mut S,
    out: &mut O,
) -> Result<(), Refusal>
    ensures { IsCarriedOut (files_of_cosim text.now (option_map (λ file. file.now) named.entry)) (MeansCosim limit aim)
        (outside S.Shelf O.Sink shelf.old out.old) (outside S.Shelf O.Sink shelf.new out.new) (end_of result) }
{
    let design = read_design(alloc, text, shelf)?;
    let around = read_surroundings(alloc, &design, named, shelf)?;
    match show_design(alloc, design, &around, limit, aim, out)? {
        DesignEnd::Done => Ok(()),
        DesignEnd::Running => Err(Refusal::Undone { limit }),
    }
}
