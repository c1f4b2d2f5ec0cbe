// The run of the program of a source on its data.
ghost use Rattle.std.specs.Prelude.{◌<◌, ◌≤◌, IfOk, option_map};
ghost use Rattle.tapa_syntax.specs.Shapes.{IsShapeOf};
ghost use Rattle.kahn_model.specs.Fits.{FitsInput};
ghost use Rattle.net_core.specs.Bounded.{scalars_of, memories_of, values_of};
ghost use Rattle.tapa_words.specs.Words.{most_limit};
ghost use Rattle.command_answers.specs.Ends.{IsCarriedOut};
ghost use Rattle.command_answers.specs.Files.{Asks, data_held};
ghost use Rattle.command_answers.specs.Meaning.{end_of};
ghost use Rattle.command_answers.specs.Outside.{store, outside};
ghost use Rattle.command_answers.specs.Steps.{Took};
ghost use Rattle.command_source.specs.Inputs.{GivesValues};
ghost use Rattle.command_source.specs.Means.{IsDataFault};
ghost use Rattle.command_run.specs.Means.{MeansRun, files_of_run};

use command_answers::{File, Refusal};
use command_source::{read_given, read_source};
use coro_threads::{Crew, Gate};
use net_core::Input;
use run_data::Data;
use run_program::{RunEnd, run_program};
use std::alloc::Global;
use std::sync::Wait;
use std::thread::Threads;
use tapa_files::{Shelf, Sink};
use tapa_syntax::Program;

// The input that a file on a shelf gives a program, and that of an empty object where no file is named.
fn read_values<S: Shelf>(
    alloc: Global,
    program: &Program,
    named: Option<&str>,
    shelf: &mut S,
) -> Result<Input, Refusal>
    ensures took { Took (store S.Shelf shelf.old) (store S.Shelf shelf.new) File.Data (data_held (option_map (λ file. file.now) named.entry)) (IsDataFault (IsShapeOf program.now))
        (λ bytes input. GivesValues program.now bytes (values_of input)) result }
    ensures fits { IfOk result (λ input. FitsInput program.now (scalars_of input) (memories_of input)) }
    ensures asks { Asks (store S.Shelf shelf.old) (store S.Shelf shelf.new) (data_held (option_map (λ file. file.now) named.entry)) }
{
    let shape = program.shape(alloc)?;
    let Data {
        scalars,
        memories,
        ..
    } = read_given(alloc, named, &shape, shelf)?;
    Ok(Input { scalars, memories })
}

/// Runs the program of a source on its data, by the workers of a crew, up to the first step that refuses. Joined instances may make at most
/// `limit` ticks.
pub fn run_source<R: Threads + Wait + Sync, G: Gate, S: Shelf, O: Sink>(
    crew: &Crew<'_, R, G>,
    alloc: Global,
    source: &str,
    top: &str,
    named: Option<&str>,
    limit: u64,
    shelf: &mut S,
    out: &mut O,
) -> Result<(), Refusal>
    requires workers { (0 < crew.now.workers) × (crew.now.workers ≤ 64) }
    requires limit { limit ≤ most_limit }
    ensures { IsCarriedOut (files_of_run source.now (option_map (λ file. file.now) named.entry)) (MeansRun top.now limit)
        (outside S.Shelf O.Sink shelf.old out.old) (outside S.Shelf O.Sink shelf.new out.new) (end_of result) }
{
    let program = read_source(alloc, source, top, shelf)?;
    let input = read_values(alloc, &program, named, shelf)?;
    match run_program(crew, alloc, program, input, limit, out)? {
        RunEnd::Done => Ok(()),
        RunEnd::Stopped { lines } => Err(Refusal::Stopped { lines }),
        RunEnd::Limit => Err(Refusal::Ticks { limit }),
    }
}
