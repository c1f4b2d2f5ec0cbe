// The summary of a generated network, written.
ghost use Rattle.std.specs.Prelude.{◌<◌, ◌≤◌};
ghost use Rattle.tapa_words.specs.Words.{most_layers};
ghost use Rattle.command_answers.specs.Ends.{IsCarriedOut};
ghost use Rattle.command_answers.specs.Meaning.{end_of};
ghost use Rattle.command_answers.specs.Outside.{Store, written};
ghost use Rattle.command_gen.specs.Means.{MeansGen, files_of_gen};

use crate::lines::summary_lines;
use crate::program::network_program;
use crate::summary::summary_of;
use command_answers::{Refusal, put_lines};
use coro_threads::{Crew, Gate};
use std::alloc::Global;
use std::sync::Wait;
use std::thread::Threads;
use tapa_files::Sink;

/// Generates the network of `layers` layers, runs its program by the workers of a crew, builds and simulates its circuit, and writes
/// the summary, a line at a time. The first step that refuses decides, and nothing is written before all of them are done.
pub fn put_network<R: Threads + Wait + Sync, G: Gate, O: Sink>(
    crew: &Crew<'_, R, G>,
    alloc: Global,
    layers: u32,
    out: &mut O,
) -> Result<(), Refusal>
    requires workers { (0 < crew.now.workers) × (crew.now.workers ≤ 64) }
    requires layers { layers ≤ most_layers }
    ensures { (store : Store) → IsCarriedOut (files_of_gen layers) MeansGen
        (record { store = store; out = written O.Sink out.old }) (record { store = store; out = written O.Sink out.new }) (end_of result) }
{
    let program = network_program(alloc, layers)?;
    let summary = summary_of(crew, alloc, program)?;
    let lines = summary_lines(alloc, &summary)?;
    put_lines(out, &lines)?;
    Ok(())
}
