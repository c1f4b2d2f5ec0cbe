// The numbers of a generated network.
ghost use Rattle.std.specs.Prelude.{◌<◌, ◌≤◌, [], IfOk, IfErr};
ghost use Rattle.std.specs.Arc.{arc_value};
ghost use Rattle.tapa_syntax.specs.WellFormed.{IsWellFormed};
ghost use Rattle.tapa_syntax.specs.OwnNames.{HasOwnNames};
ghost use Rattle.tapa_words.specs.Words.{default_limit};
ghost use Rattle.run_program.specs.Totals.{IsTotalled};
ghost use Rattle.command_answers.specs.Meaning.{end_at};
ghost use Rattle.command_answers.specs.Steps.{Fails};
ghost use Rattle.command_gen.specs.Network.{IsCircuitDoneIn, IsNotRun, IsNotDone, IsNotSummed, IsSummaryOf};
ghost use Rattle.command_gen.specs.Nothing.{no_values};

use crate::lines::Summary;
use crate::nothing::{no_input, no_surroundings};
use command_answers::Refusal;
use command_build::circuit_of;
use coro_threads::{Crew, Gate};
use run_program::{Totals, TotalsEnd, run_totals};
use sim_output::done_cycle;
use std::alloc::Global;
use std::sync::{Arc, Wait};
use std::thread::Threads;
use tapa_syntax::Program;

// The most ticks of the run, and the most cycles of the simulation.
const MOST_TICKS: u64 = 100_000_000;

const MOST_CYCLES: u64 = 10_000_000;

// What a run of a program without a value makes and carries in all, or why it does not end.
fn totals_of<R: Threads + Wait + Sync, G: Gate>(
    crew: &Crew<'_, R, G>,
    alloc: Global,
    program: &Arc<Program>,
) -> Result<Totals, Refusal>
    requires workers { (0 < crew.now.workers) × (crew.now.workers ≤ 64) }
    requires well_formed { IsWellFormed (arc_value program.now) }
    ensures run { IfOk result (IsTotalled (arc_value program.now) (no_values (arc_value program.now)) default_limit) }
    ensures refused { IfErr result (λ refusal. Fails (IsNotRun (arc_value program.now)) (end_at refusal)) }
{
    let input = no_input(alloc, program)?;
    let input = match Arc::new(alloc, input) {
        Ok(input) => input,
        Err(_) => return Err(Refusal::Memory),
    };
    match run_totals(crew, alloc, program, &input, MOST_TICKS)? {
        TotalsEnd::Done { totals } => Ok(totals),
        TotalsEnd::Stopped { lines } => Err(Refusal::Stopped { lines }),
        TotalsEnd::Limit => Err(Refusal::Ticks { limit: MOST_TICKS }),
    }
}

// The cycle in which a program's circuit is done, or that it is done in none.
fn cycles_of(alloc: Global, program: &Program) -> Result<u64, Refusal>
    requires well_formed { IsWellFormed program.now }
    requires names { HasOwnNames program.now }
    ensures done { IfOk result (IsCircuitDoneIn program.now) }
    ensures refused { IfErr result (λ refusal. Fails (IsNotDone program.now) (end_at refusal)) }
{
    let design = circuit_of(alloc, program, &[])?;
    let around = no_surroundings(alloc, program)?;
    match done_cycle(alloc, design, &around, MOST_CYCLES)? {
        Some(cycle) => Ok(cycle),
        None => Err(Refusal::Undone { limit: MOST_CYCLES }),
    }
}

/// The numbers of a program, of its run by the workers of a crew, and of the simulation of its circuit. The first of these that refuses
/// decides.
pub(crate) fn summary_of<R: Threads + Wait + Sync, G: Gate>(
    crew: &Crew<'_, R, G>,
    alloc: Global,
    program: Program,
) -> Result<Summary, Refusal>
    requires workers { (0 < crew.now.workers) × (crew.now.workers ≤ 64) }
    requires well_formed { IsWellFormed program }
    requires names { HasOwnNames program }
    ensures is { IfOk result (IsSummaryOf program) }
    ensures refused { IfErr result (λ refusal. Fails (IsNotSummed program) (end_at refusal)) }
{
    let program = match Arc::new(alloc, program) {
        Ok(program) => program,
        Err(_) => return Err(Refusal::Memory),
    };
    let totals = totals_of(crew, alloc, &program)?;
    let cycles = cycles_of(alloc, &program)?;
    Ok(Summary {
        tasks: program.instances.len() as u64,
        streams: program.streams.len() as u64,
        ticks: totals.ticks,
        tokens: totals.tokens,
        sum: totals.sum,
        cycles,
    })
}
