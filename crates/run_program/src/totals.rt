// What a run makes and carries in all, without its report.
ghost use Rattle.std.specs.Prelude.{◌≡◌, ◌+◌, ◌%◌, ◌^◌, ◌<◌, ◌≤◌, length, sum_by, IfOk};
ghost use Rattle.std.specs.Arc.{arc_value};
ghost use Rattle.tapa_syntax.specs.WellFormed.{IsWellFormed};
ghost use Rattle.kahn_model.specs.Fits.{FitsInput};
ghost use Rattle.kahn_model.specs.Outcome.{shown};
ghost use Rattle.net_core.specs.Bounded.{scalars_of, memories_of, values_of};
ghost use Rattle.net_core.specs.State.{network, count};
ghost use Rattle.run_program.specs.Fresh.{IsFresh};
ghost use Rattle.run_program.specs.Totals.{datum_of, tokens_below, sum_below, AreCarried, TotalsEndSo};

use crate::run::network;
use crate::waits::wait_lines;
use coro_machine::Coro;
use coro_threads::{Crew, Gate, Run, run_by};
use net_core::{Body, Input, Net, Outcome};
use std::alloc::Global;
use std::sync::{Arc, Wait};
use std::thread::Threads;
use tapa_base::{OutOfMemory, Token};
use tapa_syntax::Program;

/// The ticks of a run's instances that are waited for, and how many tokens its streams carried, with their sum modulo 2^64. The end of
/// a transaction adds nothing to the sum.
#[derive(Clone, Copy, Debug, PartialEq, Eq)]
pub struct Totals {
    pub ticks: u64,
    pub tokens: u64,
    pub sum: u64,
}

/// How a run ended.
#[derive(Drop)]
pub enum TotalsEnd {
    /// Every instance that is waited for has ended.
    Done { totals: Totals },
    /// Nothing may step; each line says what an instance waits for.
    Stopped { lines: Vec<Vec<u8>> },
    /// The instances that are waited for make more ticks than the limit, or never end.
    Limit,
}

// What a token adds to a sum.
fn datum(token: Token) -> u64
    ensures { result ≡ datum_of token }
{
    match token {
        Token::Datum(number) => number,
        Token::Eot => 0,
    }
}

// The sum of tokens, with another one before them.
fn add_data(before: u64, tokens: &[Token]) -> u64
    ensures { result ≡ (before + sum_by datum_of tokens.now) % 2 ^ 64 }
{
    let mut sum = before;
    for token in tokens {
        sum = sum.wrapping_add(datum(*token));
    }
    sum
}

// What a done net shows of its streams in all, and these ticks. More tokens than 64 bits number are answered as want of memory.
fn carried<B: Body>(net: &Net<B>, streams: usize, ticks: u64) -> Result<Totals, OutOfMemory>
    requires within { streams ≤ length net.now.program.streams.items }
    requires few { streams ≤ 1024 }
    ensures { IfOk result (AreCarried (shown (network net.now) (count net.now)) streams ticks) }
{
    let mut tokens: u64 = 0;
    let mut sum: u64 = 0;
    for s in 0..streams {
        let list = net.shown(s as u32);
        tokens = match tokens.checked_add(list.len() as u64) {
            Some(more) => more,
            None => return Err(OutOfMemory),
        };
        sum = add_data(sum, list);
    }
    Ok(Totals { ticks, tokens, sum })
}

// Drives the network of a program by the workers of a crew, and adds up what it shows.
fn drive<R: Threads + Wait + Sync, G: Gate>(
    crew: &Crew<'_, R, G>,
    alloc: Global,
    program: &Program,
    net: Net<Coro>,
    limit: u64,
) -> Result<TotalsEnd, OutOfMemory>
    requires workers { (0 < crew.now.workers) × (crew.now.workers ≤ 64) }
    requires fresh { IsFresh program.now net.input net }
    requires limit { limit ≤ 1000000000000 }
    ensures { IfOk result (TotalsEndSo program.now (values_of net.input) limit) }
{
    let Run { net, end } = run_by(crew, alloc, net, limit);
    match end? {
        Outcome::Done { ticks } => {
            let totals = carried(&net, program.streams.len(), ticks)?;
            Ok(TotalsEnd::Done { totals })
        }
        Outcome::Stopped { ticks: _ticks } => {
            let lines = wait_lines(alloc, program, &net)?;
            Ok(TotalsEnd::Stopped { lines })
        }
        Outcome::Limit => Ok(TotalsEnd::Limit),
    }
}

/// Runs a program on an input at its declared depths, by the workers of a crew, and returns its totals. The instances that are waited
/// for together make at most `limit` ticks, and each detached one at most `limit` of its own.
pub fn run_totals<R: Threads + Wait + Sync, G: Gate>(
    crew: &Crew<'_, R, G>,
    alloc: Global,
    program: &Arc<Program>,
    input: &Arc<Input>,
    limit: u64,
) -> Result<TotalsEnd, OutOfMemory>
    requires workers { (0 < crew.now.workers) × (crew.now.workers ≤ 64) }
    requires well_formed { IsWellFormed (arc_value program.now) }
    requires fits { FitsInput (arc_value program.now) (scalars_of (arc_value input.now)) (memories_of (arc_value input.now)) }
    requires limit { limit ≤ 1000000000000 }
    ensures { IfOk result (TotalsEndSo (arc_value program.now) (values_of (arc_value input.now)) limit) }
{
    let net = network(alloc, program, input)?;
    drive(crew, alloc, program, net, limit)
}
