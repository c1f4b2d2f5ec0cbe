// The run of a network in rounds.
ghost use Rattle.std.specs.Prelude.{◌≡◌, ◌<◌, ◌≤◌, [], length, vec_capacity, IfOk};
ghost use Rattle.kahn_model.specs.Counts.{IsReachable};
ghost use Rattle.net_core.specs.State.{network, count, IsNew};
ghost use Rattle.net_core.specs.Settle.{EndsAs, IsSettled};
ghost use Rattle.net_case.specs.State.{AreAllHome};
ghost use Rattle.coro_threads.specs.Out.{IsSameRun, HasEndedAs};

use crate::batches::claim_all;
use crate::round::round;
use crate::run::Run;
use net_case::{Batch, Case, CaseFault, Gate};
use net_core::{Body, Net, Outcome};
use std::alloc::Global;
use std::thread::Threads;
use tapa_base::OutOfMemory;

// Runs round after round, until no instance may step. There is room for a batch of each instance.
fn drive<R: Threads + Sync, B: Body + Send + Drop, G: Gate>(
    rt: &R,
    case: &mut Case<B>,
    batches: &mut Vec<Batch<B>>,
    workers: usize,
    gate: &G,
) -> Result<Outcome, OutOfMemory>
    requires home { AreAllHome case.old }
    requires none { batches.old.items ≡ [] }
    requires room { length case.old.counts ≤ vec_capacity batches.old }
    requires workers { 0 < workers }
    ensures run { IsSameRun case.old case.new }
    ensures home { AreAllHome case.new }
    ensures ended { IfOk result (HasEndedAs case.new) }
{
    let mut few = false;
    'rounds: loop {
        if let Some(outcome) = claim_all(case, batches) {
            return Ok(outcome);
        }
        let threads = if few && gate.is_open() { 1 } else { workers };
        let made_few = round(rt, case, batches, threads, gate)?;
        few = made_few;
    }
}

// Drives a case in rounds, with room for a batch of each instance.
fn drive_in_rounds<R: Threads + Sync, B: Body + Send + Drop, G: Gate>(
    rt: &R,
    alloc: Global,
    case: &mut Case<B>,
    workers: usize,
    gate: &G,
) -> Result<Outcome, OutOfMemory>
    requires home { AreAllHome case.old }
    requires workers { 0 < workers }
    ensures run { IsSameRun case.old case.new }
    ensures home { AreAllHome case.new }
    ensures ended { IfOk result (HasEndedAs case.new) }
{
    let mut batches = Vec::with_capacity(alloc, case.counts().len())?;
    drive(rt, case, &mut batches, workers, gate)
}

/// Drives a new net as `settle` does, in rounds: in each of them every instance that may step makes ticks, in at most `workers`
/// threads, where each passes the gate before; then one thread hands on what they wrote. A round after one of few ticks runs
/// in one thread. How it ends does not depend on the number of workers.
pub fn run_rounds<R: Threads + Sync, B: Body + Send + Drop, G: Gate>(
    rt: &R,
    alloc: Global,
    net: Net<B>,
    workers: u32,
    gate: &G,
    budget: u64,
) -> Run<B>
    requires new { IsNew net }
    requires workers { (0 < workers) × (workers ≤ 64) }
    requires budget { budget ≤ 1000000000000 }
    ensures program { result.net.program ≡ net.program }
    ensures input { result.net.input ≡ net.input }
    ensures reachable { IsReachable (network result.net) (count result.net) }
    ensures outcome { IfOk result.end (EndsAs result.net budget) }
    ensures pauses { IfOk result.end (IsSettled result.net) }
{
    net.valid();
    match Case::new(alloc, net, budget) {
        Ok(case) => {
            let mut case = case;
            let end = drive_in_rounds(rt, alloc, &mut case, workers as usize, gate);
            case.valid();
            Run {
                net: case.into_net(),
                end,
            }
        }
        Err(CaseFault { net }) => Run {
            net,
            end: Err(OutOfMemory),
        },
    }
}
