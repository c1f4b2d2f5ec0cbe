// Crews, and how they run a network.
ghost use Rattle.std.specs.Prelude.{◌≡◌, ◌<◌, ◌≤◌, All, IfOk, length};
ghost use Rattle.kahn_model.specs.Counts.{IsReachable};
ghost use Rattle.net_core.specs.State.{network, count, IsNew};
ghost use Rattle.net_core.specs.Settle.{EndsAs, IsSettled};
ghost use Rattle.net_case.specs.State.{AreAllHome};
ghost use Rattle.coro_threads.specs.Out.{IsSameRun};
ghost use Rattle.coro_threads.specs.Seats.{IsSeatOf, Finished, origin, view, workers_of};

use crate::alone::{drive_new, drive_small, finish};
use crate::deal::BoardFault;
use crate::free::run_free;
use crate::run::Run;
use crate::seats::{Board, Worker};
use net_case::{Case, CaseFault, Gate};
use net_core::{Body, Net};
use std::alloc::Global;
use std::sync::Wait;
use std::thread;
use std::thread::Threads;

/// A crew that runs a network: at most `workers` workers, 1 to 64, on a runtime that can start threads. Each worker passes the gate
/// before it makes ticks. One worker alone, which waits for no other, passes none.
#[derive(Drop)]
pub struct Crew<'a, R: Threads + Wait + Sync, G: Gate> {
    pub rt: &'a R,
    pub gate: &'a G,
    pub workers: u32,
}

// Returns the number of workers that are of use. If the gate lets everyone through at once, there are no more of them than instances,
// and than processors.
fn of_use<R: Threads + Wait + Sync, G: Gate>(crew: &Crew<'_, R, G>, instances: usize) -> u32
    requires { (0 < crew.now.workers) × (crew.now.workers ≤ 64) }
    ensures some { (0 < result) × (result ≤ 64) }
    ensures most { result ≤ crew.now.workers }
{
    if !crew.gate.is_open() {
        return crew.workers;
    }
    let processors = match thread::available_parallelism(crew.rt) {
        Ok(count) => count.get(),
        Err(_) => instances,
    };
    let most = processors.min(instances).clamp(1, 64);
    crew.workers.min(most as u32)
}

// Closes a board after all its workers have returned.
fn closed<B: Body + Drop>(board: Board<B>, workers: Vec<Worker<B>>) -> Case<B>
    requires count { length workers.items ≡ workers_of board }
    requires workers { All (λ w. IsSeatOf board w.seat × Finished (origin board) (view w.seat) w.short w.small) workers.items }
    ensures run { IsSameRun (origin board) result }
    ensures home { AreAllHome result }
{
    board.close(workers)
}

// Lets `workers` workers share a case on a board, until nothing is left to do, a worker finds no memory for a batch, or batches stay
// small. Without memory for a board the case stays as it is.
fn share<R: Threads + Wait + Sync, B: Body + Send + Drop, G: Gate>(
    rt: &R,
    alloc: Global,
    case: Case<B>,
    workers: u32,
    gate: &G,
) -> Case<B>
    requires workers { (0 < workers) × (workers ≤ 64) }
    requires home { AreAllHome case }
    ensures run { IsSameRun case result }
    ensures home { AreAllHome result }
{
    match Board::new(alloc, case, workers) {
        Ok((board, mut crew)) => {
            run_free(rt, &board, crew.as_mut_slice(), gate);
            closed(board, crew)
        }
        Err(BoardFault { case }) => case,
    }
}

// Drives a case by turns: the workers share it as long as batches are large, and one thread drives its net while they are small.
fn by_turns<R: Threads + Wait + Sync, B: Body + Send + Drop, G: Gate>(
    rt: &R,
    alloc: Global,
    case: Case<B>,
    workers: u32,
    gate: &G,
    budget: u64,
) -> Run<B>
    requires workers { (0 < workers) × (workers ≤ 64) }
    requires home { AreAllHome case }
    requires budget { budget ≡ case.budget }
    ensures program { result.net.program ≡ case.program }
    ensures input { result.net.input ≡ case.input }
    ensures reachable { IsReachable (network result.net) (count result.net) }
    ensures outcome { IfOk result.end (EndsAs result.net budget) }
    ensures pauses { IfOk result.end (IsSettled result.net) }
{
    let mut case = case;
    for _ in rt.forever() {
        let shared = share(rt, alloc, case, workers, gate);
        shared.valid();
        let Some(left) = shared.left() else {
            return finish(shared);
        };
        match drive_small(alloc, shared.into_net(), budget, left) {
            Ok(grown) => case = grown,
            Err(run) => return run,
        }
    }
    unreachable!()
}

/// Drives a new net to its end, by the workers of a crew. One worker alone drives it as `settle` does. More workers share a case of
/// it while batches are large; while they are small, one thread drives it.
pub fn run_by<R: Threads + Wait + Sync, B: Body + Send + Drop, G: Gate>(
    crew: &Crew<'_, R, G>,
    alloc: Global,
    net: Net<B>,
    budget: u64,
) -> Run<B>
    requires new { IsNew net }
    requires workers { (0 < crew.now.workers) × (crew.now.workers ≤ 64) }
    requires budget { budget ≤ 1000000000000 }
    ensures program { result.net.program ≡ net.program }
    ensures input { result.net.input ≡ net.input }
    ensures reachable { IsReachable (network result.net) (count result.net) }
    ensures outcome { IfOk result.end (EndsAs result.net budget) }
    ensures pauses { IfOk result.end (IsSettled result.net) }
{
    let workers = of_use(crew, net.counts.len());
    if workers == 1 {
        return drive_new(alloc, net, budget);
    }
    match Case::new(alloc, net, budget) {
        Ok(case) => by_turns(crew.rt, alloc, case, workers, crew.gate, budget),
        Err(CaseFault { net }) => drive_new(alloc, net, budget),
    }
}
