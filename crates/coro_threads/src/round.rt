// One round: the batches that are out make their ticks, in several threads or in one, and come back.
ghost use Rattle.std.specs.Prelude.{ℕ, ◌≡◌, ◌<◌, ◌≤◌, [], length, slice_get, Some, vec_capacity, OnOk};
ghost use Rattle.net_case.specs.declared.lot.Lot.{Lot};
ghost use Rattle.net_case.specs.State.{AreAllHome};
ghost use Rattle.coro_threads.specs.Out.{IsSameRun, AreOut, AreSameLots, AreReady, ahead};

use crate::batches::commit_all;
use net_case::{Batch, Case, Gate, run_all};
use net_core::Body;
use std::thread::Threads;
use tapa_base::OutOfMemory;

// A round after one of fewer ticks is not worth the start of threads.
const FEW_TICKS: u64 = 1_000_000;

// Makes room for what each batch may write.
fn prepare_all<B: Body>(batches: &mut Vec<Batch<B>>) -> Result<(), OutOfMemory>
    ensures same { AreSameLots batches.old.items batches.new.items }
    ensures room { vec_capacity batches.new ≡ vec_capacity batches.old }
    ensures ready { OnOk result (AreReady (length batches.new.items) batches.new.items) }
{
    for k in 0..batches.len() {
        batches[k].prepare()?;
    }
    Ok(())
}

// Checks whether batches have made few ticks in all. No contract depends on the answer.
fn made_few<B: Body>(batches: &Vec<Batch<B>>) -> bool {
    let mut left = FEW_TICKS;
    for k in 0..batches.len() {
        left = left.saturating_sub(batches[k].made());
    }
    left > 0
}

// Runs the batches that are out, in at most `threads` threads, and commits them. Returns whether they made few ticks.
fn run_ready<R: Threads + Sync, B: Body + Send + Drop, G: Gate>(
    rt: &R,
    case: &mut Case<B>,
    batches: &mut Vec<Batch<B>>,
    threads: usize,
    gate: &G,
) -> bool
    requires out { AreOut case.old batches.old.items }
    requires some { 0 < length batches.old.items }
    requires ready { AreReady (length batches.old.items) batches.old.items }
    requires threads { 0 < threads }
    ensures run { IsSameRun case.old case.new }
    ensures len { length case.new.counts ≡ length case.old.counts }
    ensures home { AreAllHome case.new }
    ensures none { batches.new.items ≡ [] }
    ensures room { vec_capacity batches.new ≡ vec_capacity batches.old }
    ensures progress { ahead case.new < ahead case.old }
{
    run_all(rt, batches.as_mut_slice(), threads, gate);
    let few = made_few(batches);
    commit_all(case, batches);
    few
}

/// Runs the batches that are out, in at most `threads` threads, and commits them. Returns whether they made few ticks. Without
/// memory for what they may write, they are committed as they are.
pub(crate) fn round<R: Threads + Sync, B: Body + Send + Drop, G: Gate>(
    rt: &R,
    case: &mut Case<B>,
    batches: &mut Vec<Batch<B>>,
    threads: usize,
    gate: &G,
) -> Result<bool, OutOfMemory>
    requires out { AreOut case.old batches.old.items }
    requires some { 0 < length batches.old.items }
    requires threads { 0 < threads }
    ensures run { IsSameRun case.old case.new }
    ensures len { length case.new.counts ≡ length case.old.counts }
    ensures home { AreAllHome case.new }
    ensures none { batches.new.items ≡ [] }
    ensures room { vec_capacity batches.new ≡ vec_capacity batches.old }
    ensures progress { OnOk result (ahead case.new < ahead case.old) }
{
    match prepare_all(batches) {
        Ok(()) => Ok(run_ready(rt, case, batches, threads, gate)),
        Err(short) => {
            commit_all(case, batches);
            Err(short)
        }
    }
}
