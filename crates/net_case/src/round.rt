// The batches of a round, each resumed once by some thread.
ghost use Rattle.std.specs.Prelude.{ℕ, ◌≡◌, ◌<◌, ◌≤◌, length, true, slice_index_or};
ghost use Rattle.net_core.specs.declared.body.Pause.{Pause};
ghost use Rattle.net_case.specs.Batch.{Ran};

use crate::batch::Batch;
use crate::gate::Gate;
use net_core::Body;
use std::thread;
use std::thread::Threads;

// One batch of a round: it passes the gate, and makes its ticks.
fn run_one<B: Body, G: Gate>(gate: &G, batch: &mut Batch<B>)
    requires { batch.old.ready ≡ true }
    ensures { (pause : Pause) × Ran batch.old batch.new pause }
{
    gate.pass(batch.instance() as u32);
    let _answer = batch.resume();
}

/// Resumes each batch of a list once, in at most `workers` threads. Each has the memory for what it may write.
pub fn run_all<R: Threads + Sync, B: Body + Send, G: Gate>(
    rt: &R,
    batches: &mut [Batch<B>],
    workers: usize,
    gate: &G,
)
    requires workers { 0 < workers }
    requires ready { (i : ℕ) (d : _) → i < length batches.old → (slice_index_or batches.old i d).ready ≡ true }
    ensures len { length batches.new ≡ length batches.old }
    ensures ran { (i : ℕ) (d : _) → i < length batches.old → (pause : Pause) × Ran (slice_index_or batches.old i d) (slice_index_or batches.new i d) pause }
{
    let one = |_: usize, batch: &mut Batch<B>|
        requires { batch.now.ready ≡ true }
        ensures { (pause : Pause) × Ran batch.entry.now batch.exit.now pause }
    { run_one(gate, batch) };
    thread::for_each_mut(rt, batches, workers, &one);
}
