// An instance comes back with its ticks.
ghost use Rattle.std.specs.Prelude.{ℕ, ◌≡◌, ◌≢◌, ◌+◌, ◌-◌, ◌*◌, ◌^◌, ◌<◌, ◌≤◌, ◌++◌, true, false, length, drop, Some, slice_get, slice_index, IfOk, IfErr};
ghost use Rattle.net_core.specs.Ports.{waiting, carried, ends_of};
ghost use Rattle.net_core.specs.Bindings.{IsConnected, arity, detached_at, ends_at, stream_at, Reads, Writes};
ghost use Rattle.net_case.specs.Deliver.{queue_at, queue_space};
ghost use Rattle.net_case.specs.Commit.{IsFar};
ghost use Rattle.net_case.specs.Claims.{Commits, MayCommit, kept_of};

use crate::batch::Batch;
use crate::case::Case;
use crate::queue::Queue;
use net_core::{Body, Pause, Ports, arity, consumer, is_detached, producer, stream_at};
use tapa_syntax::Program;

/// A batch whose instance has made ticks in the case since it went out, with the ticks that it has made there by now and those
/// with which it went out.
#[derive(Drop)]
pub struct Stale<B: Body> {
    pub kept: u64,
    pub brought: u64,
    pub batch: Batch<B>,
}

// Takes over what an instance wrote.
fn take_over_written(
    program: &Program,
    queues: &mut Vec<Queue>,
    taken: &Vec<usize>,
    ports: &Ports,
    i: usize,
)
    requires connected { IsConnected program.now }
    requires instance { i < length program.now.instances.items }
    requires ends { ends_of ports.now ≡ ends_at program.now i }
    requires queues_len { length queues.old.items ≡ length program.now.streams.items }
    requires taken_len { length taken.now.items ≡ length program.now.streams.items }
    requires small { (p : ℕ) → Writes program.now i p → length (carried ports.now p) ≤ 1000000000000 }
    requires there { (p : ℕ) → Writes program.now i p → slice_index taken.now.items (stream_at program.now i p) + length (queue_at queues.old.items (stream_at program.now i p))
        ≤ length (carried ports.now p) }
    requires space { (p : ℕ) → Writes program.now i p → 2 * (length (carried ports.now p) - slice_index taken.now.items (stream_at program.now i p))
        ≤ queue_space queues.old.items (stream_at program.now i p) }
    ensures len { length queues.new.items ≡ length queues.old.items }
    ensures joined { (p : ℕ) → Writes program.now i p → queue_at queues.new.items (stream_at program.now i p) ≡ queue_at queues.old.items (stream_at program.now i p)
        ++ drop (slice_index taken.now.items (stream_at program.now i p) + length (queue_at queues.old.items (stream_at program.now i p))) (carried ports.now p) }
    ensures others { (s : ℕ) → ((p : ℕ) → Writes program.now i p → stream_at program.now i p ≡ s → ⊥) → queue_at queues.new.items s ≡ queue_at queues.old.items s }
    ensures spaces { (s : ℕ) → queue_space queues.old.items s ≤ queue_space queues.new.items s }
{
    for p in 0..arity(program, i) {
        if ports.writes(p) {
            let s = stream_at(program, i, p);
            let from = taken[s] + queues[s].len();
            queues[s].join(&ports.carried(p)[from..]);
        }
    }
}

// Takes over what an instance took, and how much it was given.
fn take_over_taken(
    program: &Program,
    queues: &mut Vec<Queue>,
    taken: &mut Vec<usize>,
    offered: &mut Vec<usize>,
    ports: &Ports,
    limits: &Vec<usize>,
    i: usize,
)
    requires connected { IsConnected program.now }
    requires instance { i < length program.now.instances.items }
    requires ends { ends_of ports.now ≡ ends_at program.now i }
    requires limits_len { length limits.now.items ≡ arity program.now i }
    requires queues_len { length queues.old.items ≡ length program.now.streams.items }
    requires taken_len { length taken.old.items ≡ length program.now.streams.items }
    requires offered_len { length offered.old.items ≡ length program.now.streams.items }
    requires more { (p : ℕ) → Reads program.now i p → slice_index taken.old.items (stream_at program.now i p) + length (waiting ports.now p) ≤ slice_index limits.now.items p }
    requires there { (p : ℕ) → Reads program.now i p → slice_index limits.now.items p
        ≤ slice_index taken.old.items (stream_at program.now i p) + length (queue_at queues.old.items (stream_at program.now i p)) + length (waiting ports.now p) }
    ensures queues_len { length queues.new.items ≡ length queues.old.items }
    ensures taken_len { length taken.new.items ≡ length taken.old.items }
    ensures offered_len { length offered.new.items ≡ length offered.old.items }
    ensures took { (p : ℕ) → Reads program.now i p → slice_index taken.new.items (stream_at program.now i p) + length (waiting ports.now p) ≡ slice_index limits.now.items p }
    ensures gave { (p : ℕ) → Reads program.now i p → slice_index offered.new.items (stream_at program.now i p) ≡ slice_index limits.now.items p }
    ensures rest { (p : ℕ) → Reads program.now i p → queue_at queues.new.items (stream_at program.now i p)
        ≡ drop (slice_index taken.new.items (stream_at program.now i p) - slice_index taken.old.items (stream_at program.now i p)) (queue_at queues.old.items (stream_at program.now i p)) }
    ensures others_taken { (s : ℕ) → ((p : ℕ) → Reads program.now i p → stream_at program.now i p ≡ s → ⊥) → slice_index taken.new.items s ≡ slice_index taken.old.items s }
    ensures others_given { (s : ℕ) → ((p : ℕ) → Reads program.now i p → stream_at program.now i p ≡ s → ⊥) → slice_index offered.new.items s ≡ slice_index offered.old.items s }
    ensures others_wait { (s : ℕ) → ((p : ℕ) → Reads program.now i p → stream_at program.now i p ≡ s → ⊥) → queue_at queues.new.items s ≡ queue_at queues.old.items s }
    ensures spaces { (s : ℕ) → queue_space queues.old.items s ≤ queue_space queues.new.items s }
{
    for p in 0..limits.len() {
        if !ports.writes(p) {
            let s = stream_at(program, i, p);
            let took = limits[p] - ports.left(p);
            queues[s].skip(took - taken[s]);
            taken[s] = took;
            offered[s] = limits[p];
        }
    }
}

// Lists an instance and those at the other ends of its streams.
fn list(program: &Program, listed: &mut Vec<bool>, i: usize)
    requires connected { IsConnected program.now }
    requires instance { i < length program.now.instances.items }
    requires listed_len { length listed.old.items ≡ length program.now.instances.items }
    ensures len { length listed.new.items ≡ length listed.old.items }
    ensures kept { (x : ℕ) → slice_get listed.new.items x ≡ Some false → slice_get listed.old.items x ≡ Some false }
    ensures far { (x : ℕ) → slice_get listed.new.items x ≡ Some false → IsFar program.now i x }
{
    listed[i] = true;
    for p in 0..arity(program, i) {
        let s = stream_at(program, i, p);
        listed[producer(program, s)] = true;
        listed[consumer(program, s)] = true;
    }
}

// What is kept of a batch's answer: an end, or that the instance may go on.
fn kept(pause: Option<Pause>, before: Option<Pause>) -> Option<Pause>
    ensures { result ≡ kept_of pause before }
{
    match pause {
        None => before,
        Some(Pause::Ended) => Some(Pause::Ended),
        Some(_) => Some(Pause::Fuel),
    }
}

// The ticks of the instances that are waited for, once an instance has made `made` more.
fn sum_after(program: &Program, i: usize, joined: u64, made: u64) -> u64
    requires instance { i < length program.now.instances.items }
    requires fits { joined + made < 2 ^ 64 }
    ensures detached { detached_at program.now i ≡ true → result ≡ joined }
    ensures joined { detached_at program.now i ≡ false → result ≡ joined + made }
{
    if is_detached(program, i) {
        joined
    } else {
        joined + made
    }
}

impl<B: Body + Drop> Case<B> {
    // The instance of a batch comes back with the ticks that it has made.
    fn take_back(&mut self, batch: Batch<B>)
        requires program { batch.program ≡ self.old.program }
        requires input { batch.input ≡ self.old.input }
        requires budget { batch.budget ≡ self.old.budget }
        requires fresh { slice_index self.old.counts batch.instance ≡ batch.from }
        requires may { MayCommit self.old batch }
        ensures { Commits self.old batch self.new }
    {
        let Batch {
            program: _,
            input: _,
            at: _,
            budget: _,
            instance: i,
            process,
            from,
            fuel: _,
            made,
            pause,
            ready: _,
        } = batch;
        let program: &Program = &self.program;
        take_over_written(program, &mut self.queues, &self.taken, &process.ports, i);
        take_over_taken(
            program,
            &mut self.queues,
            &mut self.taken,
            &mut self.offered,
            &process.ports,
            &process.limits,
            i,
        );
        list(program, &mut self.listed, i);
        self.pace.count(made);
        self.counts[i] = from + made;
        self.joined = sum_after(program, i, self.joined, made);
        self.pauses[i] = kept(pause, self.pauses[i]);
        self.homes[i] = Some(process);
    }

    /// Takes a batch back: its instance is at the count that the batch has reached and is at home again, with the tokens
    /// that it put and took, and all else stays. The batches that are out may come back in any order. It takes no memory.
    /// Where the instance's count is not the one with which the batch began, the answer is `Stale`, and the case is unchanged.
    pub fn commit(&mut self, batch: Batch<B>) -> Result<(), Stale<B>>
        requires program { batch.program ≡ self.old.program }
        requires input { batch.input ≡ self.old.input }
        requires budget { batch.budget ≡ self.old.budget }
        requires may { slice_index self.old.counts batch.instance ≡ batch.from → MayCommit self.old batch }
        ensures ok { IfOk result (λ _. Commits self.old batch self.new) }
        ensures unchanged { IfErr result (λ s. (self.new ≡ self.old) × (s.batch ≡ batch)) }
        ensures stale { IfErr result (λ s. (s.kept ≢ s.brought) × (s.brought ≡ batch.from) × (s.kept ≡ slice_index self.old.counts batch.instance)) }
    {
        let kept = self.counts[batch.instance];
        let brought = batch.from;
        if kept != brought {
            return Err(Stale {
                kept,
                brought,
                batch,
            });
        }
        self.take_back(batch);
        Ok(())
    }
}
