// Workers that go on by themselves: each claims a batch in its turn, runs it outside, and commits it in a later turn.
ghost use Rattle.std.specs.Prelude.{◌≡◌, ◌<◌, ◌≤◌, true, false, length, All};
ghost use Rattle.coro_threads.specs.Ticks.{HasSeenMany};
ghost use Rattle.coro_threads.specs.Turn.{HasNothing};
ghost use Rattle.coro_threads.specs.Seats.{IsSeatOf, view, origin, Turns, AfterTurn, HasBatch, Finished};

use crate::seats::{Board, BoardSeat, Worker, sum_of};
use crate::signals::Signals;
use net_case::{Batch, Case, Claimed, Gate};
use net_core::Body;
use std::sync::Wait;
use std::thread;
use std::thread::Threads;

// A batch whose instance made fewer ticks the last time is run within the turn.
const SMALL: u64 = 256;

// The greatest number of small batches that are run within one turn.
const MANY: u32 = 65_536;

// The least number of ticks that were made since the board was made if workers leave because batches stay small.
const MANY_TICKS: u64 = 4_096;

/// The result of a turn of a worker that has no batch.
pub enum Turned<B: Body> {
    /// The result of its last claim.
    Found(Claimed<B>),
    /// Nothing: another worker has the turn, or waits for it.
    Left,
    /// Nothing: it was long enough, or workers are to leave.
    Again,
    /// Nothing: there was no memory for a batch.
    Short,
}

// Claims batches, and as long as they are small, the gate is open and no other worker waits for the turn, runs and commits each at
// once. If batches have been small for some time and none is out, it signals that all workers are to leave.
fn turn<B: Body + Drop, G: Gate>(case: &mut Case<B>, signals: &Signals, gate: &G) -> Turned<B>
    ensures { Turns case.old result case.new }
{
    for _ in 0..MANY {
        case.valid();
        let mut batch = match case.claim() {
            Claimed::Work(batch) => batch,
            claimed => return Turned::Found(claimed),
        };
        if batch.last() >= SMALL || !gate.is_open() {
            return Turned::Found(Claimed::Work(batch));
        }
        let ran = batch.run();
        match case.commit(batch) {
            Ok(()) => {}
            Err(_stale) => unreachable!(),
        }
        if ran.is_err() {
            return Turned::Short;
        }
        if case.is_slow() {
            signals.leave();
            return Turned::Again;
        }
        if signals.is_awaited() {
            return Turned::Left;
        }
    }
    Turned::Again
}

// Takes a turn for a seat without a batch, if the turn is free.
fn take_turn<B: Body + Drop, G: Gate>(
    board: &Board<B>,
    seat: &mut BoardSeat<B>,
    gate: &G,
) -> Turned<B>
    requires { IsSeatOf board.now seat.old × HasNothing (view seat.old) }
    ensures same { IsSeatOf board.now seat.new }
    ensures turned { AfterTurn (origin board.now) (view seat.new) result }
{
    let Some(mut case) = board.try_take(seat) else {
        return Turned::Left;
    };
    let turned = turn(&mut case, &board.signals, gate);
    board.give(seat, case);
    turned
}

// Waits for the turn, and commits the seat's batch in it.
fn commit_one<R: Wait, B: Body + Drop>(
    rt: &R,
    board: &Board<B>,
    seat: &mut BoardSeat<B>,
    batch: Batch<B>,
)
    requires seat { IsSeatOf board.now seat.old }
    requires batch { HasBatch (origin board.now) (view seat.old) batch }
    ensures same { IsSeatOf board.now seat.new }
    ensures idle { HasNothing (view seat.new) }
{
    board.signals.comes();
    let mut case = board.take(rt, seat);
    board.signals.has_come();
    let Ok(()) = case.commit(batch) else {
        unreachable!()
    };
    board.give(seat, case);
}

// Runs a batch outside of the turn, after its instance has passed the gate, and commits the batch. Returns whether there was memory
// for its ticks.
fn run_outside<R: Wait, B: Body + Drop, G: Gate>(
    rt: &R,
    board: &Board<B>,
    seat: &mut BoardSeat<B>,
    batch: Batch<B>,
    gate: &G,
) -> bool
    requires seat { IsSeatOf board.now seat.old }
    requires batch { HasBatch (origin board.now) (view seat.old) batch }
    ensures same { IsSeatOf board.now seat.new }
    ensures idle { HasNothing (view seat.new) }
{
    let mut batch = batch;
    gate.pass(batch.instance() as u32);
    let ran = batch.run();
    commit_one(rt, board, seat, batch);
    ran.is_ok()
}

// Checks whether many ticks were made since the board was made, in a turn that the worker waits for.
fn has_seen_many<R: Wait, B: Body + Drop>(rt: &R, board: &Board<B>, seat: &mut BoardSeat<B>) -> bool
    requires { IsSeatOf board.now seat.old × HasNothing (view seat.old) }
    ensures same { IsSeatOf board.now seat.new }
    ensures idle { HasNothing (view seat.new) }
    ensures many { result ≡ true → HasSeenMany (origin board.now) (view seat.new).seen }
{
    let case = board.take(rt, seat);
    let made = sum_of(case.counts()).saturating_sub(board.begun);
    board.give(seat, case);
    made >= MANY_TICKS
}

// Marks a worker that found no memory for a batch, and lets the others look for what it leaves.
fn give_up<B: Body>(worker: &mut Worker<B>, signals: &Signals)
    ensures seat { worker.new.seat ≡ worker.old.seat }
    ensures short { worker.new.short ≡ true }
    ensures small { worker.new.small ≡ worker.old.small }
{
    worker.short = true;
    signals.tell_all();
}

// Marks a worker that leaves because batches stay small, and wakes the others.
fn leave<B: Body>(worker: &mut Worker<B>, signals: &Signals)
    ensures seat { worker.new.seat ≡ worker.old.seat }
    ensures small { worker.new.small ≡ true }
{
    worker.small = true;
    signals.tell_all();
}

/// Runs one worker until a claim finds the end, memory runs out for a batch, or batches stay small. The worker runs a small batch
/// within its turn if the gate is open; before it resumes another one, outside, it passes the gate. Without memory it commits the
/// batch as it is, is `short`, and returns; the others go on. If batches stay small, a worker may leave as `small`, once it has seen
/// that many ticks were made.
pub fn work<R: Wait, B: Body + Drop, G: Gate>(
    rt: &R,
    board: &Board<B>,
    worker: &mut Worker<B>,
    gate: &G,
)
    requires { IsSeatOf board.now worker.old.seat × HasNothing (view worker.old.seat) × (worker.old.short ≡ false) × (worker.old.small ≡ false) }
    ensures same { IsSeatOf board.now worker.new.seat }
    ensures done { Finished (origin board.now) (view worker.new.seat) worker.new.short worker.new.small }
{
    let signals = &board.signals;
    for _ in rt.forever() {
        let news = signals.news();
        if signals.are_to_leave() && has_seen_many(rt, board, &mut worker.seat) {
            return leave(worker, signals);
        }
        match take_turn(board, &mut worker.seat, gate) {
            Turned::Found(Claimed::Over(_)) => {
                signals.tell_all();
                return;
            }
            Turned::Found(Claimed::Wait) | Turned::Left => signals.wait(rt, news),
            Turned::Again => {}
            Turned::Found(Claimed::Work(batch)) => {
                signals.tell_one();
                if !run_outside(rt, board, &mut worker.seat, batch, gate) {
                    return give_up(worker, signals);
                }
            }
            Turned::Short => return give_up(worker, signals),
        }
    }
    unreachable!()
}

/// Runs all workers of a crew, each in a thread if one can be made, and otherwise one after another. Afterwards each worker is
/// `short`, is `small`, or its seat has seen a count at which nothing is left to do.
pub fn run_free<R: Threads + Wait + Sync, B: Body + Drop + Send, G: Gate>(
    rt: &R,
    board: &Board<B>,
    crew: &mut [Worker<B>],
    gate: &G,
)
    requires workers { (0 < length crew.old) × (length crew.old ≤ 64) }
    requires crew { All (λ w. IsSeatOf board.now w.seat × HasNothing (view w.seat) × (w.short ≡ false) × (w.small ≡ false)) crew.old }
    ensures len { length crew.new ≡ length crew.old }
    ensures finished { All (λ w. IsSeatOf board.now w.seat × Finished (origin board.now) (view w.seat) w.short w.small) crew.new }
{
    let workers = crew.len();
    let one = |_: usize, worker: &mut Worker<B>|
        requires { IsSeatOf board.now worker.now.seat × HasNothing (view worker.now.seat) × (worker.now.short ≡ false) × (worker.now.small ≡ false) }
        ensures { IsSeatOf board.entry.now worker.exit.now.seat × Finished (origin board.entry.now) (view worker.exit.now.seat) worker.exit.now.short worker.exit.now.small }
    { work(rt, board, worker, gate) };
    thread::for_each_mut(rt, crew, workers, &one);
}
