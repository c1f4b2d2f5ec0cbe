// A network that is taken apart: a batch that comes back to another case, workers that meet in a round and at a board, and ends within
// a budget by one thread and by workers.
ghost use Rattle.std.specs.Prelude.{◌≡◌, ◌<◌, ◌≤◌, IfOk, slice_index};
ghost use Rattle.std.specs.Arc.{arc_value};
ghost use Rattle.kahn_model.specs.Fits.{FitsInput};
ghost use Rattle.tapa_syntax.specs.WellFormed.{IsWellFormed};
ghost use Rattle.net_core.specs.Bounded.{scalars_of, memories_of};
ghost use Rattle.net_case.specs.State.{AreAllHome};

use crate::gates::{APART, Awaiting, Closed, SHIFTS};
use crate::programs::short;
use command_source::{read_input, read_program};
use coro_machine::Coro;
use coro_threads::{Board, finish, run_free, run_rounds};
use net_case::{Case, Claimed, Gate, OpenGate};
use net_core::{Input, Outcome, settle};
use run_program::network;
use std::alloc::Global;
use std::sync::atomic::Ordering;
use std::sync::{Arc, Wait};
use std::test::Fail;
use std::thread::Threads;
use tapa_base::OutOfMemory;
use tapa_syntax::Program;

// Two tasks of which the first has room for one token.
const CROSSED: &str =
    "void A(tapa::ostream<int>& s1, tapa::ostream<int>& s2) { s1 << 1; s1 << 2; s2 << 3; }
void B(tapa::istream<int>& s1, tapa::istream<int>& s2) { s2.read(); s1.read(); s1.read(); }
void T() { tapa::stream<int, 1> s1; tapa::stream<int, 1> s2; tapa::task().invoke(A, s1, s2).invoke(B, s1, s2); }
";

// Twenty-four pairs of tasks, each of which hands over tokens.
const PAIRS: &str =
    "void A(tapa::ostream<int>& q) { int x = 1; for (int i = 0; i < 30; ++i) { x = x * 5 + i; q << x; } }
void B(tapa::istream<int>& q) { int sum = 0; for (int i = 0; i < 30; ++i) { sum = sum + q.read(); } }
void T() { tapa::streams<int, 24, 2> q; tapa::task().invoke<tapa::join, 24>(A, q).invoke<tapa::join, 24>(B, q); }
";

// Two tasks that hand a token to and fro.
const TO_AND_FRO: &str =
    "void A(tapa::istream<int>& p, tapa::ostream<int>& q) { for (int i = 0; i < 9000; ++i) { q << i; p.read(); } }
void B(tapa::istream<int>& p, tapa::ostream<int>& q) { for (int i = 0; i < 9000; ++i) { q << p.read(); } }
void T() { tapa::stream<int, 1> a; tapa::stream<int, 1> b; tapa::task().invoke(A, a, b).invoke(B, b, a); }
";

// A program, and the input of an empty object.
fn given(alloc: Global, source: &str) -> Result<(Arc<Program>, Arc<Input>), Fail>
    ensures well_formed { IfOk result (λ given. IsWellFormed (arc_value given.0)) }
    ensures fits { IfOk result (λ given. FitsInput (arc_value given.0) (scalars_of (arc_value given.1)) (memories_of (arc_value given.1))) }
{
    let program = read_program(alloc, short(source), "T")?;
    let Ok(input) = read_input(alloc, &program, b"{}") else {
        return Err(OutOfMemory.into());
    };
    Ok((Arc::new(alloc, program)?, Arc::new(alloc, input)?))
}

// A case of a program before its first tick.
fn new_case(
    alloc: Global,
    program: &Arc<Program>,
    input: &Arc<Input>,
    budget: u64,
) -> Result<Case<Coro>, Fail>
    requires well_formed { IsWellFormed (arc_value program.now) }
    requires fits { FitsInput (arc_value program.now) (scalars_of (arc_value input.now)) (memories_of (arc_value input.now)) }
    requires budget { budget ≤ 1000000000000 }
    ensures program { IfOk result (λ case. case.program ≡ arc_value program.now) }
    ensures input { IfOk result (λ case. case.input ≡ arc_value input.now) }
    ensures budget { IfOk result (λ case. case.budget ≡ budget) }
    ensures home { IfOk result AreAllHome }
{
    let net = network(alloc, program, input)?;
    match Case::new(alloc, net, budget) {
        Ok(case) => Ok(case),
        Err(_) => Err(OutOfMemory.into()),
    }
}

// An instance that may step makes ticks: the case then, the instance, and how many ticks.
fn step(case: Case<Coro>) -> Result<(Case<Coro>, usize, u64), Fail>
    ensures program { IfOk result (λ r. r.0.program ≡ case.program) }
    ensures input { IfOk result (λ r. r.0.input ≡ case.input) }
    ensures budget { IfOk result (λ r. r.0.budget ≡ case.budget) }
{
    let mut case = case;
    case.valid();
    let Claimed::Work(mut batch) = case.claim() else {
        return Err(OutOfMemory.into());
    };
    let instance = batch.instance();
    batch.run()?;
    let made = batch.made();
    match case.commit(batch) {
        Ok(()) => Ok((case, instance, made)),
        Err(_stale) => Err(OutOfMemory.into()),
    }
}

// A batch whose instance has made ticks since in the case to which it comes back is not taken, and that case stays as it is.
#[test]
fn a_batch_of_another_case_is_stale(rt: HostRuntime) -> Result<(), Fail> {
    let alloc = rt.alloc();
    let (program, input) = given(alloc, CROSSED)?;
    let mut one = new_case(alloc, &program, &input, 100)?;
    let (mut other, instance, made) = step(new_case(alloc, &program, &input, 100)?)?;
    let Claimed::Work(batch) = one.claim() else {
        return Err(OutOfMemory.into());
    };
    let first = batch.instance();
    if first >= one.counts().len() || first >= other.counts().len() {
        return Err(OutOfMemory.into());
    }
    if one.counts()[first] == other.counts()[first] {
        return Err(OutOfMemory.into());
    }
    assert_eq!(rt; (first, instance, made), (0, 0, 1));
    match other.commit(batch) {
        Ok(()) => assert!(rt; false),
        Err(stale) => {
            assert_eq!(rt; (stale.kept, stale.brought), (1, 0));
            assert_eq!(rt; (stale.batch.instance(), stale.batch.made()), (0, 0));
        }
    }
    assert_eq!(rt; other.counts(), [1, 0].as_slice());
    Ok(())
}

// Returns how a case ends that `seats` workers drive at a board, whether one of them found no memory, and whether one of them left
// because batches stay small.
fn at_a_board<R: Threads + Wait + Sync, G: Gate>(
    rt: &R,
    alloc: Global,
    case: Case<Coro>,
    seats: u32,
    gate: &G,
) -> Result<(Outcome, bool, bool), Fail>
    requires seats { (0 < seats) × (seats ≤ 64) }
    requires home { AreAllHome case }
{
    let Ok((board, mut workers)) = Board::new(alloc, case, seats) else {
        return Err(OutOfMemory.into());
    };
    run_free(rt, &board, workers.as_mut_slice(), gate);
    let mut short = false;
    let mut small = false;
    for worker in workers.iter() {
        short = short || worker.short;
        small = small || worker.small;
    }
    let outcome = finish(board.close(workers)).end?;
    Ok((outcome, short, small))
}

// How a network ends that two workers drive in rounds, and how many instances saw the calls that they awaited.
fn in_rounds<R: Threads + Wait + Sync>(
    rt: &R,
    alloc: Global,
    source: &str,
    gate: &Awaiting,
) -> Result<(Outcome, u64), Fail> {
    let (program, input) = given(alloc, source)?;
    let run = run_rounds(rt, alloc, network(alloc, &program, &input)?, 2, gate, 20);
    Ok((run.end?, gate.seen.load(Ordering::SeqCst)))
}

// With two workers both instances of a round are under way at once. But the others do not go on while an instance is held up: each makes one
// batch a round, so the slow one looks to the end of its patience.
#[test]
fn two_workers_meet_in_a_round(rt: HostRuntime) -> Result<(), Fail> {
    let meeting = in_rounds(&rt, rt.alloc(), SHIFTS, &Awaiting::new(1, 1))?;
    assert_eq!(rt; meeting, (Outcome::Done { ticks: 20 }, 2));
    let slow = in_rounds(&rt, rt.alloc(), APART, &Awaiting::new(2, 0))?;
    assert_eq!(rt; slow, (Outcome::Done { ticks: 10 }, 1));
    Ok(())
}

// Two workers that share a board have both instances under way at once, and while one is held up with one instance the other goes on with
// the others. None of them is marked.
#[test]
fn two_workers_meet_at_a_board(rt: HostRuntime) -> Result<(), Fail> {
    let alloc = rt.alloc();
    for (source, calls, ticks) in [(SHIFTS, (1, 1), 20), (APART, (2, 0), 10)] {
        let (program, input) = given(alloc, source)?;
        let gate = Awaiting::new(calls.0, calls.1);
        let case = new_case(alloc, &program, &input, 20)?;
        let end = at_a_board(&rt, alloc, case, 2, &gate)?;
        assert_eq!(rt; end, (Outcome::Done { ticks }, false, false));
        assert_eq!(rt; gate.seen.load(Ordering::SeqCst), 2);
    }
    Ok(())
}

// How a new network ends within a budget by one thread, whole and taken apart, and by workers at a board.
fn ends<R: Threads + Wait + Sync, G: Gate>(
    rt: &R,
    alloc: Global,
    source: &str,
    budget: u64,
    workers: u32,
    gate: &G,
) -> Result<(Outcome, Outcome, (Outcome, bool, bool)), Fail>
    requires budget { budget ≤ 1000000000000 }
    requires workers { (0 < workers) × (workers ≤ 64) }
{
    let (program, input) = given(alloc, source)?;
    let mut net = network(alloc, &program, &input)?;
    let whole = settle(alloc, &mut net, budget)?;
    let apart = finish(new_case(alloc, &program, &input, budget)?).end?;
    let case = new_case(alloc, &program, &input, budget)?;
    Ok((whole, apart, at_a_board(rt, alloc, case, workers, gate)?))
}

// A budget of all ticks is enough, and one of a tick less is not. Two tasks of which each waits for the other stop. Workers behind a gate
// that is not open come to the same end, also sixty-four of them.
#[test]
fn ends_are_alike(rt: HostRuntime) -> Result<(), Fail> {
    let alloc = rt.alloc();
    let done = Outcome::Done { ticks: 20 };
    let enough = ends(&rt, alloc, SHIFTS, 20, 2, &Closed)?;
    assert_eq!(rt; enough, (done, done, (done, false, false)));
    let less = ends(&rt, alloc, SHIFTS, 19, 2, &Closed)?;
    assert_eq!(rt;
        less,
        (
            Outcome::Limit,
            Outcome::Limit,
            (Outcome::Limit, false, false)
        )
    );
    let stopped = Outcome::Stopped { ticks: 1 };
    let crossed = ends(&rt, alloc, CROSSED, 100, 2, &Closed)?;
    assert_eq!(rt; crossed, (stopped, stopped, (stopped, false, false)));
    let (whole, apart, by_many) = ends(&rt, alloc, PAIRS, 1_000_000, 64, &Closed)?;
    assert_eq!(rt; (apart, by_many), (whole, (whole, false, false)));
    Ok(())
}

// Workers whose batches stay small leave, and say that it is for this; one thread comes to the end.
#[test]
fn workers_with_small_batches_are_small(rt: HostRuntime) -> Result<(), Fail> {
    let (whole, _, end) = ends(&rt, rt.alloc(), TO_AND_FRO, 1_000_000, 2, &OpenGate)?;
    assert_eq!(rt; end, (whole, false, true));
    Ok(())
}
