// How a board is made with its crew, and how it is closed.
ghost use Rattle.std.specs.Prelude.{◌≡◌, ℕ, ◌<◌, ◌≤◌, ◌+◌, ◌-◌, [], ◌∷◌, false, Some, length, All, IfOk, IfErr, vec_capacity, slice_index};
ghost use Rattle.net_case.specs.State.{AreAllHome};
ghost use Rattle.coro_threads.specs.Turn.{HasNothing};
ghost use Rattle.coro_threads.specs.Ends.{IsOf};
ghost use Rattle.coro_threads.specs.Seats.{IsSeatOf, view, origin, IsFree, IsBehind, Gathers, workers_of};

use crate::seats::{Board, BoardSeat, SharedTable, TableSeat, Worker, sum_of};
use crate::signals::Signals;
use crate::views::{Key, OneShare};
use atomic_table::{Refused, Table};
use net_case::Case;
use net_core::Body;
use std::alloc::{AllocFailed, Global};
use std::snapshot::Snapshot;

/// Memory ran out for a board. The case comes back.
#[derive(Drop)]
pub struct BoardFault<B: Body> {
    pub case: Case<B>,
}

// Joins the seats of a crew into one.
fn gather<B: Body + Drop>(shared: &SharedTable<B>, mut crew: Vec<Worker<B>>) -> TableSeat<B>
    requires table { (shared.now.table_id.words ≡ 1) × (0 < length crew.items) }
    requires free { All (IsFree shared.now.table_id shared.now.key.origin.value) crew.items }
    ensures seat { Gathers shared.now.table_id shared.now.key.origin.value result (length crew.items) }
    ensures ahead { All (IsBehind result.me.0.seen) crew.items }
{
    let first = crew.pop().unwrap();
    let Worker {
        seat,
        short: _,
        small: _,
    } = first;
    let BoardSeat { seat: mut kept } = seat;
    while let Some(worker) = crew.pop() {
        join(shared, &mut kept, worker);
    }
    kept
}

// Joins a worker's seat to the kept one.
fn join<B: Body + Drop>(shared: &SharedTable<B>, kept: &mut TableSeat<B>, worker: Worker<B>)
    requires table { shared.now.table_id.words ≡ 1 }
    requires kept { Gathers shared.now.table_id shared.now.key.origin.value kept.old kept.old.me.0.shares × (0 < kept.old.me.0.shares) }
    requires free { IsFree shared.now.table_id shared.now.key.origin.value worker }
    ensures seat { Gathers shared.now.table_id shared.now.key.origin.value kept.new (kept.old.me.0.shares + 1) }
    ensures ahead { IsBehind kept.new.me.0.seen worker }
    ensures further { (i : ℕ) → slice_index kept.old.me.0.seen i ≤ slice_index kept.new.me.0.seen i }
{
    let Worker {
        seat,
        short: _,
        small: _,
    } = worker;
    let BoardSeat { seat } = seat;
    shared.join_seat::<OneShare>(kept, seat);
}

// Cuts a share off for one worker.
fn split<B: Body + Drop>(shared: &SharedTable<B>, seat: &mut TableSeat<B>) -> Worker<B>
    requires table { shared.now.table_id.words ≡ 1 }
    requires seat { Gathers shared.now.table_id shared.now.key.origin.value seat.old seat.old.me.0.shares × (1 < seat.old.me.0.shares) }
    ensures seat { Gathers shared.now.table_id shared.now.key.origin.value seat.new (seat.old.me.0.shares - 1) }
    ensures free { IsFree shared.now.table_id shared.now.key.origin.value result × (result.short ≡ false) × (result.small ≡ false) }
{
    let seat = shared.split_seat::<OneShare>(seat);
    Worker {
        seat: BoardSeat { seat },
        short: false,
        small: false,
    }
}

// Cuts a seat into those of the workers.
fn deal<B: Body + Drop>(
    shared: &SharedTable<B>,
    seat: TableSeat<B>,
    workers: u32,
    crew: &mut Vec<Worker<B>>,
)
    requires table { shared.now.table_id.words ≡ 1 }
    requires seat { Gathers shared.now.table_id shared.now.key.origin.value seat workers × (0 < workers) }
    requires room { (crew.old.items ≡ []) × (workers ≤ vec_capacity crew.old) }
    ensures len { length crew.new.items ≡ workers }
    ensures free { All (λ w. IsFree shared.now.table_id shared.now.key.origin.value w × (w.short ≡ false) × (w.small ≡ false)) crew.new.items }
{
    let mut seat = seat;
    let mut left = workers;
    while left > 1 {
        let worker = split(shared, &mut seat);
        crew.push_reserved(worker);
        left -= 1;
    }
    crew.push_reserved(Worker {
        seat: BoardSeat { seat },
        short: false,
        small: false,
    });
}

// Puts a case into a list of one slot. Returns the case if memory runs out.
fn lone_slot<B: Body + Drop>(alloc: Global, case: Case<B>) -> Result<Vec<Option<Case<B>>>, Case<B>>
    ensures ok { IfOk result (λ v. v.items ≡ Some case ∷ []) }
    ensures err { IfErr result (λ c. c ≡ case) }
{
    let mut slots = Vec::new(alloc);
    match slots.push(Some(case)) {
        Ok(()) => Ok(slots),
        Err(AllocFailed { value }) => Err(value.unwrap()),
    }
}

impl<B: Body + Drop> Board<B> {
    /// Makes a board for a case of which no instance is out, and `workers` workers, each with a seat of its own. Returns the case
    /// if memory runs out.
    pub fn new(
        alloc: Global,
        case: Case<B>,
        workers: u32,
    ) -> Result<(Board<B>, Vec<Worker<B>>), BoardFault<B>>
        requires workers { (0 < workers) × (workers ≤ 64) }
        requires case { AreAllHome case }
        ensures made { IfOk result (λ p. (origin p.0 ≡ case) × (workers_of p.0 ≡ workers) × (length p.1.items ≡ workers)) }
        ensures crew { IfOk result (λ p. All (λ w. IsSeatOf p.0 w.seat × HasNothing (view w.seat) × (w.short ≡ false) × (w.small ≡ false)) p.1.items) }
        ensures fault { IfErr result (λ f. f.case ≡ case) }
    {
        let Ok(mut crew) = Vec::with_capacity(alloc, workers as usize) else {
            return Err(BoardFault { case });
        };
        case.valid();
        let begun = sum_of(case.counts());
        let key = Key {
            origin: Snapshot::of(&case),
            workers: workers as u64,
        };
        let slots = match lone_slot(alloc, case) {
            Ok(slots) => slots,
            Err(case) => return Err(BoardFault { case }),
        };
        match Table::new(alloc, &[0], slots, &key) {
            Ok((table, seat)) => {
                deal(&table.shared, seat, workers, &mut crew);
                let board = Board {
                    table,
                    signals: Signals::new(),
                    begun,
                };
                Ok((board, crew))
            }
            Err(Refused { mut slots }) => Err(BoardFault {
                case: slots.pop().unwrap().unwrap(),
            }),
        }
    }

    /// Gathers the crew, and returns the case. No instance of it is out, and it has gone on at least as far as each seat saw.
    pub fn close(self, crew: Vec<Worker<B>>) -> Case<B>
        requires count { length crew.items ≡ workers_of self }
        requires crew { All (λ w. IsSeatOf self w.seat × HasNothing (view w.seat)) crew.items }
        ensures case { IsOf (origin self) result × AreAllHome result }
        ensures ahead { All (IsBehind result.counts) crew.items }
    {
        let Board {
            table,
            signals: _,
            begun: _,
        } = self;
        let seat = gather(&table.shared, crew);
        let mut closed = table.close_with(seat);
        let case = closed.take(0).unwrap();
        closed.free();
        case
    }
}
