// The turn is taken, with the case, and given back.
ghost use Rattle.std.specs.Prelude.{◌≡◌, ◌<◌, [], ◌∷◌, true, false, None, MatchOption};
ghost use Rattle.net_case.specs.State.{IsValidCase};
ghost use Rattle.coro_threads.specs.Turn.{taken, given, Finds, MayGive};
ghost use Rattle.coro_threads.specs.Seats.{IsSeatOf, view};

use crate::seats::{Board, BoardSeat, SharedTable, TableSeat};
use crate::views::{Give, Take};
use net_case::Case;
use net_core::Body;
use std::sync::Wait;
use std::sync::atomic::{AtomicU64, Ordering};

// Takes the turn where it is free, with the case out of the slot.
fn seize<B: Body + Drop>(shared: &SharedTable<B>, seat: &mut TableSeat<B>) -> Option<Case<B>>
    requires table { (seat.old.table_id ≡ shared.now.table_id) × (shared.now.table_id.words ≡ 1) × (shared.now.table_id.slots ≡ 1) }
    requires ready { (seat.old.me.1 ≡ []) × (seat.old.me.0.turn ≡ false) × (0 < seat.old.me.0.shares) }
    ensures same { (seat.new.table_id ≡ seat.old.table_id) × (seat.new.id ≡ seat.old.id) }
    ensures seized { MatchOption result (seat.new.me ≡ seat.old.me) (λ case. Finds seat.old.me.0 case × (seat.new.me ≡ (taken seat.old.me.0 case, (0, None) ∷ []))) }
{
    if shared.compare_exchange::<Take>(seat, 0, 0, 1) == 0 {
        return Some(shared.exchange(seat, 0, None).unwrap());
    }
    None
}

// Waits for the turn, and takes the case out of the slot.
fn take_case<R: Wait, B: Body + Drop>(
    rt: &R,
    shared: &SharedTable<B>,
    sleepers: &AtomicU64,
    seat: &mut TableSeat<B>,
) -> Case<B>
    requires table { (seat.old.table_id ≡ shared.now.table_id) × (shared.now.table_id.words ≡ 1) × (shared.now.table_id.slots ≡ 1) }
    requires ready { (seat.old.me.1 ≡ []) × (seat.old.me.0.turn ≡ false) × (0 < seat.old.me.0.shares) }
    ensures same { (seat.new.table_id ≡ seat.old.table_id) × (seat.new.id ≡ seat.old.id) }
    ensures finds { Finds seat.old.me.0 result }
    ensures view { seat.new.me ≡ (taken seat.old.me.0 result, (0, None) ∷ []) }
{
    for _ in rt.forever() {
        if let Some(case) = seize(shared, seat) {
            return case;
        }
        let _ = sleepers.fetch_add(1, Ordering::SeqCst);
        shared.park(rt, 0, 1);
        let _ = sleepers.fetch_sub(1, Ordering::SeqCst);
    }
    unreachable!()
}

// Wakes a worker that sleeps until the turn is free, if one does.
fn wake_sleeper<B: Body>(shared: &SharedTable<B>, sleepers: &AtomicU64)
    requires { shared.now.table_id.words ≡ 1 }
{
    if sleepers.load(Ordering::SeqCst) > 0 {
        shared.wake_one(0);
    }
}

// Puts the case into the slot, and frees the turn by one store.
fn give_case<B: Body + Drop>(
    shared: &SharedTable<B>,
    sleepers: &AtomicU64,
    seat: &mut TableSeat<B>,
    case: Case<B>,
)
    requires table { (seat.old.table_id ≡ shared.now.table_id) × (shared.now.table_id.words ≡ 1) × (shared.now.table_id.slots ≡ 1) }
    requires ready { (seat.old.me.1 ≡ (0, None) ∷ []) × (seat.old.me.0.turn ≡ true) × (0 < seat.old.me.0.shares) }
    requires case { MayGive seat.old.me.0 case × IsValidCase case }
    ensures same { (seat.new.table_id ≡ seat.old.table_id) × (seat.new.id ≡ seat.old.id) }
    ensures view { seat.new.me ≡ (given seat.old.me.0 case, []) }
{
    shared.exchange(seat, 0, Some(case));
    shared.store::<Give>(seat, 0, 0);
    wake_sleeper(shared, sleepers);
}

impl<B: Body + Drop> Board<B> {
    /// Waits for the turn, and returns the case. If the seat has a batch, the batch's instance is out in that case, at the count
    /// that the seat saw last, so that its commit is not stale.
    pub fn take<R: Wait>(&self, rt: &R, seat: &mut BoardSeat<B>) -> Case<B>
        requires { IsSeatOf self.now seat.old × ((view seat.old).turn ≡ false) }
        ensures same { IsSeatOf self.now seat.new }
        ensures finds { Finds (view seat.old) result }
        ensures view { view seat.new ≡ taken (view seat.old) result }
    {
        take_case(
            rt,
            &self.table.shared,
            &self.signals.sleepers,
            &mut seat.seat,
        )
    }

    /// Returns the case as `take` does, if the turn is free. Otherwise nothing changes.
    pub fn try_take(&self, seat: &mut BoardSeat<B>) -> Option<Case<B>>
        requires { IsSeatOf self.now seat.old × ((view seat.old).turn ≡ false) }
        ensures same { IsSeatOf self.now seat.new }
        ensures taken { MatchOption result (view seat.new ≡ view seat.old) (λ case. Finds (view seat.old) case × (view seat.new ≡ taken (view seat.old) case)) }
    {
        seize(&self.table.shared, &mut seat.seat)
    }

    /// Gives the case back, and the turn with it. Since the seat's `take` the case has at most gone on, and at most one
    /// instance went out, or the seat's own came back.
    pub fn give(&self, seat: &mut BoardSeat<B>, case: Case<B>)
        requires { IsSeatOf self.now seat.old × ((view seat.old).turn ≡ true) × MayGive (view seat.old) case }
        ensures same { IsSeatOf self.now seat.new }
        ensures view { view seat.new ≡ given (view seat.old) case }
    {
        case.valid();
        give_case(
            &self.table.shared,
            &self.signals.sleepers,
            &mut seat.seat,
            case,
        )
    }
}
