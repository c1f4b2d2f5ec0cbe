// The board, its seats and its workers.
ghost use Rattle.std.specs.Prelude.{◌≡◌, ◌<◌};
ghost use Rattle.coro_threads.specs.Ticks.{capped_sum};
ghost use Rattle.coro_threads.specs.Turn.{hand_of};

use crate::signals::Signals;
use crate::views::{Key, Turn, View};
use atomic_table::{Seat, Shared, Table};
use net_case::Case;
use net_core::Body;
use std::alloc::Global;

/// A seat of the board's table.
pub type TableSeat<B> = Seat<Option<Case<B>>, View>;

/// The table as the workers share it.
pub type SharedTable<B> = Shared<Option<Case<B>>, View, Key<B>, Turn>;

/// A case that free-running workers share by turns.
pub struct Board<B: Body> {
    pub(crate) table: Table<Option<Case<B>>, View, Key<B>, Turn, Global>,
    pub(crate) signals: Signals,
    pub(crate) begun: u64,
    ghost shape: { (table.shared.table_id.words ≡ 1) × (table.shared.table_id.slots ≡ 1) },
    ghost crewed: { 0 < table.shared.key.workers },
    ghost begins: { begun ≡ capped_sum table.shared.key.origin.value.counts },
}

/// One worker's seat at a board. It counts for one worker, and has the slot while it holds the turn.
#[derive(Drop)]
pub struct BoardSeat<B: Body> {
    pub(crate) seat: TableSeat<B>,
    ghost share: { seat.me.0.shares ≡ 1 },
    ghost hand: { seat.me.1 ≡ hand_of seat.me.0.turn },
}

/// A worker of a crew. A worker that leaves before the end says why by one of two marks.
#[derive(Drop)]
pub struct Worker<B: Body> {
    pub seat: BoardSeat<B>,
    /// There was no memory for a batch.
    pub short: bool,
    /// Batches stayed small, so that one thread does better. The worker has seen that many ticks were made since the board was made.
    pub small: bool,
}

// Returns the sum of the counts, or the greatest `u64` if the sum is larger.
pub(crate) fn sum_of(counts: &[u64]) -> u64
    ensures { result ≡ capped_sum counts.now }
{
    let mut sum: u64 = 0;
    for count in counts {
        sum = sum.saturating_add(*count);
    }
    sum
}
