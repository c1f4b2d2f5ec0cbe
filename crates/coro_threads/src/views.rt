// What the table reports, what a seat knows, and the steps between.
use atomic_table::{Join, Play, Split, TableRule};
use net_case::{Case, CaseState};
use net_core::Body;
use std::snapshot::Snapshot;

/// The case and the number of workers with which a board was made.
#[derive(Drop)]
pub struct Key<B: Body> {
    pub origin: Snapshot<Case<B>>,
    pub workers: u64,
}

/// A seat as contracts see it. No value of this type is made. A clause reads an array as a list of any length.
pub struct View {
    /// The case with which the board was made. A seat that was joined to another one has none.
    pub origin: Option<CaseState>,
    /// The ticks of each instance when the case was last seen.
    pub seen: [u64; 0],
    /// True if the seat holds the turn.
    pub turn: bool,
    /// The instances that were out when the turn was taken.
    pub out: [bool; 0],
    /// The instance of the seat's batch.
    pub batch: Option<u64>,
    /// The number of workers that the seat counts for.
    pub shares: u64,
}

/// The rule of the board.
pub struct Turn;

impl<B: Body> TableRule<Option<Case<B>>, View, Key<B>> for Turn {
    ghost use Rattle.coro_threads.specs.Turn.{Kept, starting};

    ghost holds = { λ key. Kept key.origin.value key.workers };

    ghost first = { λ key. starting key.origin.value key.workers };
}

/// The turn is taken where it is free.
pub struct Take;

impl<B: Body> Play<Option<Case<B>>, View> for Take {
    ghost use Rattle.coro_threads.specs.Turn.{took};

    ghost then = { took };
}

/// The turn is given back.
pub struct Give;

impl<B: Body> Play<Option<Case<B>>, View> for Give {
    ghost use Rattle.coro_threads.specs.Turn.{gave};

    ghost then = { gave };
}

/// A seat for one worker is cut off from a seat, or put to it again.
pub struct OneShare;

impl Split<View> for OneShare {
    ghost use Rattle.coro_threads.specs.Turn.{kept_part, new_part};

    ghost left = { kept_part };

    ghost right = { new_part };
}

impl Join<View> for OneShare {
    ghost use Rattle.coro_threads.specs.Turn.{joined, nobody};

    ghost both = { joined };

    ghost spent = { nobody };
}
