//! Plans, the modes in which they are searched, and the reasons why there is none.
ghost use Rattle.std.specs.Prelude.{◌≡◌};
ghost use Rattle.slot_plan.specs.declared.floorplan.PlanFault.TheVariants as plan_fault;

use std::alloc::AllocError;
use task_graph::Use;

/// The mode in which a plan is searched.
#[derive(Clone, Copy)]
pub enum Mode {
    /// The least of all plans; of several that cost the same, the one whose list of slots is first in order.
    Exact,
    /// Pinned groups in order, then free groups in order, each in the first slot that has room for it.
    Fit,
}

/// A slot for each group, by its number row by row; what the groups of each slot use; and the cost: over all streams, the
/// width times the distance in rows and in columns.
#[derive(Drop)]
pub struct Plan {
    pub slot: Vec<u32>,
    pub used: Vec<Use>,
    pub cost: u64,
}

/// The reason why there is no plan.
#[derive(Clone, Copy)]
pub enum PlanFault {
    /// No plan is within capacity and keeps the pins; in mode fit, `group` finds no slot.
    NoFit { group: Option<u32> },
    /// Mode exact: `slots` that are not forbidden to the power of `free` groups is above 4,194,304.
    TooMany { slots: u32, free: u32 },
    /// Memory ran out.
    OutOfMemory,
}

impl From<AllocError> for PlanFault {
    ghost from_gives = { λ _ fault. fault ≡ plan_fault.OutOfMemory };

    fn from(_: AllocError) -> Self {
        PlanFault::OutOfMemory
    }
}
