// Batches go out of a case and come back.
ghost use Rattle.std.specs.Prelude.{ℕ, ◌≡◌, ◌<◌, ◌≤◌, ◌+◌, [], length, slice_get, Some, vec_capacity, vec_len, MatchOption};
ghost use Rattle.net_case.specs.declared.lot.Lot.{Lot};
ghost use Rattle.net_case.specs.State.{AreAllHome};
ghost use Rattle.coro_threads.specs.Out.{IsSameRun, AreOut, ahead, HasEndedAs};

use net_case::{Batch, Case, Claimed};
use net_core::{Body, Outcome};

// Claims a batch of each other instance that may step, after the first one.
fn claim_others<B: Body + Drop>(case: &mut Case<B>, batches: &mut Vec<Batch<B>>)
    requires out { AreOut case.old batches.old.items }
    requires some { 0 < length batches.old.items }
    requires room { length case.old.counts ≤ vec_capacity batches.old }
    ensures run { IsSameRun case.old case.new }
    ensures counts { case.new.counts ≡ case.old.counts }
    ensures out { AreOut case.new batches.new.items }
    ensures some { 0 < length batches.new.items }
    ensures room { vec_capacity batches.new ≡ vec_capacity batches.old }
{
    'others: while batches.len() < case.counts().len() {
        case.valid();
        match case.claim() {
            Claimed::Work(batch) => batches.push_reserved(batch),
            Claimed::Wait => return,
            Claimed::Over(_outcome) => return,
        }
    }
}

/// Claims a batch of each instance that may step. Returns how the case ends if no instance may step and none is out. There is room
/// for a batch of each instance.
pub(crate) fn claim_all<B: Body + Drop>(
    case: &mut Case<B>,
    batches: &mut Vec<Batch<B>>,
) -> Option<Outcome>
    requires home { AreAllHome case.old }
    requires none { batches.old.items ≡ [] }
    requires room { length case.old.counts ≤ vec_capacity batches.old }
    ensures run { IsSameRun case.old case.new }
    ensures counts { case.new.counts ≡ case.old.counts }
    ensures out { AreOut case.new batches.new.items }
    ensures room { vec_capacity batches.new ≡ vec_capacity batches.old }
    ensures found { MatchOption result (0 < length batches.new.items) (λ outcome. AreAllHome case.new × (batches.new.items ≡ []) × HasEndedAs case.new outcome) }
{
    case.valid();
    match case.claim() {
        Claimed::Work(batch) => batches.push_reserved(batch),
        Claimed::Wait => unreachable!(),
        Claimed::Over(outcome) => return Some(outcome),
    }
    claim_others(case, batches);
    None
}

/// Commits all batches, the last one first.
pub(crate) fn commit_all<B: Body + Drop>(case: &mut Case<B>, batches: &mut Vec<Batch<B>>)
    requires { AreOut case.old batches.old.items }
    ensures run { IsSameRun case.old case.new }
    ensures len { length case.new.counts ≡ length case.old.counts }
    ensures home { AreAllHome case.new }
    ensures none { batches.new.items ≡ [] }
    ensures room { vec_capacity batches.new ≡ vec_capacity batches.old }
    ensures less { ahead case.new ≤ ahead case.old }
    ensures progress { (n : ℕ) (b : Lot) → slice_get batches.old.items n ≡ Some b → 0 < b.made → ahead case.new < ahead case.old }
{
    'back: while let Some(batch) = batches.pop() {
        match case.commit(batch) {
            Ok(()) => {}
            Err(_stale) => unreachable!(),
        }
        case.valid();
    }
}
