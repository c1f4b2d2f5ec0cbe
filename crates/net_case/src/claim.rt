// What a claim finds.
ghost use Rattle.std.specs.Prelude.{ℕ, ◌≡◌, true, false, length, slice_index_or, MatchBool, nat_lt, if◌then◌else◌};
ghost use Rattle.kahn_model.specs.Outcome.{HaveJoinedEnded, HasJoinedLeft};
ghost use Rattle.net_core.specs.declared.outcome.Outcome.TheVariants.{Done, Stopped, Limit};
ghost use Rattle.net_core.specs.Settle.{AreJoinedTold, IsSettled};
ghost use Rattle.net_case.specs.Home.{outs};
ghost use Rattle.net_case.specs.Over.{ClaimAnswers};
ghost use Rattle.net_case.specs.State.{network, count, net_of, AreAllHome};
ghost use Rattle.net_case.specs.Claims.{Claims, IsFinished};

use crate::batch::{Batch, Process};
use crate::case::Case;
use net_core::{Body, Outcome, goes_on, have_joined_ended};

/// What a claim finds: a batch; nothing that may step while some instance is out; or the end.
#[derive(Drop)]
pub enum Claimed<B: Body> {
    Work(Batch<B>),
    Wait,
    Over(Outcome),
}

/// Whether some instance is out.
pub fn some_out<B: Body>(homes: &Vec<Option<Process<B>>>) -> bool
    ensures { MatchBool result ((i : ℕ) × (slice_index_or (outs homes.now.items) i false ≡ true)) ((i : ℕ) → slice_index_or (outs homes.now.items) i false ≡ false) }
{
    for j in 0..homes.len() {
        if homes[j].is_none() {
            return true;
        }
    }
    false
}

// The outcome, by what is known at the end: the ticks of the instances that are waited for, and whether all of these have ended, and whether
// some instance may go on.
fn ending(ticks: u64, budget: u64, done: bool, on: bool) -> Outcome
    ensures { result ≡ (if nat_lt budget ticks then Limit else (if done then Done ticks else (if on then Limit else Stopped ticks))) }
{
    if budget < ticks {
        return Outcome::Limit;
    }
    if done {
        return Outcome::Done { ticks };
    }
    if on {
        return Outcome::Limit;
    }
    Outcome::Stopped { ticks }
}

impl<B: Body + Drop> Case<B> {
    // Whether every instance that is waited for has ended.
    fn is_done(&self) -> bool
        ensures ended { MatchBool result (HaveJoinedEnded (network self.now) (count self.now)) (HasJoinedLeft (network self.now) (count self.now)) }
        ensures told { result ≡ true → AreJoinedTold (net_of self.now) }
    {
        have_joined_ended(&self.program, &self.pauses)
    }

    // How the case ends where nothing is left to do.
    fn outcome(&self) -> Outcome
        requires home { AreAllHome self.now }
        requires finished { IsFinished self.now }
        ensures answer { ClaimAnswers (network self.now) self.now.budget (count self.now) result }
        ensures settled { IsSettled (net_of self.now) result }
    {
        let done = self.is_done();
        let on = goes_on(&self.pauses);
        ending(self.joined, self.budget, done, on)
    }

    // What is answered where no instance at home is to go out.
    fn idle(&self) -> Claimed<B>
        requires { IsFinished self.now }
        ensures { Claims self.now result self.now }
    {
        if some_out(&self.homes) {
            Claimed::Wait
        } else {
            Claimed::Over(self.outcome())
        }
    }

    /// Hands out an instance that is at home and may step: its next tick is allowed, and something of the budget is left to it,
    /// to those that are waited for of all their ticks together, to a detached one of its own. `Wait` comes exactly where some
    /// instance is out, and no instance at home may step or every one that is waited for has ended. `Over` comes exactly where none is out,
    /// and none may step or every one that is waited for has ended; its outcome is that of the network within the budget, whatever was
    /// committed before and in whatever order. It takes no memory.
    pub fn claim(&mut self) -> Claimed<B>
        ensures { Claims self.old result self.new }
    {
        if self.is_done() {
            return self.idle();
        }
        match self.find() {
            Some(batch) => Claimed::Work(batch),
            None => self.idle(),
        }
    }
}
