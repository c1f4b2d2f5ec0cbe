// The search for an instance that may step.
ghost use Rattle.std.specs.Prelude.{ℕ, ◌≡◌, ◌<◌, ◌≤◌, ◌-◌, length, MatchOption, if◌then◌else◌};
ghost use Rattle.net_core.specs.declared.body.Pause.TheVariants.{Fuel};
ghost use Rattle.net_core.specs.Bindings.{detached_at};
ghost use Rattle.net_case.specs.State.{IsAtHome};
ghost use Rattle.net_case.specs.Claims.{HandsOut, IsSameCase, Rests, RestsIn, KeepsRest};

use crate::batch::Batch;
use crate::case::Case;
use crate::look::look;
use net_core::{Body, Pause, is_detached};
use std::snapshot::Snapshot;
use tapa_syntax::Program;

// The most ticks of a batch: some two milliseconds.
const SLICE: u64 = 262_144;

// How many ticks of the budget an instance may still make: one that is waited for shares those of all that are waited for.
fn left_to(program: &Program, i: usize, budget: u64, made: u64, joined: u64) -> u64
    requires { i < length program.now.instances.items }
    ensures { result ≡ (if detached_at program.now i then budget - made else budget - joined) }
{
    if is_detached(program, i) {
        budget.saturating_sub(made)
    } else {
        budget.saturating_sub(joined)
    }
}

// What is kept of a look: where the instance may step, that it may.
fn seen(may: bool, pause: Pause) -> Pause
    ensures { result ≡ (if may then Fuel else pause) }
{
    if may { Pause::Fuel } else { pause }
}

impl<B: Body + Drop> Case<B> {
    // An instance that is at home goes out with a batch, where it may step. Else it stays, and is not listed any more.
    fn try_claim(&mut self, i: usize) -> Option<Batch<B>>
        requires { i < length self.old.counts }
        ensures { MatchOption result (IsSameCase self.old self.new × KeepsRest self.old self.new × (IsAtHome self.new i → Rests self.new i)) (λ b. HandsOut self.old b self.new) }
    {
        let Some(mut process) = self.homes[i].take() else {
            return None;
        };
        let program: &Program = &self.program;
        let (may, pause) = look(
            program,
            &self.queues,
            &self.taken,
            &mut self.offered,
            &mut process,
            i,
        );
        let from = self.counts[i];
        let left = left_to(program, i, self.budget, from, self.joined);
        self.listed[i] = false;
        if may && left > 0 {
            return Some(Batch {
                program: Snapshot::of(&*self.program),
                input: Snapshot::of(&*self.input),
                at: Snapshot::of(&self.counts),
                budget: self.budget,
                instance: i,
                process,
                from,
                fuel: left.min(SLICE),
                made: 0,
                pause: None,
                ready: false,
            });
        }
        self.pauses[i] = Some(seen(may, pause));
        self.homes[i] = Some(process);
        None
    }

    // The first of these instances that is listed and may step goes out.
    fn search(&mut self, from: usize, to: usize) -> Option<Batch<B>>
        requires { to ≤ length self.old.counts }
        ensures { MatchOption result (IsSameCase self.old self.new × KeepsRest self.old self.new × RestsIn self.new from to) (λ b. HandsOut self.old b self.new) }
    {
        for i in from..to {
            if self.listed[i] {
                if let Some(batch) = self.try_claim(i) {
                    self.cursor = i + 1;
                    return Some(batch);
                }
            }
        }
        None
    }

    /// The next instance that may step goes out. Where there is none, each instance at home is at rest.
    pub fn find(&mut self) -> Option<Batch<B>>
        ensures { MatchOption result (IsSameCase self.old self.new × ((i : ℕ) → IsAtHome self.new i → i < length self.new.counts → Rests self.new i)) (λ b. HandsOut self.old b self.new) }
    {
        let n = self.homes.len();
        let from = self.cursor.min(n);
        match self.search(from, n) {
            Some(batch) => Some(batch),
            None => self.search(0, from),
        }
    }
}
