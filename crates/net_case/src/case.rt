// A network without the instances that are out.
ghost use Rattle.std.specs.Prelude.{◌≡◌, ◌+◌, ◌<◌, MatchOption};
ghost use Rattle.kahn_model.specs.Outcome.{joined_ticks};
ghost use Rattle.net_case.specs.State.{network, count, IsValidCase};

use crate::batch::Process;
use crate::claim::some_out;
use crate::pace::Pace;
use crate::queue::Queue;
use net_core::{Body, Input, Pause, Ports};
use std::marker::Model;
use std::sync::Arc;
use tapa_syntax::Program;

/// A network without the instances that are out, driven within a budget of ticks.
#[derive(Drop)]
pub struct Case<B: Body> {
    pub program: Arc<Program>,
    pub input: Arc<Input>,
    pub budget: u64,
    /// The instances that are at home.
    pub homes: Vec<Option<Process<B>>>,
    /// For each stream the tokens that were written and not taken.
    pub queues: Vec<Queue>,
    /// For each stream how many tokens were taken, and how many its reader's port was given.
    pub taken: Vec<usize>,
    pub offered: Vec<usize>,
    pub counts: Vec<u64>,
    pub pauses: Vec<Option<Pause>>,
    /// The instances that are known to be able to continue, and the place where the search for the next one begins.
    pub listed: Vec<bool>,
    pub cursor: usize,
    /// The ticks of the instances that are waited for.
    pub joined: u64,
    /// By how large batches it goes on.
    pub pace: Pace,
    /// What the network needs again when it is put together.
    pub writers: Vec<usize>,
    pub fed_by_self: Vec<bool>,
    pub bodies: Vec<B>,
    pub ports: Vec<Ports>,
}

impl<B: Body> Model for Case<B> {
    ghost use Rattle.std.specs.Prelude.{length, vec_capacity};
    ghost use Rattle.std.specs.Arc.{arc_value};
    ghost use Rattle.net_case.specs.declared.case_state.CaseState.{CaseState};
    ghost use Rattle.net_case.specs.Home.{IsCaseAt, IsReadyFor, outs};
    ghost use Rattle.std.specs.Coded.{codes};
    ghost use Rattle.tapa_syntax.specs.contracts.program.Stmt as stmt;
    ghost use Rattle.tapa_syntax.specs.contracts.program.Expr as expr;

    ghost Value = { CaseState };

    ghost coded = { Prim.hlevel (codes, stmt.the_row.coded, expr.the_row.coded) };

    ghost view = { λ c. record { program = arc_value c.program; input = arc_value c.input; budget = c.budget; counts = c.counts.items; out = outs c.homes.items; pauses = c.pauses.items } };

    ghost invariant = { λ c. IsCaseAt B.stands (arc_value c.program) (arc_value c.input) c.budget c.homes.items c.queues.items c.taken.items c.offered.items
        c.counts.items c.pauses.items c.listed.items c.joined c.writers.items c.fed_by_self.items
        × IsReadyFor (arc_value c.program) (length c.bodies.items) (length c.ports.items) (vec_capacity c.bodies) (vec_capacity c.ports) };
}

impl<B: Body> Case<B> {
    /// What is true of every case, for proofs: it is at a reachable count of its program's network, at which no instance has
    /// made more ticks than the budget. It does nothing.
    pub fn valid(&self)
        ensures { IsValidCase self.now }
    {
        let _counts = &self.counts;
    }

    /// The ticks that each instance has made, as far as they are committed.
    pub fn counts(&self) -> &[u64]
        ensures { result.now ≡ self.now.counts }
    {
        self.counts.as_slice()
    }

    /// Whether batches were small for some time and none is out, so that one thread does better. It only says what to expect.
    pub fn is_slow(&mut self) -> bool
        ensures { self.new ≡ self.old }
    {
        self.pace.is_slow() && !some_out(&self.homes)
    }

    /// How many ticks of the budget the instances that are waited for may still make, where they have not made more.
    pub fn left(&self) -> Option<u64>
        ensures { MatchOption result (self.now.budget < joined_ticks (network self.now) (count self.now)) (λ left. joined_ticks (network self.now) (count self.now) + left ≡ self.now.budget) }
    {
        self.budget.checked_sub(self.joined)
    }
}
