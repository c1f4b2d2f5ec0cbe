// A design in one of its cycles.

ghost use Rattle.std.specs.Prelude.{◌≡◌, ◌+◌, ◌<◌, ◌≤◌, ◌^◌, ◌↔◌, ℕ, [], Some, slice_get, slice_index_or, length, IfOk, OnOk, OnErr, IsTrue};
ghost use Rattle.tapa_base.specs.declared.shape.Port.{Port as PortTree};
ghost use Rattle.vlog_tree.specs.declared.table.Declaration.{Declaration as DeclarationTree};
ghost use Rattle.vlog_tree.specs.Form.{ModuleTree};
ghost use Rattle.vlog_tree.specs.Environment.{RaisesDone, streams_of, tokens};
ghost use Rattle.vlog_design.specs.Designs.{TopOf};
ghost use Rattle.vlog_design.specs.Environments.{environment_of, lists_of};
ghost use Rattle.cycle_sim.specs.ShownNets.{shown_nets};
ghost use Rattle.cycle_sim.specs.Simulators.{sim_of};
ghost use Rattle.cycle_sim.specs.Sims.{InRuns, IsNewSim, IsNext, IsLater, IsCarried, IsDoneAt, last_cycle, IsAdded, AreTokensAdded};

use crate::begin::{first_state, parts_of};
use crate::parts::{advance, carried, cells_in, is_done, shown_value};
use crate::simulator::Sim;
use std::alloc::{AllocError, Global};
use tapa_base::Token;
use vlog_design::{Design, Env};

impl Sim {
    /// Starts a design in cycle 0, in an environment. Every register and every cell holds `fill` modulo 2 to the power of its width.
    pub fn new(alloc: Global, design: Design, around: &Env, fill: u64) -> Result<Sim, AllocError>
        ensures { IfOk result (λ sim. IsNewSim design (environment_of around.now) fill (sim_of sim)) }
    {
        let parts = parts_of(alloc, design, around)?;
        let state = first_state(alloc, &parts, &around.memories, fill)?;
        Ok(Sim { parts, state })
    }

    /// Goes to the next cycle.
    pub fn step(&mut self)
        requires { (sim_of self.old).told.cycle + 1 < 2 ^ 64 }
        ensures { IsNext (sim_of self.old) (sim_of self.new) }
    {
        advance(&self.parts, &mut self.state);
    }

    /// Returns the number of the cycle.
    pub fn cycle(&self) -> u64
        ensures { result ≡ (sim_of self.now).told.cycle }
    {
        self.state.cycle
    }

    /// Checks whether the design is done in this cycle.
    pub fn done(&self) -> bool
        ensures { InRuns (sim_of self.now) (λ m env nets. IsTrue result ↔ RaisesDone (λ n. nets n []) (sim_of self.now).told.cycle) }
    {
        is_done(&self.parts, &self.state)
    }

    /// Returns the token that a stream carries in this cycle, by the stream's index. In cycle 0 a stream carries none.
    pub fn token(&self, stream: u32) -> Option<Token>
        ensures { IsCarried (sim_of self.now) stream result }
    {
        carried(&self.parts, &self.state, stream as usize)
    }

    /// Returns the cells of a memory around the design in this cycle, before its store, by the memory's index in the shape.
    pub fn memory(&self, m: u32) -> &[u64]
        ensures { result.now ≡ (sim_of self.now).told.outside m }
    {
        cells_in(&self.state, m as usize)
    }

    /// Returns the value in this cycle of a net of the top, by its index among the ports except the clock, and then the wires and
    /// the registers, in the order of the text (IEEE 1364-2005, two-valued). Returns 0 past the last.
    pub fn value(&self, net: usize) -> u128
        ensures told { (m : ModuleTree) (d : DeclarationTree) → TopOf (sim_of self.now).design m → slice_get (shown_nets m) net ≡ Some d → result ≡ (sim_of self.now).told.number [] d.name }
        ensures fits { InRuns (sim_of self.now) (λ m env nets. (d : DeclarationTree) → slice_get (shown_nets m) net ≡ Some d → result < 2 ^ d.bits) }
    {
        shown_value(&self.parts, &self.state, net)
    }

    /// Returns the design that the simulator was made with.
    pub fn design(&self) -> &Design
        ensures { result.now ≡ (sim_of self.now).design }
    {
        &self.parts.design
    }

    /// Returns the number of streams that the design has.
    pub fn streams(&self) -> usize
        ensures { (m : ModuleTree) → TopOf (sim_of self.now).design m → result ≡ length (streams_of m) }
    {
        self.parts.around.streams.len()
    }
}

/// The tokens that the streams carried, by the streams' indices, and the cycle in which the design was done.
#[derive(Drop)]
pub struct Carried {
    pub tokens: Vec<Vec<Token>>,
    pub done_at: Option<u64>,
}

fn add_token(sim: &Sim, place: usize, tokens: &mut Vec<Token>) -> Result<(), AllocError>
    ensures { OnOk result (IsAdded (sim_of sim.now) place tokens.old.items tokens.new.items) }
{
    if let Some(token) = carried(&sim.parts, &sim.state, place) {
        tokens.push(token)?;
    }
    Ok(())
}

fn add_tokens(sim: &Sim, tokens: &mut [Vec<Token>]) -> Result<(), AllocError>
    ensures { OnOk result (AreTokensAdded (sim_of sim.now) (lists_of tokens.old) (lists_of tokens.new)) }
{
    for i in 0..tokens.len() {
        add_token(sim, i, &mut tokens[i])?;
    }
    Ok(())
}

fn no_tokens(alloc: Global, count: usize) -> Result<Vec<Vec<Token>>, AllocError>
    ensures count { IfOk result (λ v. length v.items ≡ count) }
    ensures none { IfOk result (λ v. (i : ℕ) → slice_index_or (lists_of v.items) i [] ≡ []) }
{
    let mut tokens = Vec::new(alloc);
    for i in 0..count {
        let _place = i;
        tokens.push(Vec::new(alloc))?;
    }
    Ok(tokens)
}

// Steps once, and adds what the streams carry.
fn go_on(sim: &mut Sim, tokens: &mut [Vec<Token>]) -> Result<(), AllocError>
    requires { (sim_of sim.old).told.cycle + 1 < 2 ^ 64 }
    ensures next { IsNext (sim_of sim.old) (sim_of sim.new) }
    ensures added { OnOk result (AreTokensAdded (sim_of sim.new) (lists_of tokens.old) (lists_of tokens.new)) }
{
    sim.step();
    add_tokens(sim, tokens)
}

/// Steps until the design is done, or to cycle `limit`. Returns the tokens of the cycles from 1 on, and the first cycle in which the
/// design is done. The simulator is then in the last of these cycles. If memory runs out, the simulator is in one of them, and may
/// go on from there.
pub fn run_cycles(alloc: Global, sim: &mut Sim, limit: u64) -> Result<Carried, AllocError>
    requires { (sim_of sim.old).told.cycle ≡ 0 }
    ensures done { IfOk result (λ r. InRuns (sim_of sim.old) (λ m env nets. IsDoneAt (λ n. nets n []) limit r.done_at)) }
    ensures tokens { IfOk result (λ r. InRuns (sim_of sim.old)
        (λ m env nets. (place : ℕ) (l : PortTree) → slice_get (streams_of m) place ≡ Some l
        → tokens l.bits (λ n. nets n []) l.name (last_cycle limit r.done_at) ≡ slice_index_or (lists_of r.tokens.items) place [])) }
    ensures count { IfOk result (λ r. (m : ModuleTree) → TopOf (sim_of sim.old).design m → length r.tokens.items ≡ length (streams_of m)) }
    ensures later { IfOk result (λ r. IsLater (sim_of sim.old) (sim_of sim.new) (last_cycle limit r.done_at)) }
    ensures short { OnErr result ((n : ℕ) × (n ≤ limit) × IsLater (sim_of sim.old) (sim_of sim.new) n) }
{
    let mut tokens = no_tokens(alloc, sim.streams())?;
    for cycle in 0..limit {
        go_on(sim, &mut tokens)?;
        if sim.done() {
            return Ok(Carried {
                tokens,
                done_at: Some(cycle + 1),
            });
        }
    }
    Ok(Carried {
        tokens,
        done_at: None,
    })
}
