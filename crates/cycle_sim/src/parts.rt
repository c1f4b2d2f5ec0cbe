// A design on a tape, and what changes from cycle to cycle.

ghost use Rattle.std.specs.Prelude.{◌+◌, ◌*◌, ◌<◌, ◌≤◌, ◌^◌, ◌≡◌, ◌↔◌, IsTrue, [], Some, false, true, get_or, slice_get};
ghost use Rattle.sim_tape.specs.Operators.{cells_of};
ghost use Rattle.vlog_tree.specs.declared.table.Declaration.{Declaration as DeclarationTree};
ghost use Rattle.vlog_tree.specs.Form.{ModuleTree};
ghost use Rattle.vlog_tree.specs.Environment.{RaisesDone, token_of as token_lem};
ghost use Rattle.vlog_design.specs.Designs.{TopOf};
ghost use Rattle.cycle_sim.specs.Sims.{InRuns, IsNext, IsCarried};
ghost use Rattle.cycle_sim.specs.ShownNets.{shown_nets};
ghost use Rattle.cycle_sim.specs.Wholes.{IsSim, sim_tree, token_on};

use crate::around::Around;
use crate::cells::write_all;
use crate::inputs::{are_given, give};
use crate::slots::{is_one, number, take_over};
use sim_design::{Commit, Width};
use sim_flat::Flat;
use sim_gates::Store;
use sim_pass::{Marks, Schedule};
use sim_tape::Pair;
use tapa_base::Token;
use vlog_design::Design;

/// A stream of the top: the pairs of its `wr`, `rdy` and `din`, and the bits of `din`.
#[derive(Clone, Copy)]
pub struct Stream {
    pub wr: Pair,
    pub rdy: Pair,
    pub din: Pair,
    pub bits: u32,
}

/// A design's tape, ready to run: the pairs of slots of its nets, the numbers of its memories' lists of cells, the sizes of these
/// memories, the gates, what registers latch, and what is stored.
#[derive(Drop)]
pub struct Machine {
    pub pairs: Vec<Option<Pair>>,
    pub memories: Vec<Option<Pair>>,
    pub widths: Vec<Width>,
    pub program: Schedule,
    pub commits: Vec<Commit>,
    pub stores: Vec<Store>,
}

/// A design, the numbers of its nets, its tape, its interface to the environment, and what the environment gives: scalars, and when
/// memories are ready.
#[derive(Drop)]
pub struct Parts {
    pub design: Design,
    pub flat: Flat,
    pub machine: Machine,
    pub around: Around,
    pub scalars: Vec<u64>,
    pub ready: Vec<Vec<bool>>,
}

/// A cycle: its number, the numbers of all slots and the cells of all memories. Beside these are buffers for the next cycle: room for
/// the numbers that slots are given, marks of the gates to evaluate, and whether nothing changes while the inputs stay.
#[derive(Drop)]
pub struct State {
    pub cycle: u64,
    pub numbers: Vec<u64>,
    pub cells: Vec<Vec<u64>>,
    pub given: Vec<u64>,
    pub marks: Marks,
    pub is_still: bool,
}

// Checks whether nothing changes while the inputs stay: no number has changed, and no cell is written.
fn is_still(is_same: bool, is_written: bool) -> bool
    ensures same { result ≡ true → is_same ≡ true }
    ensures unwritten { result ≡ true → is_written ≡ false }
{
    is_same && !is_written
}

// Works out the next cycle. If few numbers change, only gates that read these are evaluated.
fn work_out(parts: &Parts, state: &mut State)
    requires sim { IsSim parts.now state.old }
    requires few { state.old.cycle + 1 < 2 ^ 64 }
    ensures sim { IsSim parts.now state.new }
    ensures next { IsNext (sim_tree parts.now state.old) (sim_tree parts.now state.new) }
{
    let is_written = write_all(
        &state.numbers,
        &parts.machine.stores,
        &parts.around.outside,
        &mut state.cells,
    );
    take_over(&parts.machine.commits, &state.numbers, &mut state.given);
    state.cycle += 1;
    give(
        &parts.around.inputs,
        &parts.ready,
        state.cycle,
        &mut state.given,
    );
    let is_same = parts.machine.program.follow(
        &state.given,
        is_written,
        &mut state.numbers,
        &state.cells,
        &mut state.marks,
    );
    state.is_still = is_still(is_same, is_written);
}

/// Goes to the next cycle. If nothing changes while the inputs stay, and they do, the next cycle is like this one.
pub fn advance(parts: &Parts, state: &mut State)
    requires sim { IsSim parts.now state.old }
    requires few { state.old.cycle + 1 < 2 ^ 64 }
    ensures sim { IsSim parts.now state.new }
    ensures next { IsNext (sim_tree parts.now state.old) (sim_tree parts.now state.new) }
{
    if state.is_still
        && are_given(
            &parts.around.inputs,
            &parts.ready,
            state.cycle + 1,
            &state.given,
        )
    {
        state.cycle += 1;
        return;
    }
    work_out(parts, state);
}

/// Checks whether the design is done in a cycle.
pub fn is_done(parts: &Parts, state: &State) -> bool
    requires { IsSim parts.now state.now }
    ensures { InRuns (sim_tree parts.now state.now) (λ m env nets. IsTrue result ↔ RaisesDone (λ n. nets n []) state.now.cycle) }
{
    state.cycle > 0 && is_one(&state.numbers, parts.around.done)
}

fn join(low: u64, high: u64) -> u128
    ensures { result ≡ high * 2 ^ 64 + low }
{
    (u128::from(high) << 64) + u128::from(low)
}

// Returns the token that the bits of a stream encode: an end if the highest bit is set, and otherwise a datum.
#[tactic(auto, using(vlog_tree::proofs::Tokens::low_datum))]
fn token_of(bits: u32, din: u128) -> Token
    requires low { 2 ≤ bits }
    requires high { bits ≤ 65 }
    ensures { result ≡ token_lem bits din }
{
    let first_end = 1u128 << (bits - 1);
    if din < first_end {
        Token::Datum(din as u64)
    } else {
        Token::Eot
    }
}

fn carries(numbers: &[u64], s: &Stream) -> Option<Token>
    requires low { 2 ≤ s.now.bits }
    requires high { s.now.bits ≤ 65 }
    ensures { result ≡ token_on numbers.now s.now }
{
    if is_one(numbers, s.wr) && is_one(numbers, s.rdy) {
        let din = join(number(numbers, s.din.low), number(numbers, s.din.high));
        Some(token_of(s.bits, din))
    } else {
        None
    }
}

/// Returns the token that a stream carries in a cycle. In cycle 0 a stream carries none.
pub fn carried(parts: &Parts, state: &State, place: usize) -> Option<Token>
    requires { IsSim parts.now state.now }
    ensures { IsCarried (sim_tree parts.now state.now) place result }
{
    match parts.around.streams.get(place) {
        Some(s) => {
            if state.cycle == 0 {
                None
            } else {
                carries(&state.numbers, s)
            }
        }
        None => None,
    }
}

/// Returns the number of a net of the top in a cycle, by its index among those that have one, and 0 past the last.
pub fn shown_value(parts: &Parts, state: &State, place: usize) -> u128
    requires { IsSim parts.now state.now }
    ensures told { (m : ModuleTree) (d : DeclarationTree) → TopOf parts.now.design m → slice_get (shown_nets m) place ≡ Some d
        → result ≡ (sim_tree parts.now state.now).told.number [] d.name }
    ensures fits { InRuns (sim_tree parts.now state.now) (λ m env nets. (d : DeclarationTree) → slice_get (shown_nets m) place ≡ Some d → result < 2 ^ d.bits) }
{
    match parts.around.shown.get(place) {
        Some(pair) => join(
            number(&state.numbers, pair.low),
            number(&state.numbers, pair.high),
        ),
        None => 0,
    }
}

/// Returns the cells of a list in a cycle.
pub fn cells_in(state: &State, m: usize) -> &[u64]
    ensures { result.now ≡ get_or (cells_of state.now.cells.items) m [] }
{
    match state.cells.get(m) {
        Some(cells) => cells,
        None => &[],
    }
}
