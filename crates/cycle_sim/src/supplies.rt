// The inputs of the top, with the supply of each.

ghost use Rattle.std.specs.Prelude.{◌≡◌, ◌++◌, ℕ, List, Some, None, IsSome, IfOk, OnOk, IfSome, bytes_eq, get_or, slice_get, slice_index};
ghost use Rattle.std.specs.Option.{option_to_list};
ghost use Rattle.tapa_base.specs.declared.shape.Port.{Port as PortTree};
ghost use Rattle.vlog_tree.specs.declared.table.Declaration.{Declaration as DeclarationTree};
ghost use Rattle.vlog_tree.specs.declared.table.NetKind.TheVariants as kinds;
ghost use Rattle.vlog_tree.specs.Form.{ModuleTree};
ghost use Rattle.tapa_base.specs.Lists.{Has};
ghost use Rattle.vlog_tree.specs.Labels.{rst, scalar, m_ack, rdata_of as rdata_lem};
ghost use Rattle.vlog_tree.specs.Environment.{shape_of};
ghost use Rattle.sim_tape.specs.declared.gates.Pair.{Pair as PairTree};
ghost use Rattle.sim_tape.specs.Tape.{TapeTree};
ghost use Rattle.sim_flat.specs.declared.flat.Flat.{Flat as FlatTree};
ghost use Rattle.cycle_sim.specs.Firsts.{place_of as place_lem};
ghost use Rattle.cycle_sim.specs.Machines.{HasSupply, IsTopPlaced, IsSuppliedBy, IsInput, AreInputs};

use crate::inputs::{Input, Supply};
use sim_design::pair_of;
use sim_tape::Pair;
use std::alloc::{AllocError, Global};
use tapa_base::{Port, Shape, Text};
use vlog_rules::is_input;
use vlog_scope::Scope;
use vlog_tree::{Declaration, ack_of, rdata_of, scalar_of};

#[tactic(auto, unfolding(vlog_tree::specs::Labels::rst))]
fn is_reset(name: &Text) -> bool
    ensures { result ≡ bytes_eq name.now rst }
{
    name.bytes() == b"rst".as_slice()
}

fn number_at(numbers: &[u64], at: usize) -> u64
    ensures { result ≡ slice_index numbers.now at }
{
    match numbers.get(at) {
        Some(n) => *n,
        None => 0,
    }
}

// Returns the first index of a label.
fn place_of(labels: &[Port], label: &[u8]) -> Option<usize>
    ensures { result ≡ place_lem labels.now label.now }
{
    labels.iter().position(|l| l.name.bytes() == label)
}

fn scalar_supply(labels: &[Port], scalars: &[u64], label: &[u8]) -> Option<Supply>
    ensures is { (top : ModuleTree) → labels.now ≡ (shape_of top).scalars → IfSome result (λ s. IsSuppliedBy top scalars.now (scalar label.now) s) }
    ensures some { (l : PortTree) → Has labels.now l → l.name ≡ label.now → IsSome result }
{
    let Some(place) = place_of(labels, label) else {
        return None;
    };
    Some(Supply::Scalar(number_at(scalars, place)))
}

fn ready_supply(labels: &[Port], label: &[u8]) -> Option<Supply>
    ensures is { (top : ModuleTree) (scalars : List ℕ) → labels.now ≡ (shape_of top).memories → IfSome result (λ s. IsSuppliedBy top scalars (m_ack label.now) s) }
    ensures some { (l : PortTree) → Has labels.now l → l.name ≡ label.now → IsSome result }
{
    let Some(place) = place_of(labels, label) else {
        return None;
    };
    Some(Supply::Ready(place))
}

// Returns the supply of a name of the top, if the name is that of the reset, of a scalar or of the `ack` of a memory.
fn supply_of(shape: &Shape, scalars: &[u64], name: &Text) -> Option<Supply>
    ensures is { (top : ModuleTree) → shape.now.scalars.items ≡ (shape_of top).scalars → shape.now.memories.items ≡ (shape_of top).memories
        → IfSome result (λ s. IsSuppliedBy top scalars.now name.now s) }
    ensures some { (top : ModuleTree) → shape.now.scalars.items ≡ (shape_of top).scalars → shape.now.memories.items ≡ (shape_of top).memories → HasSupply top name.now → IsSome result }
{
    if is_reset(name) {
        return Some(Supply::Reset);
    }
    if let Some(label) = scalar_of(name) {
        return scalar_supply(&shape.scalars, scalars, label);
    }
    if let Some(label) = ack_of(name) {
        return ready_supply(&shape.memories, label);
    }
    None
}

// Returns the input at an index among the top's names. Returns `None` if the name is not an input, or is one that a memory answers.
fn input_at(
    shape: &Shape,
    scalars: &[u64],
    pairs: &[Option<Pair>],
    place: usize,
    d: &Declaration,
) -> Option<Input>
    ensures is { (ms : List ModuleTree) (top : ModuleTree) (f : FlatTree) (t : TapeTree) (names : List DeclarationTree) → IsTopPlaced ms top f pairs.now t names
        → shape.now.scalars.items ≡ (shape_of top).scalars → shape.now.memories.items ≡ (shape_of top).memories
        → slice_get names place ≡ Some d.now → IfSome result (λ a. IsInput ms top f pairs.now scalars.now place a) }
    ensures all { (ms : List ModuleTree) (top : ModuleTree) (f : FlatTree) (t : TapeTree) (names : List DeclarationTree) (p : PairTree)
        → IsTopPlaced ms top f pairs.now t names → shape.now.scalars.items ≡ (shape_of top).scalars → shape.now.memories.items ≡ (shape_of top).memories
        → slice_get names place ≡ Some d.now → get_or pairs.now place None ≡ Some p → d.now.net_kind ≡ kinds.Input → rdata_lem d.now.name ≡ None → IsSome result }
{
    if !is_input(d.net_kind) {
        return None;
    }
    if rdata_of(&d.name).is_some() {
        return None;
    }
    let Some(pair) = pair_of(pairs, Some(place)) else {
        return None;
    };
    let Some(supply) = supply_of(shape, scalars, &d.name) else {
        return None;
    };
    Some(Input { pair, supply })
}

fn add_input(inputs: &mut Vec<Input>, input: Option<Input>) -> Result<(), AllocError>
    ensures { OnOk result (inputs.new.items ≡ inputs.old.items ++ option_to_list input) }
{
    if let Some(one) = input {
        inputs.push(one)?;
    }
    Ok(())
}

/// Lists the inputs of the top except those that memories answer, in the order of the text. Scalars have these numbers.
pub fn all_inputs(
    alloc: Global,
    scope: &Scope,
    pairs: &[Option<Pair>],
    shape: &Shape,
    scalars: &[u64],
) -> Result<Vec<Input>, AllocError>
    ensures { IfOk result (λ v. (ms : List ModuleTree) (top : ModuleTree) (f : FlatTree) (t : TapeTree) → IsTopPlaced ms top f pairs.now t scope.now
        → shape.now.scalars.items ≡ (shape_of top).scalars → shape.now.memories.items ≡ (shape_of top).memories
        → AreInputs ms top f pairs.now scalars.now v.items) }
{
    let names = scope.declarations();
    let mut inputs = Vec::new(alloc);
    for place in 0..names.len() {
        let input = input_at(shape, scalars, pairs, place, &names[place]);
        add_input(&mut inputs, input)?;
    }
    Ok(inputs)
}
