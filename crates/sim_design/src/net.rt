// A net of a design on a tape.

ghost use Rattle.std.specs.Prelude.{◌≡◌, ◌<◌, [], List, Some, length, get_or, slice_get, option_copied, false, IfOk, IfSome, IsSome, IsTrue};
ghost use Rattle.vlog_tree.specs.Form.{ModuleTree};
ghost use Rattle.vlog_tree.specs.Flattened.{FlatNet};
ghost use Rattle.vlog_tree.specs.Cycle.{module_at};
ghost use Rattle.vlog_tree.specs.Table.{declared, is_clk, net_kind_of, net_kind_is_read};
ghost use Rattle.sim_tape.specs.Tape.{Extends, IsTape, PairBefore};
ghost use Rattle.sim_tape.specs.Trees.{tree_of};
ghost use Rattle.sim_gates.specs.Nets.{SlotsBefore};
ghost use Rattle.sim_flat.specs.declared.tables.Source.TheVariants as sources;
ghost use Rattle.sim_flat.specs.Flat.{HasNumber};
ghost use Rattle.sim_design.specs.States.{AreRead, HasNumbersOf, IsFree, PartsPlaced};
ghost use Rattle.vlog_run_laws.specs.runs.Readable.{CanBeRead};
ghost use Rattle.sim_design.specs.Plans.{IsPlan, IsAtSpot};

use crate::answered::pair_of_answer;
use crate::driven::{Spot, pair_of_line};
use crate::joined::{pair_around, pair_inside};
use crate::plan::{Plan, source_at};
use sim_flat::{Source, Table, base_at, lines_at, owner_of, table_at};
use sim_tape::{Pair, Tape};
use std::alloc::{AllocError, Global};
use vlog_rules::{is_clock, is_read};
use vlog_tree::{Declaration, Item, rdata_of};

fn item_at(items: &[Item], at: usize) -> Option<&Item>
    ensures { option_copied result ≡ slice_get items.now at }
{
    items.get(at)
}

// The pair of a net that a line drives.
fn place_line(
    tape: &mut Tape,
    plan: &Plan,
    table: &Table,
    spot: Spot,
    place: usize,
    at: usize,
    pairs: &[Option<Pair>],
) -> Result<Option<Pair>, AllocError>
    requires tape { IsTape (tree_of tape.old) }
    requires slots { SlotsBefore pairs.now (length (tree_of tape.old).gates) }
    ensures extends { Extends (tree_of tape.old) (tree_of tape.new) }
    ensures slots { IfOk result (λ o. IfSome o (λ p. PairBefore (length (tree_of tape.new).gates) p)) }
    ensures told { (ms : List ModuleTree) (top : ModuleTree) (n : FlatNet) → IsPlan ms top plan.now → IsAtSpot ms plan.now.flat.now table.now spot place n
        → sources.Line at ≡ get_or table.now.sources.items place sources.Nothing → length pairs.now ≡ length plan.now.flat.now.owners.items
        → AreRead ms top plan.now.flat.now pairs.now
        → IfOk result (λ o. IfSome o (λ p. HasNumbersOf ms top plan.now.flat.now plan.now.memories.now pairs.now (tree_of tape.new) n p)) }
    ensures some { (ms : List ModuleTree) (top : ModuleTree) (n : FlatNet) → IsPlan ms top plan.now → IsAtSpot ms plan.now.flat.now table.now spot place n
        → sources.Line at ≡ get_or table.now.sources.items place sources.Nothing → length pairs.now ≡ length plan.now.flat.now.owners.items
        → PartsPlaced ms top plan.now.flat.now pairs.now n → IfOk result (λ o. IsSome o) }
{
    let items = lines_at(plan.flat, plan.modules, spot.instance);
    let Some(item) = item_at(items, at) else {
        return Ok(None);
    };
    match item {
        Item::Assign { net, value } => {
            let bits = table.scope.bits(net.bytes());
            let pair = pair_of_line(
                tape,
                plan.flat,
                spot,
                &table.scope,
                pairs,
                plan.memories,
                bits,
                value,
            )?;
            Ok(pair)
        }
        Item::Wire { .. } => Ok(None),
        Item::Reg { .. } => Ok(None),
        Item::Memory { .. } => Ok(None),
        Item::Always(_) => Ok(None),
        Item::Instance { .. } => Ok(None),
    }
}

/// The name at an index.
pub(crate) fn name_at(table: &Table, place: usize) -> Option<&Declaration>
    ensures { option_copied result ≡ slice_get table.now.scope place }
{
    table.scope.declarations().get(place)
}

// The pair of an input of the top that a memory answers with, and none of any other.
fn place_answer(
    alloc: Global,
    tape: &mut Tape,
    plan: &Plan,
    table: &Table,
    spot: Spot,
    place: usize,
    pairs: &[Option<Pair>],
) -> Result<Option<Pair>, AllocError>
    requires tape { IsTape (tree_of tape.old) }
    requires slots { SlotsBefore pairs.now (length (tree_of tape.old).gates) }
    ensures extends { Extends (tree_of tape.old) (tree_of tape.new) }
    ensures slots { IfOk result (λ o. IfSome o (λ p. PairBefore (length (tree_of tape.new).gates) p)) }
    ensures told { (ms : List ModuleTree) (top : ModuleTree) (n : FlatNet) → IsPlan ms top plan.now → IsAtSpot ms plan.now.flat.now table.now spot place n
        → spot.instance ≡ 0 → sources.Input ≡ get_or table.now.sources.items place sources.Nothing
        → IfOk result (λ o. IfSome o (λ p. HasNumbersOf ms top plan.now.flat.now plan.now.memories.now pairs.now (tree_of tape.new) n p)) }
    ensures some { (ms : List ModuleTree) (top : ModuleTree) (n : FlatNet) → IsPlan ms top plan.now → IsAtSpot ms plan.now.flat.now table.now spot place n
        → spot.instance ≡ 0 → sources.Input ≡ get_or table.now.sources.items place sources.Nothing
        → (IsFree ms top n → ⊥) → PartsPlaced ms top plan.now.flat.now pairs.now n → IfOk result (λ o. IsSome o) }
{
    let Some(d) = name_at(table, place) else {
        return Ok(None);
    };
    let Some(label) = rdata_of(&d.name) else {
        return Ok(None);
    };
    let pair = pair_of_answer(alloc, tape, plan.outside, &table.scope, pairs, label)?;
    Ok(pair)
}

// The pair of a net by what it has its number from; none where that is no other net.
fn place_source(
    alloc: Global,
    tape: &mut Tape,
    plan: &Plan,
    table: &Table,
    spot: Spot,
    place: usize,
    source: Source,
    pairs: &[Option<Pair>],
) -> Result<Option<Pair>, AllocError>
    requires tape { IsTape (tree_of tape.old) }
    requires slots { SlotsBefore pairs.now (length (tree_of tape.old).gates) }
    ensures extends { Extends (tree_of tape.old) (tree_of tape.new) }
    ensures slots { IfOk result (λ o. IfSome o (λ p. PairBefore (length (tree_of tape.new).gates) p)) }
    ensures told { (ms : List ModuleTree) (top : ModuleTree) (n : FlatNet) → IsPlan ms top plan.now → IsAtSpot ms plan.now.flat.now table.now spot place n
        → source ≡ get_or table.now.sources.items place sources.Nothing → length pairs.now ≡ length plan.now.flat.now.owners.items
        → AreRead ms top plan.now.flat.now pairs.now
        → IfOk result (λ o. IfSome o (λ p. HasNumbersOf ms top plan.now.flat.now plan.now.memories.now pairs.now (tree_of tape.new) n p)) }
    ensures some { (ms : List ModuleTree) (top : ModuleTree) (n : FlatNet) → IsPlan ms top plan.now → IsAtSpot ms plan.now.flat.now table.now spot place n
        → source ≡ get_or table.now.sources.items place sources.Nothing → length pairs.now ≡ length plan.now.flat.now.owners.items
        → CanBeRead ms top n → (IsFree ms top n → ⊥) → PartsPlaced ms top plan.now.flat.now pairs.now n → IfOk result (λ o. IsSome o) }
{
    match source {
        Source::Line(at) => {
            let driven = place_line(tape, plan, table, spot, place, at, pairs)?;
            Ok(driven)
        }
        Source::Child { child, port } => {
            let inside = pair_inside(plan.flat, pairs, spot.instance, child, port);
            Ok(inside)
        }
        Source::Input => {
            if spot.instance > 0 {
                let around = pair_around(plan.flat, pairs, spot.instance, place);
                return Ok(around);
            }
            let answered = place_answer(alloc, tape, plan, table, spot, place, pairs)?;
            Ok(answered)
        }
        Source::Register => Ok(None),
        Source::Nothing => Ok(None),
    }
}

/// The pair of a net by its number, where the nets that it has its number from have theirs; none where it has its number from
/// no other net in the same cycle.
pub fn place_net(
    alloc: Global,
    tape: &mut Tape,
    plan: &Plan,
    pairs: &[Option<Pair>],
    number: usize,
) -> Result<Option<Pair>, AllocError>
    requires tape { IsTape (tree_of tape.old) }
    requires slots { SlotsBefore pairs.now (length (tree_of tape.old).gates) }
    ensures extends { Extends (tree_of tape.old) (tree_of tape.new) }
    ensures slots { IfOk result (λ o. IfSome o (λ p. PairBefore (length (tree_of tape.new).gates) p)) }
    ensures read { (ms : List ModuleTree) (top : ModuleTree) (n : FlatNet) (m : ModuleTree) → IsPlan ms top plan.now → HasNumber ms plan.now.flat.now number n → module_at ms top n.0 ≡ Some m
        → IfOk result (λ o. IfSome o (λ p. IsTrue (net_kind_is_read (net_kind_of (declared m) n.1)) × (is_clk n.1 ≡ false))) }
    ensures told { (ms : List ModuleTree) (top : ModuleTree) (n : FlatNet) → IsPlan ms top plan.now → HasNumber ms plan.now.flat.now number n
        → length pairs.now ≡ length plan.now.flat.now.owners.items → AreRead ms top plan.now.flat.now pairs.now
        → IfOk result (λ o. IfSome o (λ p. HasNumbersOf ms top plan.now.flat.now plan.now.memories.now pairs.now (tree_of tape.new) n p)) }
    ensures some { (ms : List ModuleTree) (top : ModuleTree) (n : FlatNet) → IsPlan ms top plan.now → HasNumber ms plan.now.flat.now number n
        → length pairs.now ≡ length plan.now.flat.now.owners.items
        → CanBeRead ms top n → (IsFree ms top n → ⊥) → PartsPlaced ms top plan.now.flat.now pairs.now n → IfOk result (λ o. IsSome o) }
{
    let Some(instance) = owner_of(plan.flat, number) else {
        return Ok(None);
    };
    let Some(table) = table_at(plan.flat, instance) else {
        return Ok(None);
    };
    let base = base_at(plan.flat, instance);
    if number < base {
        return Ok(None);
    }
    let place = number - base;
    let Some(d) = name_at(table, place) else {
        return Ok(None);
    };
    if !is_read(d.net_kind) {
        return Ok(None);
    }
    if is_clock(&d.name) {
        return Ok(None);
    }
    let source = source_at(table, place);
    let spot = Spot { instance, base };
    let placed = place_source(alloc, tape, plan, table, spot, place, source, pairs)?;
    Ok(placed)
}
