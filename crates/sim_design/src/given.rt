// Nets that have their numbers from no other net.

ghost use Rattle.std.specs.Prelude.{◌≡◌, false, ℕ, List, length, IfOk, IfSome, IsSome};
ghost use Rattle.vlog_tree.specs.Form.{ModuleTree};
ghost use Rattle.vlog_tree.specs.Flattened.{FlatNet};
ghost use Rattle.sim_tape.specs.Tape.{Extends, IsTape, PairBefore};
ghost use Rattle.sim_tape.specs.Trees.{tree_of};
ghost use Rattle.sim_gates.specs.Nets.{SlotsBefore};
ghost use Rattle.sim_flat.specs.Flat.{IsFlat, HasNumber};
ghost use Rattle.vlog_tree.specs.Table.{is_clk};
ghost use Rattle.sim_design.specs.States.{IsFree};
ghost use Rattle.sim_design.specs.Placed.{AllFree};
ghost use Rattle.sim_design.specs.Given.{IsGivenPair, IsBehind, HaveOwn, IsFreeSource, IsGivenNet, AreGivenNets};

use crate::net::name_at;
use crate::plan::source_at;
use sim_flat::{Flat, Source, base_at, owner_of, table_at};
use sim_tape::{Pair, Tape};
use std::alloc::{AllocError, Global};
use vlog_rules::is_clock;
use vlog_tree::{Declaration, rdata_of};

// Slots of a number of some bits that is given from outside.
fn give(tape: &mut Tape, bits: u32) -> Result<Pair, AllocError>
    requires { IsTape (tree_of tape.old) }
    ensures extends { Extends (tree_of tape.old) (tree_of tape.new) }
    ensures slots { IfOk result (λ p. PairBefore (length (tree_of tape.new).gates) p) }
    ensures given { IfOk result (λ p. IsGivenPair (tree_of tape.new) bits p) }
    ensures fresh { IfOk result (λ p. IsBehind (length (tree_of tape.old).gates) p) }
{
    let low = tape.given()?;
    if bits <= 64 {
        return Ok(Pair { low, high: 0 });
    }
    let high = tape.given()?;
    Ok(Pair { low, high })
}

// Slots of the net at an index, where it has its number from no other.
fn give_source(
    tape: &mut Tape,
    instance: usize,
    d: &Declaration,
    source: Source,
) -> Result<Option<Pair>, AllocError>
    requires { IsTape (tree_of tape.old) }
    ensures extends { Extends (tree_of tape.old) (tree_of tape.new) }
    ensures slots { IfOk result (λ o. IfSome o (λ p. PairBefore (length (tree_of tape.new).gates) p)) }
    ensures given { IfOk result (λ o. IfSome o (λ p. IsGivenPair (tree_of tape.new) d.now.bits p × IsFreeSource instance d.now.name source)) }
    ensures all { IsFreeSource instance d.now.name source → IfOk result (λ o. IsSome o) }
    ensures fresh { IfOk result (λ o. IfSome o (λ p. IsBehind (length (tree_of tape.old).gates) p)) }
{
    match source {
        Source::Register => {
            let pair = give(tape, d.bits)?;
            Ok(Some(pair))
        }
        Source::Input => {
            if instance > 0 {
                return Ok(None);
            }
            if rdata_of(&d.name).is_some() {
                return Ok(None);
            }
            let pair = give(tape, d.bits)?;
            Ok(Some(pair))
        }
        Source::Nothing => Ok(None),
        Source::Line(_) => Ok(None),
        Source::Child { .. } => Ok(None),
    }
}

// Slots of a net by its number, where it has its number from no other.
fn give_net(tape: &mut Tape, flat: &Flat, number: usize) -> Result<Option<Pair>, AllocError>
    requires { IsTape (tree_of tape.old) }
    ensures extends { Extends (tree_of tape.old) (tree_of tape.new) }
    ensures slots { IfOk result (λ o. IfSome o (λ p. PairBefore (length (tree_of tape.new).gates) p)) }
    ensures given { (ms : List ModuleTree) (top : ModuleTree) (n : FlatNet) → IsFlat ms top flat.now → HasNumber ms flat.now number n
        → IfOk result (λ o. IfSome o (λ p. IsGivenNet ms top n (tree_of tape.new) p)) }
    ensures all { (ms : List ModuleTree) (top : ModuleTree) (n : FlatNet) → IsFlat ms top flat.now → HasNumber ms flat.now number n → IsFree ms top n → is_clk n.1 ≡ false
        → IfOk result (λ o. IsSome o) }
    ensures fresh { IfOk result (λ o. IfSome o (λ p. IsBehind (length (tree_of tape.old).gates) p)) }
{
    let Some(instance) = owner_of(flat, number) else {
        return Ok(None);
    };
    let Some(table) = table_at(flat, instance) else {
        return Ok(None);
    };
    let base = base_at(flat, instance);
    if number < base {
        return Ok(None);
    }
    let place = number - base;
    let Some(d) = name_at(table, place) else {
        return Ok(None);
    };
    if is_clock(&d.name) {
        return Ok(None);
    }
    let source = source_at(table, place);
    let pair = give_source(tape, instance, d, source)?;
    Ok(pair)
}

/// Slots of all nets that have their numbers from no other net in the same cycle: of registers, and of the inputs of the top but
/// what memories answer. By numbers of nets.
pub fn give_all(
    alloc: Global,
    tape: &mut Tape,
    flat: &Flat,
) -> Result<Vec<Option<Pair>>, AllocError>
    requires { IsTape (tree_of tape.old) }
    ensures extends { Extends (tree_of tape.old) (tree_of tape.new) }
    ensures slots { IfOk result (λ v. SlotsBefore v.items (length (tree_of tape.new).gates)) }
    ensures own { IfOk result (λ v. HaveOwn v.items) }
    ensures count { IfOk result (λ v. length v.items ≡ length flat.now.owners.items) }
    ensures given { (ms : List ModuleTree) (top : ModuleTree) → IsFlat ms top flat.now → IfOk result (λ v. AreGivenNets ms top flat.now v.items (tree_of tape.new)) }
    ensures all { (ms : List ModuleTree) (top : ModuleTree) → IsFlat ms top flat.now → IfOk result (λ v. AllFree ms top flat.now v.items) }
{
    let mut pairs = Vec::new(alloc);
    for number in 0..flat.owners.len() {
        let pair = give_net(tape, flat, number)?;
        pairs.push(pair)?;
    }
    Ok(pairs)
}
