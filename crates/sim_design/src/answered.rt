// What the memories outside answer.

ghost use Rattle.std.specs.Prelude.{◌≡◌, ◌<◌, true, [], ℕ, List, Option, Some, None, length, get_or, map, slice_get, IfOk, IfSome, IsSome};
ghost use Rattle.std.specs.Str.{IsAscii};
ghost use Rattle.tapa_base.specs.declared.shape.Port.{Port as PortTree};
ghost use Rattle.vlog_tree.specs.Form.{ModuleTree};
ghost use Rattle.vlog_tree.specs.Labels.{m_addr, m_rdata};
ghost use Rattle.vlog_tree.specs.Table.{declared, port_declared};
ghost use Rattle.vlog_tree.specs.V6.{has_all_five};
ghost use Rattle.vlog_tree.specs.Environment.{shape_of};
ghost use Rattle.sim_tape.specs.declared.gates.Pair.{Pair as PairTree};
ghost use Rattle.sim_tape.specs.Tape.{Extends, IsTape, PairBefore};
ghost use Rattle.sim_tape.specs.Trees.{tree_of};
ghost use Rattle.sim_gates.specs.Nets.{SlotsBefore};
ghost use Rattle.sim_flat.specs.declared.flat.Flat.{Flat as FlatTree};
ghost use Rattle.sim_flat.specs.Flat.{IsFlat, HasNumber};
ghost use Rattle.sim_design.specs.States.{HasNumbersOf};
ghost use Rattle.sim_design.specs.Lines.{IsLabelAt};

use crate::slices::pair_of;
use sim_tape::{Operator, Pair, Tape};
use std::alloc::{AllocError, Global};
use tapa_base::{Port, Text};
use vlog_scope::Scope;
use vlog_tree::addr_name;

// The index of a label.
fn place_of_label(labels: &[Port], label: &[u8]) -> Option<usize>
    ensures at { IfSome result (λ i. IsLabelAt labels.now i label.now) }
    ensures there { (i : ℕ) → IsLabelAt labels.now i label.now → IsSome result }
{
    for (place, port) in labels.iter().enumerate() {
        if port.name.bytes() == label {
            return Some(place);
        }
    }
    None
}

/// The pair of the read data of the memory outside with a label: the cell at its address.
pub(crate) fn pair_of_answer(
    alloc: Global,
    tape: &mut Tape,
    outside: &[Port],
    scope: &Scope,
    pairs: &[Option<Pair>],
    label: &[u8],
) -> Result<Option<Pair>, AllocError>
    requires tape { IsTape (tree_of tape.old) }
    requires slots { SlotsBefore pairs.now (length (tree_of tape.old).gates) }
    requires ascii { IsAscii label.now }
    ensures extends { Extends (tree_of tape.old) (tree_of tape.new) }
    ensures slots { IfOk result (λ o. IfSome o (λ p. PairBefore (length (tree_of tape.new).gates) p)) }
    ensures told { (ms : List ModuleTree) (top : ModuleTree) (f : FlatTree) (memories : List (Option PairTree)) → IsFlat ms top f → scope.now ≡ declared top
        → outside.now ≡ (shape_of top).memories → 0 < length label.now → has_all_five (map port_declared top.ports) label.now ≡ true
        → IfOk result (λ o. IfSome o (λ p. HasNumbersOf ms top f memories pairs.now (tree_of tape.new) ([], m_rdata label.now) p)) }
    ensures some { (ms : List ModuleTree) (top : ModuleTree) (f : FlatTree) → IsFlat ms top f → scope.now ≡ declared top → outside.now ≡ (shape_of top).memories
        → 0 < length label.now → has_all_five (map port_declared top.ports) label.now ≡ true
        → ((number : ℕ) → HasNumber ms f number ([], m_addr label.now) → IsSome (get_or pairs.now number None)) → IfOk result (λ o. IsSome o) }
{
    let Some(place) = place_of_label(outside, label) else {
        return Ok(None);
    };
    let addr = Text::new(addr_name(alloc, label)?);
    let Some((at, _)) = scope.place(&addr) else {
        return Ok(None);
    };
    let Some(asked) = pair_of(pairs, Some(at)) else {
        return Ok(None);
    };
    let memory = tape.constant(place as u64)?;
    let cell = tape.operate(Operator::Cell, asked.low, memory, 0)?;
    Ok(Some(Pair { low: cell, high: 0 }))
}
