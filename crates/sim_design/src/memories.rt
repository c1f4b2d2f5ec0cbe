// The numbers of the lists with the cells of the memories inside a design.

ghost use Rattle.std.specs.Prelude.{◌≡◌, ◌++◌, ◌∷◌, [], List, length, option_copied, IfOk, OnOk};
ghost use Rattle.vlog_tree.specs.Form.{ModuleTree};
ghost use Rattle.vlog_tree.specs.Table.{net_kind_is_memory};
ghost use Rattle.vlog_tree.specs.Environment.{shape_of};
ghost use Rattle.sim_flat.specs.Flat.{IsFlat};
ghost use Rattle.sim_design.specs.Memories.{declaration_at, memory_pair, number_for, widths_for};
ghost use Rattle.sim_design.specs.Drafts.{AreMemories};

use crate::drafts::Width;
use sim_flat::{Flat, base_at, owner_of, table_at};
use sim_tape::Pair;
use std::alloc::{AllocError, Global};
use vlog_tree::{Declaration, NetKind};

/// By numbers of names the numbers of memories, and the memories.
#[derive(Drop)]
pub(crate) struct Memories {
    pub numbers: Vec<Option<Pair>>,
    pub widths: Vec<Width>,
}

/// What the instance of a net declares it as, by the net's number.
pub fn declaration_of(flat: &Flat, number: usize) -> Option<&Declaration>
    ensures { option_copied result ≡ declaration_at flat.now number }
{
    match owner_of(flat, number) {
        Some(k) => match table_at(flat, k) {
            Some(table) => {
                let place = number.saturating_sub(base_at(flat, k));
                table.scope.declarations().get(place)
            }
            None => None,
        },
        None => None,
    }
}

fn is_memory(net_kind: NetKind) -> bool
    ensures { result ≡ net_kind_is_memory net_kind }
{
    match net_kind {
        NetKind::MemoryArray => true,
        NetKind::Unknown => false,
        NetKind::Input => false,
        NetKind::Output => false,
        NetKind::WireNet => false,
        NetKind::Register => false,
        NetKind::ChildInstance => false,
    }
}

// The numbers of the lists of a memory after others.
fn pair_behind(outside: usize, count: usize) -> Result<Pair, AllocError>
    ensures { IfOk result (λ p. p ≡ memory_pair outside count) }
{
    if outside >= 1 << 30 {
        return Err(AllocError);
    }
    if count >= 1 << 30 {
        return Err(AllocError);
    }
    let low = outside as u32 + 2 * (count as u32);
    Ok(Pair { low, high: low + 1 })
}

// A name gets its numbers.
fn add_name(
    all: &mut Memories,
    flat: &Flat,
    outside: usize,
    number: usize,
) -> Result<(), AllocError>
    ensures numbers { OnOk result (all.new.numbers.items ≡ all.old.numbers.items ++ number_for outside (length all.old.widths.items) (declaration_at flat.now number) ∷ []) }
    ensures widths { OnOk result (all.new.widths.items ≡ all.old.widths.items ++ widths_for outside (length all.old.widths.items) (declaration_at flat.now number)) }
{
    let Some(d) = declaration_of(flat, number) else {
        all.numbers.push(None)?;
        return Ok(());
    };
    if !is_memory(d.net_kind) {
        all.numbers.push(None)?;
        return Ok(());
    }
    let pair = pair_behind(outside, all.widths.len())?;
    all.widths.push(Width {
        pair,
        bits: d.bits,
        cells: d.cells,
    })?;
    all.numbers.push(Some(pair))?;
    Ok(())
}

/// The memories inside a design, after those outside.
pub(crate) fn memories_of(
    alloc: Global,
    flat: &Flat,
    outside: usize,
) -> Result<Memories, AllocError>
    ensures { IfOk result (λ v. (ms : List ModuleTree) (top : ModuleTree) → IsFlat ms top flat.now → outside ≡ length (shape_of top).memories
        → AreMemories ms top flat.now v.numbers.items v.widths.items) }
{
    let mut all = Memories {
        numbers: Vec::new(alloc),
        widths: Vec::new(alloc),
    };
    for number in 0..flat.owners.len() {
        add_name(&mut all, flat, outside, number)?;
    }
    Ok(all)
}
