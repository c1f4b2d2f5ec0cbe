// What a design holds in the next cycle.

ghost use Rattle.std.specs.Prelude.{◌≡◌, ◌==◌, ◌&&◌, if◌then◌else◌, ◌+◌, suc, [], length, IfOk, IfSome, is_some};
ghost use Rattle.std.specs.List.{list_all, AllByRecursion};
ghost use Rattle.vlog_tree.specs.Grounded.{AllTwo};
ghost use Rattle.vlog_tree.specs.Environment.{set_cell};
ghost use Rattle.vlog_ref_cycle.specs.Moments.{InEachRun, HeldIs, IsAt};
ghost use Rattle.vlog_ref_cycle.specs.Next.{held_known, outside_known, next_known, stored_cells, IsAfterStore, IsCopy, IsAlike, IsSameMemory, IsKept};

use crate::blocks::{block_reads, run_items};
use crate::numbers::all_numbers;
use crate::places::{copy_path, module_at};
use crate::streams::top_number;
use std::alloc::{AllocError, Global};
use vlog_tree::{ack_name, addr_name, wdata_name, we_name};
use vlog_values::{Circuit, Held, MemoryCells, Moment, NetNumber, OutsideMemory, Scope};

fn copy_nets(alloc: Global, nets: &[NetNumber]) -> Result<Vec<NetNumber>, AllocError>
    ensures { IfOk result (λ v. v.items ≡ nets.now) }
{
    let mut out = Vec::new(alloc);
    for n in nets {
        let name = n.name.copy(alloc)?;
        out.push(NetNumber {
            name,
            bits: n.bits,
            number: n.number,
        })?;
    }
    Ok(out)
}

fn copy_memory(alloc: Global, m: &MemoryCells) -> Result<MemoryCells, AllocError>
    ensures { IfOk result (λ k. IsCopy m.now k) }
{
    let name = m.name.copy(alloc)?;
    let cells = m.cells.as_slice().to_vec(alloc)?;
    Ok(MemoryCells { name, cells })
}

fn copy_memories(alloc: Global, memories: &[MemoryCells]) -> Result<Vec<MemoryCells>, AllocError>
    ensures { IfOk result (λ v. AllTwo IsCopy memories.now v.items) }
{
    let mut out = Vec::new(alloc);
    for m in memories {
        out.push(copy_memory(alloc, m)?)?;
    }
    Ok(out)
}

fn copy_held(alloc: Global, h: &Held) -> Result<Held, AllocError>
    ensures path { IfOk result (λ k. k.path.items ≡ h.now.path.items) }
    ensures nets { IfOk result (λ k. k.nets.items ≡ h.now.nets.items) }
    ensures memories { IfOk result (λ k. AllTwo IsCopy h.now.memories.items k.memories.items) }
{
    let path = copy_path(alloc, &h.path)?;
    let nets = copy_nets(alloc, &h.nets)?;
    let memories = copy_memories(alloc, &h.memories)?;
    Ok(Held {
        path,
        nets,
        memories,
    })
}

fn held_after(
    alloc: Global,
    design: &Circuit,
    now: &Moment,
    h: &Held,
    depth: u32,
) -> Result<Option<Held>, AllocError>
    ensures known { IfOk result (λ o. is_some o ≡ held_known design.now now.now depth h.now) }
    ensures alike { IfOk result (λ o. IfSome o (λ k. IsAlike h.now k)) }
    ensures value { IfOk result (λ o. IfSome o (λ k. InEachRun design.now now.now
        (λ env nets. HeldIs design.now.modules.now design.now.top.now (nets now.now.cycle) h.now
        → HeldIs design.now.modules.now design.now.top.now (nets (suc now.now.cycle)) k))) }
{
    let Some(m) = module_at(design.modules, design.top, &h.path) else {
        return Ok(None);
    };
    let scope = Scope::of_module(m);
    let reads = block_reads(alloc, &scope, m.items())?;
    match all_numbers(alloc, design, now, &h.path, &reads, depth)? {
        Some(nets) => {
            let mut after = copy_held(alloc, h)?;
            run_items(alloc, &nets, m.items(), &mut after)?;
            Ok(Some(after))
        }
        None => Ok(None),
    }
}

fn all_held_after(
    alloc: Global,
    design: &Circuit,
    now: &Moment,
    depth: u32,
) -> Result<Option<Vec<Held>>, AllocError>
    ensures known { IfOk result (λ o. is_some o ≡ list_all (held_known design.now now.now depth) now.now.held.items) }
    ensures alike { IfOk result (λ o. IfSome o (λ v. AllTwo IsAlike now.now.held.items v.items)) }
    ensures value { IfOk result (λ o. IfSome o (λ v. InEachRun design.now now.now (λ env nets.
        AllByRecursion (HeldIs design.now.modules.now design.now.top.now (nets (suc now.now.cycle))) v.items))) }
{
    let mut out = Vec::new(alloc);
    for h in &now.held {
        match held_after(alloc, design, now, h, depth)? {
            Some(after) => out.push(after)?,
            None => return Ok(None),
        }
    }
    Ok(Some(out))
}

// Cells after the store of a cycle, if there is one.
fn stored(mut cells: Vec<u128>, ack: u128, we: u128, addr: u128, wdata: u128) -> Vec<u128>
    ensures { result.items ≡ (if (ack == 1) && (we == 1) then set_cell cells.items addr wdata else cells.items) }
{
    if ack == 1 && we == 1 && addr < cells.len() as u128 {
        cells[addr as usize] = wdata;
    }
    cells
}

#[tactic(auto, using(vlog_run_laws::proofs::runs::Ascii::ack_ascii, vlog_run_laws::proofs::runs::Ascii::we_ascii, vlog_run_laws::proofs::runs::Ascii::addr_ascii, vlog_run_laws::proofs::runs::Ascii::wdata_ascii))]
fn top_cells(
    alloc: Global,
    design: &Circuit,
    now: &Moment,
    m: &OutsideMemory,
    depth: u32,
) -> Result<Option<Vec<u128>>, AllocError>
    ensures known { IfOk result (λ o. is_some o ≡ outside_known design.now now.now depth m.now) }
    ensures size { IfOk result (λ o. IfSome o (λ v. length v.items ≡ length m.now.cells.items)) }
    ensures value { IfOk result (λ o. IfSome o (λ v. InEachRun design.now now.now (λ env nets. v.items ≡ stored_cells (nets now.now.cycle []) m.now.name m.now.cells.items))) }
{
    let label = m.name.bytes();
    let Some(ack) = top_number(alloc, design, now, ack_name(alloc, label)?, depth)? else {
        return Ok(None);
    };
    let Some(we) = top_number(alloc, design, now, we_name(alloc, label)?, depth)? else {
        return Ok(None);
    };
    let Some(addr) = top_number(alloc, design, now, addr_name(alloc, label)?, depth)? else {
        return Ok(None);
    };
    let Some(wdata) = top_number(alloc, design, now, wdata_name(alloc, label)?, depth)? else {
        return Ok(None);
    };
    let cells = m.cells.as_slice().to_vec(alloc)?;
    Ok(Some(stored(cells, ack, we, addr, wdata)))
}

/// A memory around the design after the store of this cycle.
fn outside_after(
    alloc: Global,
    design: &Circuit,
    now: &Moment,
    m: &OutsideMemory,
    depth: u32,
) -> Result<Option<OutsideMemory>, AllocError>
    ensures known { IfOk result (λ o. is_some o ≡ outside_known design.now now.now depth m.now) }
    ensures same { IfOk result (λ o. IfSome o (λ j. IsSameMemory m.now j)) }
    ensures value { IfOk result (λ o. IfSome o (λ j. InEachRun design.now now.now (λ env nets. IsAfterStore (nets now.now.cycle []) m.now j))) }
{
    match top_cells(alloc, design, now, m, depth)? {
        Some(cells) => {
            let name = m.name.copy(alloc)?;
            let ready = m.ready.as_slice().to_vec(alloc)?;
            Ok(Some(OutsideMemory { name, cells, ready }))
        }
        None => Ok(None),
    }
}

fn all_outside_after(
    alloc: Global,
    design: &Circuit,
    now: &Moment,
    depth: u32,
) -> Result<Option<Vec<OutsideMemory>>, AllocError>
    ensures known { IfOk result (λ o. is_some o ≡ list_all (outside_known design.now now.now depth) now.now.outside.items) }
    ensures same { IfOk result (λ o. IfSome o (λ v. AllTwo IsSameMemory now.now.outside.items v.items)) }
    ensures value { IfOk result (λ o. IfSome o (λ v. InEachRun design.now now.now (λ env nets. AllTwo (IsAfterStore (nets now.now.cycle [])) now.now.outside.items v.items))) }
{
    let mut out = Vec::new(alloc);
    for m in &now.outside {
        match outside_after(alloc, design, now, m, depth)? {
            Some(after) => out.push(after)?,
            None => return Ok(None),
        }
    }
    Ok(Some(out))
}

/// The next cycle, where each net that is read for it has its number by at most some steps.
pub fn next(
    alloc: Global,
    design: &Circuit,
    now: &Moment,
    depth: u32,
) -> Result<Option<Moment>, AllocError>
    ensures known { IfOk result (λ o. is_some o ≡ next_known design.now now.now depth) }
    ensures cycle { IfOk result (λ o. IfSome o (λ after. after.cycle ≡ now.now.cycle + 1)) }
    ensures kept { IfOk result (λ o. IfSome o (λ after. IsKept now.now after)) }
    ensures value { IfOk result (λ o. IfSome o (λ after. InEachRun design.now now.now (λ env nets. IsAt design.now.modules.now design.now.top.now env nets after))) }
{
    if now.cycle == u64::MAX {
        return Ok(None);
    }
    let Some(held) = all_held_after(alloc, design, now, depth)? else {
        return Ok(None);
    };
    let Some(outside) = all_outside_after(alloc, design, now, depth)? else {
        return Ok(None);
    };
    let scalars = copy_nets(alloc, &now.scalars)?;
    Ok(Some(Moment {
        cycle: now.cycle + 1,
        held,
        scalars,
        outside,
    }))
}
