// The numbers and cells of the first cycle.

ghost use Rattle.std.specs.Prelude.{◌≡◌, ◌+◌, ◌*◌, ◌<◌, ◌%◌, ◌^◌, ◌++◌, ℕ, [], Some, length, get_or, replicate, slice_get, slice_index_or, IfOk, OnOk};
ghost use Rattle.std.specs.List.{flat_map};
ghost use Rattle.sim_tape.specs.Operators.{cells_of};
ghost use Rattle.vlog_design.specs.Environments.{lists_of};
ghost use Rattle.sim_design.specs.declared.drafts.Width.{Width as WidthTree};
ghost use Rattle.cycle_sim.specs.Firsts.{width_lists};

use sim_design::Width;
use std::alloc::{AllocError, Global};

/// Returns the low bits of a number.
pub fn cut(fill: u64, bits: u32) -> u64
    ensures { result ≡ fill % 2 ^ bits }
{
    if bits < 64 { fill % (1 << bits) } else { fill }
}

fn add_width(
    alloc: Global,
    all: &mut Vec<Vec<u64>>,
    width: &Width,
    fill: u64,
) -> Result<(), AllocError>
    ensures { OnOk result (cells_of all.new.items ≡ cells_of all.old.items ++ width_lists fill width.now) }
{
    let cells = width.cells as usize;
    all.push(vec![in alloc; cut(fill, width.bits); cells]?)?;
    all.push(vec![in alloc; 0; cells]?)?;
    Ok(())
}

// Adds the cells of the memories inside a design, all with one number, after those outside.
fn add_widths(
    alloc: Global,
    all: &mut Vec<Vec<u64>>,
    widths: &[Width],
    fill: u64,
) -> Result<(), AllocError>
    ensures { OnOk result (cells_of all.new.items ≡ cells_of all.old.items ++ flat_map (width_lists fill) widths.now) }
{
    for width in widths {
        add_width(alloc, all, width, fill)?;
    }
    Ok(())
}

// Allocates room for the numbers of all memories inside at once, and frees it: if a short text has more of them than there is memory
// for, memory runs out before the first one is filled.
fn ask_room(alloc: Global, widths: &[Width]) -> Result<(), AllocError> {
    let mut numbers: usize = 0;
    for width in widths {
        numbers = numbers.saturating_add((width.cells as usize).saturating_mul(2));
    }
    let _room = Vec::<u64>::with_capacity(alloc, numbers)?;
    Ok(())
}

fn cells_at(alloc: Global, memories: &[Vec<u64>], at: usize) -> Result<Vec<u64>, AllocError>
    ensures { IfOk result (λ v. v.items ≡ slice_index_or (lists_of memories.now) at []) }
{
    match memories.get(at) {
        Some(cells) => cells.as_slice().to_vec(alloc),
        None => Ok(Vec::new(alloc)),
    }
}

// Returns the cells of `count` memories around a design.
fn outside_cells(
    alloc: Global,
    memories: &[Vec<u64>],
    count: usize,
) -> Result<Vec<Vec<u64>>, AllocError>
    ensures count { IfOk result (λ v. length v.items ≡ count) }
    ensures lists { IfOk result (λ v. (i : ℕ) → i < count → get_or (cells_of v.items) i [] ≡ slice_index_or (lists_of memories.now) i []) }
{
    let mut all = Vec::new(alloc);
    for i in 0..count {
        let one = cells_at(alloc, memories, i)?;
        all.push(one)?;
    }
    Ok(all)
}

/// Returns the cells of `count` memories around a design, and after them those of the memories inside, all with one number.
pub fn first_cells(
    alloc: Global,
    memories: &[Vec<u64>],
    count: usize,
    widths: &[Width],
    fill: u64,
) -> Result<Vec<Vec<u64>>, AllocError>
    ensures outside { IfOk result (λ v. (i : ℕ) → i < count → get_or (cells_of v.items) i [] ≡ slice_index_or (lists_of memories.now) i []) }
    ensures inside { IfOk result (λ v. (i : ℕ) (w : WidthTree) → slice_get widths.now i ≡ Some w
        → (get_or (cells_of v.items) (count + 2 * i) [] ≡ replicate w.cells (fill % 2 ^ w.bits))
        × (get_or (cells_of v.items) (count + 2 * i + 1) [] ≡ replicate w.cells 0)) }
{
    ask_room(alloc, widths)?;
    let mut all = outside_cells(alloc, memories, count)?;
    add_widths(alloc, &mut all, widths, fill)?;
    Ok(all)
}
