// Marks of the blocks that are to be worked out.

ghost use Rattle.std.specs.Prelude.{◌≡◌, ℕ, true};
ghost use Rattle.sim_pass.specs.Marks.{is_marked as is_marked_lem, CellsMarked, HasMarks, KeepsMarks, Lists};

use crate::runs::GateRun;
use sim_tape::{Operator, Rule};

/// Whether a block is marked; one that has no mark of its own is.
pub(crate) fn is_marked(marks: &[bool], block: usize) -> bool
    ensures { result ≡ is_marked_lem marks.now block }
{
    match marks.get(block) {
        Some(mark) => *mark,
        None => true,
    }
}

fn mark(marks: &mut [bool], block: usize)
    ensures kept { KeepsMarks marks.old marks.new }
    ensures marked { is_marked_lem marks.new block ≡ true }
{
    if block < marks.len() {
        marks[block] = true;
    }
}

fn mark_all(marks: &mut [bool], blocks: &[u32])
    ensures kept { KeepsMarks marks.old marks.new }
    ensures marked { (k : ℕ) → Lists blocks.now k → is_marked_lem marks.new k ≡ true }
{
    for block in blocks {
        mark(marks, *block as usize);
    }
}

/// Marks the blocks that read a slot.
pub(crate) fn mark_readers(marks: &mut [bool], readers: &[Vec<u32>], slot: u32)
    ensures kept { KeepsMarks marks.old marks.new }
    ensures marked { HasMarks readers.now marks.new slot }
{
    let at = slot as usize;
    if at < readers.len() {
        mark_all(marks, &readers[at]);
    }
}

// Marks the blocks that read cells of memories.
fn mark_cells(marks: &mut [bool], blocks: &[GateRun])
    ensures { CellsMarked blocks.now marks.new }
{
    for k in 0..blocks.len() {
        if blocks[k].rule == Rule::Of(Operator::Cell) {
            mark(marks, k);
        }
    }
}

/// Marks the blocks that read cells of memories, if some are written.
pub(crate) fn mark_written(marks: &mut [bool], blocks: &[GateRun], is_written: bool)
    ensures { is_written ≡ true → CellsMarked blocks.now marks.new }
{
    if is_written {
        mark_cells(marks, blocks);
    }
}

/// Takes all marks away.
pub(crate) fn clear(marks: &mut [bool]) {
    for k in 0..marks.len() {
        marks[k] = false;
    }
}
