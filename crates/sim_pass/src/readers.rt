// By slots, the blocks that read them.

ghost use Rattle.std.specs.Prelude.{◌≡◌, ◌≤◌, ℕ, length, IfOk, OnOk};
ghost use Rattle.sim_pass.specs.Marks.{AreReaders, IsReader, KeepsReaders, Lists, ReadsThem};
ghost use Rattle.sim_pass.specs.Orders.{AllReads, PairReads, WideReads};
ghost use Rattle.sim_pass.specs.Rows.{gate_of, gates_in};
ghost use Rattle.sim_pass.specs.Runs.{AreRuns};
ghost use Rattle.sim_tape.specs.Tape.{wide_at};

use crate::rows::Row;
use crate::runs::GateRun;
use sim_tape::{Pair, Rule, Wide};
use std::alloc::{AllocError, Global};

// Appends a block to a list, unless it is the last of it.
fn add_block(list: &mut Vec<u32>, block: u32) -> Result<(), AllocError>
    ensures kept { OnOk result ((k : ℕ) → Lists list.old.items k → Lists list.new.items k) }
    ensures added { OnOk result (Lists list.new.items block) }
{
    let len = list.len();
    if len > 0 && list[len - 1] == block {
        return Ok(());
    }
    list.push(block)?;
    Ok(())
}

fn add_reader(readers: &mut [Vec<u32>], slot: u32, block: u32) -> Result<(), AllocError>
    ensures kept { OnOk result (KeepsReaders readers.old readers.new) }
    ensures added { OnOk result (IsReader readers.new block slot) }
{
    let at = slot as usize;
    if at >= readers.len() {
        return Err(AllocError);
    }
    add_block(&mut readers[at], block)?;
    Ok(())
}

fn add_pair(readers: &mut [Vec<u32>], pair: Pair, block: u32) -> Result<(), AllocError>
    ensures kept { OnOk result (KeepsReaders readers.old readers.new) }
    ensures added { OnOk result (PairReads pair (IsReader readers.new block)) }
{
    add_reader(readers, pair.low, block)?;
    add_reader(readers, pair.high, block)?;
    Ok(())
}

fn add_wide(readers: &mut [Vec<u32>], wides: &[Wide], at: u32, block: u32) -> Result<(), AllocError>
    ensures kept { OnOk result (KeepsReaders readers.old readers.new) }
    ensures added { OnOk result (WideReads (wide_at wides.now at) (IsReader readers.new block)) }
{
    let at = at as usize;
    if at >= wides.len() {
        return Err(AllocError);
    }
    let wide = wides[at];
    add_pair(readers, wide.left, block)?;
    add_pair(readers, wide.right, block)?;
    Ok(())
}

fn add_three(readers: &mut [Vec<u32>], a: u32, b: u32, c: u32, block: u32) -> Result<(), AllocError>
    ensures kept { OnOk result (KeepsReaders readers.old readers.new) }
    ensures added { OnOk result (IsReader readers.new block a × IsReader readers.new block b × IsReader readers.new block c) }
{
    add_reader(readers, a, block)?;
    add_reader(readers, b, block)?;
    add_reader(readers, c, block)?;
    Ok(())
}

// A block reads all slots that a row of it reads.
fn add_row(
    readers: &mut [Vec<u32>],
    wides: &[Wide],
    rule: Rule,
    row: &Row,
    block: u32,
) -> Result<(), AllocError>
    ensures kept { OnOk result (KeepsReaders readers.old readers.new) }
    ensures added { OnOk result (AllReads wides.now rule (gate_of row.now) (IsReader readers.new block)) }
{
    match rule {
        Rule::Given => Ok(()),
        Rule::Constant => Ok(()),
        Rule::Of(_) => add_three(readers, row.a, row.b, row.c, block),
        Rule::Low => add_wide(readers, wides, row.a, block),
        Rule::High => add_wide(readers, wides, row.a, block),
    }
}

fn add_rows(
    readers: &mut [Vec<u32>],
    wides: &[Wide],
    rows: &[Row],
    run: &GateRun,
    block: u32,
) -> Result<(), AllocError>
    requires { run.now.to ≤ length rows.now }
    ensures kept { OnOk result (KeepsReaders readers.old readers.new) }
    ensures added { OnOk result (ReadsThem wides.now (gates_in rows.now) readers.new run.now.rule run.now.from run.now.to block) }
{
    let rule = run.rule;
    for i in run.from..run.to {
        add_row(readers, wides, rule, &rows[i], block)?;
    }
    Ok(())
}

fn no_readers(alloc: Global, slots: usize) -> Result<Vec<Vec<u32>>, AllocError> {
    let mut readers = Vec::with_capacity(alloc, slots)?;
    for _ in 0..slots {
        readers.push(Vec::new(alloc))?;
    }
    Ok(readers)
}

/// By slots, the blocks that read them.
pub(crate) fn readers_of(
    alloc: Global,
    slots: usize,
    wides: &[Wide],
    rows: &[Row],
    blocks: &[GateRun],
) -> Result<Vec<Vec<u32>>, AllocError>
    requires { AreRuns (gates_in rows.now) 0 (length (gates_in rows.now)) blocks.now }
    ensures { IfOk result (λ r. AreReaders wides.now (gates_in rows.now) blocks.now (length blocks.now) r.items) }
{
    let mut readers = no_readers(alloc, slots)?;
    for k in 0..blocks.len() {
        if k >= u32::MAX as usize {
            return Err(AllocError);
        }
        add_rows(&mut readers, wides, rows, &blocks[k], k as u32)?;
    }
    Ok(readers)
}
