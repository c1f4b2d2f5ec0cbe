// What registers and memories have in the next cycle, instance by instance.

ghost use Rattle.std.specs.Prelude.{◌≡◌, ◌+◌, ◌++◌, ◌<◌, ◌≤◌, [], length, option_copied, IfOk, IfSome, OnOk, IsSome, IsTrue};
ghost use Rattle.std.specs.Bool.{OnTrue};
ghost use Rattle.std.specs.List.{AllByRecursion};
ghost use Rattle.vlog_tree.specs.Form.{ModuleTree};
ghost use Rattle.sim_tape.specs.Tape.{TapeTree, Extends, IsTape};
ghost use Rattle.sim_tape.specs.Trees.{tree_of};
ghost use Rattle.sim_gates.specs.Nets.{SlotsBefore};
ghost use Rattle.sim_gates.specs.Ready.{IsReady};
ghost use Rattle.sim_design.specs.Commits.{commits_below};
ghost use Rattle.sim_design.specs.Left.{own_pairs, module_of_instance, AreLeft, AreLinesAdded};
ghost use Rattle.sim_design.specs.Drafts.{AreNext};
ghost use Rattle.sim_design.specs.Below.{HasPlaces, AreNextBelow};

use crate::drafts::TapeDraft;
use crate::next::{add_commits, add_stores};
use crate::slices::part_of;
use sim_flat::{Flat, Table, base_at, table_at};
use sim_gates::{Nets, Writes, blocks_of};
use sim_tape::{Pair, Tape};
use std::alloc::{AllocError, Global};
use vlog_tree::Module;

// The module of an instance.
fn module_at<'a>(flat: &Flat, modules: &'a [Module], k: usize) -> Option<&'a Module>
    ensures { option_copied result ≡ module_of_instance modules.now flat.now k }
{
    match flat.instances.get(k) {
        Some(row) => modules.get(row.kind),
        None => None,
    }
}

// The blocks of one instance over the pairs and memories of all; none where a net that they read has no slots.
fn blocks_at(
    alloc: Global,
    tape: &mut Tape,
    table: &Table,
    m: &Module,
    base: usize,
    pairs: &[Option<Pair>],
    memories: &[Option<Pair>],
) -> Result<Option<Writes>, AllocError>
    requires tape { IsTape (tree_of tape.old) }
    requires slots { SlotsBefore pairs.now (length (tree_of tape.old).gates) }
    ensures extends { Extends (tree_of tape.old) (tree_of tape.new) }
    ensures left { base + length table.now.scope ≤ length pairs.now → base + length table.now.scope ≤ length memories.now
        → IfOk result (λ o. IfSome o (λ b. AreLeft table.now.scope (own_pairs base table.now.scope pairs.now) (own_pairs base table.now.scope memories.now) m.now.items
        (tree_of tape.new) b.next.items b.stores.items)) }
    ensures some { base + length table.now.scope ≤ length pairs.now → base + length table.now.scope ≤ length memories.now
        → AllByRecursion (IsReady table.now.scope (own_pairs base table.now.scope pairs.now) (own_pairs base table.now.scope memories.now)) m.now.items → IfOk result (λ o. IsSome o) }
{
    let count = table.scope.declarations().len();
    let nets = Nets {
        scope: &table.scope,
        pairs: part_of(pairs, base, count),
        memories: part_of(memories, base, count),
    };
    let blocks = blocks_of(alloc, tape, &nets, m.items())?;
    Ok(blocks)
}

// What the blocks of an instance leave is added to what others leave.
fn add_blocks(
    draft: &mut TapeDraft,
    table: &Table,
    base: usize,
    blocks: &Writes,
) -> Result<(), AllocError>
    ensures tape { draft.new.tape ≡ draft.old.tape }
    ensures pairs { draft.new.pairs.items ≡ draft.old.pairs.items }
    ensures memories { draft.new.memories.items ≡ draft.old.memories.items }
    ensures cells { draft.new.cells.items ≡ draft.old.cells.items }
    ensures commits { base + length table.now.scope ≤ length draft.old.pairs.items
        → OnOk result (draft.new.commits.items ≡ draft.old.commits.items ++ commits_below table.now.scope
        (own_pairs base table.now.scope draft.old.pairs.items) blocks.now.next.items (length table.now.scope)) }
    ensures stores { OnOk result (draft.new.stores.items ≡ draft.old.stores.items ++ blocks.now.stores.items) }
{
    let count = table.scope.declarations().len();
    let pairs = part_of(&draft.pairs, base, count);
    add_commits(&mut draft.commits, table, pairs, &blocks.next)?;
    add_stores(&mut draft.stores, &blocks.stores)?;
    Ok(())
}

// The blocks of one instance; false where a net that they read has no slots.
fn add_instance(
    alloc: Global,
    draft: &mut TapeDraft,
    table: &Table,
    m: &Module,
    base: usize,
) -> Result<bool, AllocError>
    requires tape { IsTape (tree_of draft.old.tape) }
    requires slots { SlotsBefore draft.old.pairs.items (length (tree_of draft.old.tape).gates) }
    ensures extends { Extends (tree_of draft.old.tape) (tree_of draft.new.tape) }
    ensures pairs { draft.new.pairs.items ≡ draft.old.pairs.items }
    ensures memories { draft.new.memories.items ≡ draft.old.memories.items }
    ensures cells { draft.new.cells.items ≡ draft.old.cells.items }
    ensures added { base + length table.now.scope ≤ length draft.old.pairs.items → base + length table.now.scope ≤ length draft.old.memories.items
        → IfOk result (λ done. OnTrue done (AreLinesAdded table.now.scope base m.now.items draft.old.pairs.items draft.old.memories.items
        (tree_of draft.new.tape) draft.old.commits.items draft.new.commits.items draft.old.stores.items draft.new.stores.items)) }
    ensures some { base + length table.now.scope ≤ length draft.old.pairs.items → base + length table.now.scope ≤ length draft.old.memories.items
        → AllByRecursion (IsReady table.now.scope (own_pairs base table.now.scope draft.old.pairs.items)
        (own_pairs base table.now.scope draft.old.memories.items)) m.now.items → IfOk result (λ done. IsTrue done) }
{
    let found = blocks_at(
        alloc,
        &mut draft.tape,
        table,
        m,
        base,
        &draft.pairs,
        &draft.memories,
    )?;
    let Some(blocks) = found else {
        return Ok(false);
    };
    add_blocks(draft, table, base, &blocks)?;
    Ok(true)
}

// The blocks of the instance with this number.
fn add_row(
    alloc: Global,
    draft: &mut TapeDraft,
    flat: &Flat,
    modules: &[Module],
    instance: usize,
) -> Result<bool, AllocError>
    requires tape { IsTape (tree_of draft.old.tape) }
    requires slots { SlotsBefore draft.old.pairs.items (length (tree_of draft.old.tape).gates) }
    ensures extends { Extends (tree_of draft.old.tape) (tree_of draft.new.tape) }
    ensures pairs { draft.new.pairs.items ≡ draft.old.pairs.items }
    ensures memories { draft.new.memories.items ≡ draft.old.memories.items }
    ensures cells { draft.new.cells.items ≡ draft.old.cells.items }
    ensures more { (top : ModuleTree) (t : TapeTree) → HasPlaces modules.now top flat.now draft.old.pairs.items draft.old.memories.items draft.old.cells.items t
        → instance < length flat.now.instances.items
        → AreNextBelow modules.now top flat.now draft.old.pairs.items draft.old.memories.items (tree_of draft.old.tape) draft.old.commits.items draft.old.stores.items instance
        → IfOk result (λ done. OnTrue done (AreNextBelow modules.now top flat.now draft.old.pairs.items draft.old.memories.items
        (tree_of draft.new.tape) draft.new.commits.items draft.new.stores.items (instance + 1))) }
    ensures some { (top : ModuleTree) (t : TapeTree) → HasPlaces modules.now top flat.now draft.old.pairs.items draft.old.memories.items draft.old.cells.items t
        → instance < length flat.now.instances.items → IfOk result (λ done. IsTrue done) }
{
    let Some(table) = table_at(flat, instance) else {
        return Ok(false);
    };
    let Some(m) = module_at(flat, modules, instance) else {
        return Ok(false);
    };
    let base = base_at(flat, instance);
    let done = add_instance(alloc, draft, table, m, base)?;
    Ok(done)
}

/// What the blocks of all instances leave; false where a net that they read has no slots.
pub(crate) fn add_next(
    alloc: Global,
    draft: &mut TapeDraft,
    flat: &Flat,
    modules: &[Module],
) -> Result<bool, AllocError>
    requires tape { IsTape (tree_of draft.old.tape) }
    requires slots { SlotsBefore draft.old.pairs.items (length (tree_of draft.old.tape).gates) }
    requires commits { draft.old.commits.items ≡ [] }
    requires stores { draft.old.stores.items ≡ [] }
    ensures extends { Extends (tree_of draft.old.tape) (tree_of draft.new.tape) }
    ensures pairs { draft.new.pairs.items ≡ draft.old.pairs.items }
    ensures memories { draft.new.memories.items ≡ draft.old.memories.items }
    ensures cells { draft.new.cells.items ≡ draft.old.cells.items }
    ensures next { (top : ModuleTree) (t : TapeTree) → HasPlaces modules.now top flat.now draft.old.pairs.items draft.old.memories.items draft.old.cells.items t
        → IfOk result (λ done. OnTrue done (AreNext modules.now top flat.now draft.old.pairs.items draft.old.memories.items
        (tree_of draft.new.tape) draft.new.commits.items draft.new.stores.items)) }
    ensures some { (top : ModuleTree) (t : TapeTree) → HasPlaces modules.now top flat.now draft.old.pairs.items draft.old.memories.items draft.old.cells.items t
        → IfOk result (λ done. IsTrue done) }
{
    for instance in 0..flat.instances.len() {
        if !add_row(alloc, draft, flat, modules, instance)? {
            return Ok(false);
        }
    }
    Ok(true)
}
