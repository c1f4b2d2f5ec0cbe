// What registers take over, pair by pair, and what is stored.

ghost use Rattle.std.specs.Prelude.{◌≡◌, ◌++◌, None, get_or, slice_get, length, OnOk};
ghost use Rattle.vlog_tree.specs.Table.{net_kind_is_register};
ghost use Rattle.sim_design.specs.Commits.{commits_of, commits_at, has_register, commits_for, commits_below};

use crate::drafts::Commit;
use sim_flat::Table;
use sim_gates::Store;
use sim_tape::Pair;
use std::alloc::AllocError;
use vlog_tree::{Declaration, NetKind};

// A register takes over the numbers of a pair; slot 0 has none.
fn add_commit(commits: &mut Vec<Commit>, pair: Pair, next: Pair) -> Result<(), AllocError>
    ensures { OnOk result (commits.new.items ≡ commits.old.items ++ commits_of pair next) }
{
    commits.push(Commit {
        slot: pair.low,
        next: next.low,
    })?;
    if pair.high == 0 {
        return Ok(());
    }
    commits.push(Commit {
        slot: pair.high,
        next: next.high,
    })?;
    Ok(())
}

fn pair_at(pairs: &[Option<Pair>], place: usize) -> Option<Pair>
    ensures { result ≡ get_or pairs.now place None }
{
    match pairs.get(place) {
        Some(pair) => *pair,
        None => None,
    }
}

// What the register at an index takes over, where it has slots.
fn add_pairs(
    commits: &mut Vec<Commit>,
    old: Option<Pair>,
    new: Option<Pair>,
) -> Result<(), AllocError>
    ensures { OnOk result (commits.new.items ≡ commits.old.items ++ commits_at old new) }
{
    let Some(pair) = old else {
        return Ok(());
    };
    let Some(next) = new else {
        return Ok(());
    };
    add_commit(commits, pair, next)?;
    Ok(())
}

fn is_register_at(names: &[Declaration], place: usize) -> bool
    ensures { result ≡ has_register (slice_get names.now place) }
{
    match names.get(place) {
        Some(d) => is_register(d.net_kind),
        None => false,
    }
}

fn add_place(
    commits: &mut Vec<Commit>,
    names: &[Declaration],
    place: usize,
    pairs: &[Option<Pair>],
    next: &[Option<Pair>],
) -> Result<(), AllocError>
    ensures { OnOk result (commits.new.items ≡ commits.old.items ++ commits_for (slice_get names.now place) (get_or pairs.now place None) (get_or next.now place None)) }
{
    if !is_register_at(names, place) {
        return Ok(());
    }
    add_pairs(commits, pair_at(pairs, place), pair_at(next, place))?;
    Ok(())
}

fn is_register(net_kind: NetKind) -> bool
    ensures { result ≡ net_kind_is_register net_kind }
{
    match net_kind {
        NetKind::Register => true,
        NetKind::Unknown => false,
        NetKind::Input => false,
        NetKind::Output => false,
        NetKind::WireNet => false,
        NetKind::MemoryArray => false,
        NetKind::ChildInstance => false,
    }
}

/// What the registers of an instance take over.
pub(crate) fn add_commits(
    commits: &mut Vec<Commit>,
    table: &Table,
    pairs: &[Option<Pair>],
    next: &[Option<Pair>],
) -> Result<(), AllocError>
    ensures { OnOk result (commits.new.items ≡ commits.old.items ++ commits_below table.now.scope pairs.now next.now (length table.now.scope)) }
{
    let names = table.scope.declarations();
    for place in 0..names.len() {
        add_place(commits, names, place, pairs, next)?;
    }
    Ok(())
}

/// Appends stores to others.
pub(crate) fn add_stores(stores: &mut Vec<Store>, more: &[Store]) -> Result<(), AllocError>
    ensures { OnOk result (stores.new.items ≡ stores.old.items ++ more.now) }
{
    for store in more {
        stores.push(*store)?;
    }
    Ok(())
}
