// The instances of a design by number.

ghost use Rattle.std.specs.Prelude.{◌≡◌, ◌+◌, ◌<◌, ◌≤◌, ◌++◌, ℕ, List, map, length, get_or, IfOk, OnOk};
ghost use Rattle.vlog_tree.specs.Form.{ModuleTree};
ghost use Rattle.vlog_tree.specs.Table.{module_declared};
ghost use Rattle.vlog_design.specs.Designs.{TopOf};
ghost use Rattle.number_graph.specs.Graphs.{rows_of, targets_of};
ghost use Rattle.sim_flat.specs.Kinds.{kind_place, all_kinds};
ghost use Rattle.sim_flat.specs.Rows.{row_at, rows_inside, AreMore, AreRows, HaveDepth};
ghost use Rattle.sim_flat.specs.Instances.{AreInstances};
ghost use Rattle.sim_flat.specs.Sizes.{AreCounts, own_sum, KeepSums, CountsWithin};

use crate::kinds::{kinds_of, place_of};
use std::alloc::{AllocError, Global};
use tapa_base::Text;
use vlog_design::Design;
use vlog_scope::Scope;
use vlog_tree::Module;

/// An instance: the index of its module, and, but for the top, the number of the instance around it and its index among the
/// instances there; and how many instances are around it.
#[derive(Clone, Copy)]
pub struct Instance {
    pub kind: usize,
    pub around: usize,
    pub child: usize,
    pub depth: usize,
}

/// The instances of a design, and of each the number of the first one in it.
#[derive(Drop)]
pub struct Instances {
    pub rows: Vec<Instance>,
    pub first: Vec<usize>,
}

/// The indices of the modules of a module's instances, and none where there is no such module.
pub(crate) fn kinds_at(kinds: &[Vec<usize>], kind: usize) -> &[usize]
    ensures { result.now ≡ targets_of kinds.now kind }
{
    match kinds.get(kind) {
        Some(row) => row,
        None => &[],
    }
}

fn kind_of(rows: &[Instance], k: usize) -> usize
    requires { k < length rows.now }
    ensures { result ≡ (row_at rows.now k).kind }
{
    rows[k].kind
}

// The instances in one, from its module's instances.
fn add_inside(
    kinds: &[usize],
    around: usize,
    depth: usize,
    rows: &mut Vec<Instance>,
) -> Result<(), AllocError>
    ensures { OnOk result (rows.new.items ≡ rows.old.items ++ rows_inside around depth 0 kinds.now) }
{
    for (child, kind) in kinds.iter().enumerate() {
        rows.push(Instance {
            kind: *kind,
            around,
            child,
            depth,
        })?;
    }
    Ok(())
}

// The instances in the first one that has none yet.
fn add_next(kinds: &[Vec<usize>], depth: usize, all: &mut Instances) -> Result<(), AllocError>
    requires left { length all.old.first.items < length all.old.rows.items }
    requires depth { (row_at all.old.rows.items (length all.old.first.items)).depth + 1 ≡ depth }
    ensures done { OnOk result (length all.new.first.items ≡ length all.old.first.items + 1) }
    ensures more { OnOk result (AreMore all.old.rows.items all.new.rows.items) }
    ensures deeper { OnOk result (HaveDepth all.new.rows.items (length all.old.rows.items) (length all.new.rows.items) depth) }
    ensures rows { OnOk result ((top : ℕ) → AreRows (rows_of kinds.now) top all.old.rows.items all.old.first.items → AreRows (rows_of kinds.now) top all.new.rows.items all.new.first.items) }
    ensures sums { OnOk result (KeepSums (rows_of kinds.now) all.old.rows.items (length all.old.first.items) all.new.rows.items (length all.new.first.items)) }
{
    let around = all.first.len();
    let kind = kind_of(&all.rows, around);
    let count = all.rows.len();
    all.first.push(count)?;
    add_inside(kinds_at(kinds, kind), around, depth, &mut all.rows)?;
    Ok(())
}

// The instances in all those of one depth, which are the ones that have none yet.
fn add_level(kinds: &[Vec<usize>], depth: usize, all: &mut Instances) -> Result<(), AllocError>
    requires fewer { length all.old.first.items ≤ length all.old.rows.items }
    requires depth { (s : ℕ) → length all.old.first.items ≤ s → s < length all.old.rows.items → (row_at all.old.rows.items s).depth + 1 ≡ depth }
    ensures done { OnOk result (length all.new.first.items ≡ length all.old.rows.items) }
    ensures more { OnOk result (length all.old.rows.items ≤ length all.new.rows.items) }
    ensures deeper { OnOk result (HaveDepth all.new.rows.items (length all.old.rows.items) (length all.new.rows.items) depth) }
    ensures rows { OnOk result ((top : ℕ) → AreRows (rows_of kinds.now) top all.old.rows.items all.old.first.items → AreRows (rows_of kinds.now) top all.new.rows.items all.new.first.items) }
    ensures sums { OnOk result (KeepSums (rows_of kinds.now) all.old.rows.items (length all.old.first.items) all.new.rows.items (length all.new.first.items)) }
{
    let to = all.rows.len();
    let from = all.first.len();
    for _k in from..to {
        add_next(kinds, depth, all)?;
    }
    Ok(())
}

// The top, with room for the given number of instances.
fn top_alone(alloc: Global, top: usize, room: usize) -> Result<Instances, AllocError>
    ensures first { IfOk result (λ v. length v.first.items ≡ 0) }
    ensures rows { IfOk result (λ v. length v.rows.items ≡ 1) }
    ensures top { IfOk result (λ v. ((row_at v.rows.items 0).kind ≡ top) × ((row_at v.rows.items 0).depth ≡ 0)) }
{
    let mut rows = Vec::with_capacity(alloc, room)?;
    rows.push(Instance {
        kind: top,
        around: 0,
        child: 0,
        depth: 0,
    })?;
    Ok(Instances {
        rows,
        first: Vec::new(alloc),
    })
}

// The instances that fewer others are around than there are modules.
fn all_levels(
    alloc: Global,
    kinds: &[Vec<usize>],
    top: usize,
    room: usize,
) -> Result<Instances, AllocError>
    ensures rows { IfOk result (λ v. AreRows (rows_of kinds.now) top v.rows.items v.first.items) }
    ensures deepest { IfOk result (λ v. HaveDepth v.rows.items (length v.first.items) (length v.rows.items) (length kinds.now)) }
    ensures counted { IfOk result (λ v. CountsWithin (rows_of kinds.now) top v.rows.items (length v.first.items)) }
{
    let mut all = top_alone(alloc, top, room)?;
    for depth in 0..kinds.len() {
        add_level(kinds, depth + 1, &mut all)?;
    }
    Ok(all)
}

fn numbered(
    alloc: Global,
    modules: &[Module],
    names: &Scope,
    top: &Text,
    room: usize,
) -> Result<Instances, AllocError>
    requires { names.now ≡ map module_declared modules.now }
    ensures rows { IfOk result (λ v. AreRows (all_kinds (map module_declared modules.now) modules.now) (kind_place (map module_declared modules.now) top.now) v.rows.items v.first.items) }
    ensures deepest { IfOk result (λ v. HaveDepth v.rows.items (length v.first.items) (length v.rows.items) (length modules.now)) }
    ensures counted { IfOk result (λ v. CountsWithin (all_kinds (map module_declared modules.now) modules.now) (kind_place (map module_declared modules.now) top.now) v.rows.items
        (length v.first.items)) }
{
    let kinds = kinds_of(alloc, names, modules)?;
    let place = place_of(names, top);
    let all = all_levels(alloc, &kinds, place, room)?;
    Ok(all)
}

/// The instances of a design: number 0 is the top, and the instances in one have numbers one after the other, in the order of
/// the text. Room for the given number of them is taken first.
pub fn instances_of(alloc: Global, design: &Design, room: usize) -> Result<Instances, AllocError>
    ensures instances { IfOk result (λ v. (m : ModuleTree) → TopOf design.now m → AreInstances design.now.modules m v.rows.items v.first.items) }
    ensures counted { IfOk result (λ v. (m : ModuleTree) → TopOf design.now m → (own : ℕ → ℕ) (counts : List ℕ)
        → AreCounts (all_kinds (map module_declared design.now.modules) design.now.modules) own counts
        → get_or counts (kind_place (map module_declared design.now.modules) m.name) 0 ≤ own_sum own v.rows.items) }
{
    let modules = design.modules();
    let name = design.top().name();
    let all = numbered(alloc, modules, design.names(), name, room)?;
    Ok(all)
}
