// The modules that no other contains.

ghost use Rattle.std.specs.Prelude.{◌≡◌, ◌++◌, ◌∷◌, ◌==◌, ℕ, List, Some, length, slice_get, IfOk, OnOk};
ghost use Rattle.std.specs.Option.{option_copied};
ghost use Rattle.std.specs.List.{flat_map};
ghost use Rattle.vlog_tree.specs.Form.{ModuleTree};
ghost use Rattle.vlog_scope.specs.NameTable.{CountsTo};
ghost use Rattle.vlog_tree.specs.Table.{times_in};
ghost use Rattle.vlog_tree.specs.V6.{item_children, module_children, contained_names, roots_among, first_name};

use std::alloc::{AllocError, Global};
use tapa_base::Text;
use vlog_scope::{NameCounts, count_of, count_one};
use vlog_tree::{Item, Module};

#[tactic(auto, using(vlog_rules::proofs::Counts::one_name_more, vlog_rules::proofs::Counts::no_name_more))]
fn count_child(alloc: Global, counts: &mut NameCounts, item: &Item) -> Result<(), AllocError>
    ensures { OnOk result ((names : List (List ℕ)) → CountsTo counts.old (times_in names) → CountsTo counts.new (times_in (names ++ item_children item.now))) }
{
    match item {
        Item::Instance { module: m, .. } => count_one(alloc, counts, m.bytes()),
        Item::Wire { .. } => Ok(()),
        Item::Reg { .. } => Ok(()),
        Item::Memory { .. } => Ok(()),
        Item::Assign { .. } => Ok(()),
        Item::Always(_) => Ok(()),
    }
}

#[tactic(auto, unfolding(vlog_tree::specs::V6::module_children))]
fn count_children(alloc: Global, counts: &mut NameCounts, m: &Module) -> Result<(), AllocError>
    ensures { OnOk result ((names : List (List ℕ)) → CountsTo counts.old (times_in names) → CountsTo counts.new (times_in (names ++ module_children m.now))) }
{
    for i in m.items() {
        count_child(alloc, counts, i)?;
    }
    Ok(())
}

/// How often each module is contained.
pub(crate) fn contained_counts(alloc: Global, modules: &[Module]) -> Result<NameCounts, AllocError>
    ensures { IfOk result (λ counts. CountsTo counts (times_in (contained_names modules.now))) }
{
    let mut counts = NameCounts::new(alloc);
    for m in modules {
        count_children(alloc, &mut counts, m)?;
    }
    Ok(counts)
}

#[tactic(auto, using(vlog_rules::proofs::Counts::none))]
fn is_root(counts: &NameCounts, m: &Module) -> bool
    ensures { (names : List (List ℕ)) → CountsTo counts.now (times_in names) → result ≡ (times_in names m.now.name == 0) }
{
    count_of(counts, m.name().bytes()) == 0
}

/// The name of the first module that no other contains.
pub(crate) fn first_root<'a>(counts: &NameCounts, modules: &'a [Module]) -> Option<&'a Text>
    ensures { (names : List (List ℕ)) → CountsTo counts.now (times_in names) → option_copied result ≡ first_name (roots_among names modules.now) }
{
    for m in modules {
        if is_root(counts, m) {
            return Some(m.name());
        }
    }
    None
}

/// How many modules no other contains.
pub(crate) fn count_roots(counts: &NameCounts, modules: &[Module]) -> usize
    ensures { (names : List (List ℕ)) → CountsTo counts.now (times_in names) → result ≡ length (roots_among names modules.now) }
{
    let mut count = 0;
    for m in modules {
        if is_root(counts, m) {
            count += 1;
        }
    }
    count
}

/// The index of the first module that no other contains, and 0 where there is none.
pub(crate) fn root_place(counts: &NameCounts, modules: &[Module]) -> usize
    ensures { (names : List (List ℕ)) → CountsTo counts.now (times_in names) → (m : ModuleTree) (rest : List ModuleTree) → roots_among names modules.now ≡ m ∷ rest
        → slice_get modules.now result ≡ Some m }
{
    for place in 0..modules.len() {
        if is_root(counts, &modules[place]) {
            return place;
        }
    }
    0
}
