// Instances by the way to them.

ghost use Rattle.std.specs.Prelude.{◌≡◌, ◌∷◌, ◌++◌, [], IfOk, OnOk};
ghost use Rattle.std.specs.Option.{option_copied};
ghost use Rattle.vlog_tree.specs.Cycle.{child_of as child_of_lem, module_at as module_at_lem};
ghost use Rattle.vlog_tree.specs.Table.{module_named as module_named_lem};
ghost use Rattle.vlog_ref_cycle.specs.Sources.{same_path as same_path_lem, held_at as held_at_lem};

use std::alloc::{AllocError, Global};
use tapa_base::Text;
use vlog_tree::{Item, Module};
use vlog_values::Held;

/// The first module of a name.
pub fn module_named<'a>(modules: &'a [Module], name: &Text) -> Option<&'a Module>
    ensures { option_copied result ≡ module_named_lem modules.now name.now }
{
    for m in modules {
        if m.name().bytes() == name.bytes() {
            return Some(m);
        }
    }
    None
}

fn child_in<'a>(item: &'a Item, name: &Text) -> Option<&'a Text>
    ensures { option_copied result ≡ child_of_lem (item.now ∷ []) name.now }
{
    match item {
        Item::Instance {
            module: m,
            name: i,
            ..
        } => {
            if i.bytes() == name.bytes() {
                Some(m)
            } else {
                None
            }
        }
        Item::Assign { .. } => None,
        Item::Wire { .. } => None,
        Item::Reg { .. } => None,
        Item::Memory { .. } => None,
        Item::Always(_) => None,
    }
}

#[tactic(auto, using(crate::proofs::Paths::child_first))]
fn child_of<'a>(items: &'a [Item], name: &Text) -> Option<&'a Text>
    ensures { option_copied result ≡ child_of_lem items.now name.now }
{
    for item in items {
        if let Some(m) = child_in(item, name) {
            return Some(m);
        }
    }
    None
}

/// The module at the end of a path.
pub(crate) fn module_at<'a>(
    modules: &'a [Module],
    top: &'a Module,
    path: &[Text],
) -> Option<&'a Module>
    ensures { option_copied result ≡ module_at_lem modules.now top.now path.now }
{
    if path.is_empty() {
        return Some(top);
    }
    let Some(outer) = module_at(modules, top, &path[1..]) else {
        return None;
    };
    match child_of(outer.items(), &path[0]) {
        Some(name) => module_named(modules, name),
        None => None,
    }
}

#[tactic(auto, using(crate::proofs::Paths::empty_same, crate::proofs::Paths::none_same))]
fn same_path(a: &[Text], b: &[Text]) -> bool
    ensures { result ≡ same_path_lem a.now b.now }
{
    if a.is_empty() {
        return b.is_empty();
    }
    if b.is_empty() {
        return false;
    }
    a[0].bytes() == b[0].bytes() && same_path(&a[1..], &b[1..])
}

/// What the first instance of a path holds.
pub(crate) fn held_at<'a>(held: &'a [Held], path: &[Text]) -> Option<&'a Held>
    ensures { option_copied result ≡ held_at_lem held.now path.now }
{
    for h in held {
        if same_path(&h.path, path) {
            return Some(h);
        }
    }
    None
}

fn add_path(alloc: Global, out: &mut Vec<Text>, path: &[Text]) -> Result<(), AllocError>
    ensures { OnOk result (out.new.items ≡ out.old.items ++ path.now) }
{
    for x in path {
        out.push(x.copy(alloc)?)?;
    }
    Ok(())
}

/// A path of its own with the same names.
pub(crate) fn copy_path(alloc: Global, path: &[Text]) -> Result<Vec<Text>, AllocError>
    ensures { IfOk result (λ v. v.items ≡ path.now) }
{
    let mut out = Vec::new(alloc);
    add_path(alloc, &mut out, path)?;
    Ok(out)
}

/// The way to an instance inside another.
pub(crate) fn path_inside(
    alloc: Global,
    name: &Text,
    path: &[Text],
) -> Result<Vec<Text>, AllocError>
    ensures { IfOk result (λ v. v.items ≡ name.now ∷ path.now) }
{
    let mut out = Vec::new(alloc);
    out.push(name.copy(alloc)?)?;
    add_path(alloc, &mut out, path)?;
    Ok(out)
}
