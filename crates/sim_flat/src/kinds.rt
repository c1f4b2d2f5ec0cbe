// The modules of instances by their indices.

ghost use Rattle.std.specs.Prelude.{◌≡◌, ◌++◌, ◌∷◌, [], IfOk, OnOk};
ghost use Rattle.number_graph.specs.Graphs.{rows_of};
ghost use Rattle.sim_flat.specs.Kinds.{kind_place, item_kinds, module_kinds, all_kinds};

use std::alloc::{AllocError, Global};
use tapa_base::Text;
use vlog_scope::Scope;
use vlog_tree::{Item, Module};

/// The index of a module's name among those of all modules.
pub fn place_of(names: &Scope, name: &Text) -> usize
    ensures { result ≡ kind_place names.now name.now }
{
    match names.place(name) {
        Some((place, _)) => place,
        None => 0,
    }
}

fn add_item(names: &Scope, item: &Item, out: &mut Vec<usize>) -> Result<(), AllocError>
    ensures { OnOk result (out.new.items ≡ out.old.items ++ item_kinds names.now item.now) }
{
    match item {
        Item::Instance { module: m, .. } => {
            out.push(place_of(names, m))?;
            Ok(())
        }
        Item::Wire { .. } => Ok(()),
        Item::Reg { .. } => Ok(()),
        Item::Memory { .. } => Ok(()),
        Item::Assign { .. } => Ok(()),
        Item::Always(_) => Ok(()),
    }
}

fn kinds_in(alloc: Global, names: &Scope, m: &Module) -> Result<Vec<usize>, AllocError>
    ensures { IfOk result (λ v. v.items ≡ module_kinds names.now m.now) }
{
    let mut out = Vec::new(alloc);
    for item in m.items() {
        add_item(names, item, &mut out)?;
    }
    Ok(out)
}

#[tactic(auto, using(crate::proofs::Placing::rows_push))]
fn push_row(out: &mut Vec<Vec<usize>>, row: Vec<usize>) -> Result<(), AllocError>
    ensures { OnOk result (rows_of out.new.items ≡ rows_of out.old.items ++ row.items ∷ []) }
{
    out.push(row)?;
    Ok(())
}

/// For each module, the indices of the modules of its instances, in the order of the text.
pub(crate) fn kinds_of(
    alloc: Global,
    names: &Scope,
    modules: &[Module],
) -> Result<Vec<Vec<usize>>, AllocError>
    ensures { IfOk result (λ v. rows_of v.items ≡ all_kinds names.now modules.now) }
{
    let mut out = Vec::new(alloc);
    for m in modules {
        let row = kinds_in(alloc, names, m)?;
        push_row(&mut out, row)?;
    }
    Ok(out)
}
