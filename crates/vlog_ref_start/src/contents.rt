// What the instances of a design hold, where every register and every cell holds one number, cut to its width.

ghost use Rattle.std.specs.Prelude.{◌≡◌, ◌++◌, ◌%◌, ◌^◌, map, length, IfOk, OnOk};
ghost use Rattle.std.specs.List.{flat_map};
ghost use Rattle.vlog_ref_start.specs.Instances.{place_tree, places_below};
ghost use Rattle.vlog_ref_start.specs.Contents.{memory_tree, held_tree, filled_net, filled_cells, filled_held};

use crate::instances::{InstancePlace, level_below};
use std::alloc::{AllocError, Global};
use tapa_base::Text;
use vlog_tree::{Item, Module};
use vlog_values::{Held, MemoryCells, NetNumber};

#[tactic(auto, using(vlog_values::proofs::Cuts::all_in))]
fn cut(fill: u128, bits: u32) -> u128
    ensures { result ≡ fill % 2 ^ bits }
{
    if bits < 128 { fill % (1 << bits) } else { fill }
}

fn add_register(
    alloc: Global,
    fill: u128,
    item: &Item,
    out: &mut Vec<NetNumber>,
) -> Result<(), AllocError>
    ensures { OnOk result (out.new.items ≡ out.old.items ++ filled_net fill item.now) }
{
    match item {
        Item::Reg { width, name } => {
            let name = name.copy(alloc)?;
            out.push(NetNumber {
                name,
                bits: *width,
                number: cut(fill, *width),
            })?;
            Ok(())
        }
        Item::Wire { .. } => Ok(()),
        Item::Memory { .. } => Ok(()),
        Item::Assign { .. } => Ok(()),
        Item::Always(_) => Ok(()),
        Item::Instance { .. } => Ok(()),
    }
}

fn registers(alloc: Global, fill: u128, items: &[Item]) -> Result<Vec<NetNumber>, AllocError>
    ensures { IfOk result (λ v. v.items ≡ flat_map (filled_net fill) items.now) }
{
    let mut out = Vec::new(alloc);
    for item in items {
        add_register(alloc, fill, item, &mut out)?;
    }
    Ok(out)
}

fn add_memory(
    alloc: Global,
    fill: u128,
    item: &Item,
    out: &mut Vec<MemoryCells>,
) -> Result<(), AllocError>
    ensures { OnOk result (map memory_tree out.new.items ≡ map memory_tree out.old.items ++ filled_cells fill item.now) }
{
    match item {
        Item::Memory { width, name, cells } => {
            let name = name.copy(alloc)?;
            let cells = vec![in alloc; cut(fill, *width); *cells as usize]?;
            out.push(MemoryCells { name, cells })?;
            Ok(())
        }
        Item::Wire { .. } => Ok(()),
        Item::Reg { .. } => Ok(()),
        Item::Assign { .. } => Ok(()),
        Item::Always(_) => Ok(()),
        Item::Instance { .. } => Ok(()),
    }
}

fn memories(alloc: Global, fill: u128, items: &[Item]) -> Result<Vec<MemoryCells>, AllocError>
    ensures { IfOk result (λ v. map memory_tree v.items ≡ flat_map (filled_cells fill) items.now) }
{
    let mut out = Vec::new(alloc);
    for item in items {
        add_memory(alloc, fill, item, &mut out)?;
    }
    Ok(out)
}

fn copy_path(alloc: Global, path: &[Text]) -> Result<Vec<Text>, AllocError>
    ensures { IfOk result (λ v. v.items ≡ path.now) }
{
    let mut out = Vec::new(alloc);
    for x in path {
        out.push(x.copy(alloc)?)?;
    }
    Ok(out)
}

fn filled(alloc: Global, fill: u128, place: &InstancePlace) -> Result<Held, AllocError>
    ensures { IfOk result (λ h. held_tree h ≡ filled_held fill (place_tree place.now)) }
{
    let path = copy_path(alloc, &place.path)?;
    let nets = registers(alloc, fill, place.module.items())?;
    let memories = memories(alloc, fill, place.module.items())?;
    Ok(Held {
        path,
        nets,
        memories,
    })
}

fn add_level(
    alloc: Global,
    fill: u128,
    level: &[InstancePlace],
    out: &mut Vec<Held>,
) -> Result<(), AllocError>
    ensures { OnOk result (map held_tree out.new.items ≡ map held_tree out.old.items ++ map (filled_held fill) (map place_tree level.now)) }
{
    for place in level {
        out.push(filled(alloc, fill, place)?)?;
    }
    Ok(())
}

/// What every instance of a design holds: a module contains no other by more steps than there are modules.
pub(crate) fn first_held(
    alloc: Global,
    modules: &[Module],
    top: &Module,
    fill: u128,
) -> Result<Vec<Held>, AllocError>
    ensures { IfOk result (λ v. map held_tree v.items ≡ map (filled_held fill) (places_below modules.now top.now (length modules.now))) }
{
    let mut held = Vec::new(alloc);
    let mut level = Vec::new(alloc);
    level.push(InstancePlace {
        path: Vec::new(alloc),
        module: top,
    })?;
    for _depth in 0..modules.len() {
        add_level(alloc, fill, &level, &mut held)?;
        level = level_below(alloc, modules, &level)?;
    }
    Ok(held)
}
