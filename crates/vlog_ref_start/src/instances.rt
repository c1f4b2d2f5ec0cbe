// The instances of a design, level by level.

ghost use Rattle.std.specs.Prelude.{◌≡◌, ◌∷◌, ◌++◌, [], map, IfOk, OnOk};
ghost use Rattle.std.specs.List.{flat_map};
ghost use Rattle.vlog_ref_start.specs.Instances.{place_tree, line_places, inner_places};

use std::alloc::{AllocError, Global};
use tapa_base::Text;
use vlog_ref_cycle::module_named;
use vlog_tree::{Item, Module};

/// An instance: the names of the instances on the way to it, the innermost first, and its module.
#[derive(Drop)]
pub(crate) struct InstancePlace<'a> {
    pub path: Vec<Text>,
    pub module: &'a Module,
}

// The way to an instance inside another.
fn path_inside(alloc: Global, name: &Text, path: &[Text]) -> Result<Vec<Text>, AllocError>
    ensures { IfOk result (λ v. v.items ≡ name.now ∷ path.now) }
{
    let mut out = Vec::new(alloc);
    out.push(name.copy(alloc)?)?;
    for x in path {
        out.push(x.copy(alloc)?)?;
    }
    Ok(out)
}

fn add_line<'a>(
    alloc: Global,
    modules: &'a [Module],
    path: &[Text],
    item: &Item,
    out: &mut Vec<InstancePlace<'a>>,
) -> Result<(), AllocError>
    ensures { OnOk result (map place_tree out.new.items ≡ map place_tree out.old.items ++ line_places modules.now path.now item.now) }
{
    match item {
        Item::Instance {
            module: kind,
            name: i,
            ..
        } => match module_named(modules, kind) {
            Some(module) => {
                let path = path_inside(alloc, i, path)?;
                out.push(InstancePlace { path, module })?;
                Ok(())
            }
            None => Ok(()),
        },
        Item::Wire { .. } => Ok(()),
        Item::Reg { .. } => Ok(()),
        Item::Memory { .. } => Ok(()),
        Item::Assign { .. } => Ok(()),
        Item::Always(_) => Ok(()),
    }
}

fn add_inner<'a>(
    alloc: Global,
    modules: &'a [Module],
    path: &[Text],
    items: &[Item],
    out: &mut Vec<InstancePlace<'a>>,
) -> Result<(), AllocError>
    ensures { OnOk result (map place_tree out.new.items ≡ map place_tree out.old.items ++ flat_map (line_places modules.now path.now) items.now) }
{
    for item in items {
        add_line(alloc, modules, path, item, out)?;
    }
    Ok(())
}

/// The instances directly inside some.
pub(crate) fn level_below<'a>(
    alloc: Global,
    modules: &'a [Module],
    level: &[InstancePlace<'a>],
) -> Result<Vec<InstancePlace<'a>>, AllocError>
    ensures { IfOk result (λ v. map place_tree v.items ≡ flat_map (inner_places modules.now) (map place_tree level.now)) }
{
    let mut out = Vec::new(alloc);
    for place in level {
        add_inner(alloc, modules, &place.path, place.module.items(), &mut out)?;
    }
    Ok(out)
}
