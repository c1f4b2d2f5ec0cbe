// A flattened design.

ghost use Rattle.std.specs.Prelude.{◌≡◌, ◌<◌, ◌≤◌, ◌++◌, ◌∷◌, [], IfOk, OnOk, length, replicate, slice_get, option_copied};
ghost use Rattle.vlog_tree.specs.Form.{ModuleTree};
ghost use Rattle.vlog_design.specs.Designs.{TopOf};
ghost use Rattle.sim_flat.specs.Rows.{row_at};
ghost use Rattle.sim_flat.specs.Numbering.{IsNumbering, names_at, count_at};
ghost use Rattle.sim_flat.specs.Edges.{table_at as table_lem, base_at as base_lem};
ghost use Rattle.sim_flat.specs.Flat.{IsFlat};
ghost use Rattle.sim_flat.specs.declared.sizes.Sizes.{Sizes as SizesTree};
ghost use Rattle.sim_flat.specs.Sizes.{own_sum, AreSizes, AreReached};

use crate::instances::{Instance, instances_of};
use crate::sizes::sizes_of;
use crate::tables::{Table, tables_of};
use std::alloc::{AllocError, Global};
use vlog_design::Design;

/// The tables of the modules, the instances, of each instance the number of its first net and of the first instance in it, and
/// of each net the number of its instance. A net has the number of its instance's first net and its index among the names of
/// the module together.
#[derive(Drop)]
pub struct Flat {
    pub tables: Vec<Table>,
    pub instances: Vec<Instance>,
    pub first_net: Vec<usize>,
    pub first_child: Vec<usize>,
    pub owners: Vec<usize>,
}

/// Of each instance the number of its first net, and of each net the number of its instance.
#[derive(Drop)]
pub struct Numbers {
    pub first: Vec<usize>,
    pub owners: Vec<usize>,
}

/// The instance of a net by its number.
pub fn owner_of(flat: &Flat, number: usize) -> Option<usize>
    ensures { result ≡ slice_get flat.now.owners.items number }
{
    match flat.owners.get(number) {
        Some(instance) => Some(*instance),
        None => None,
    }
}

/// The table of an instance's module.
pub fn table_at(flat: &Flat, k: usize) -> Option<&Table>
    ensures { option_copied result ≡ table_lem flat.now k }
{
    match flat.instances.get(k) {
        Some(row) => flat.tables.get(row.kind),
        None => None,
    }
}

/// The number of the first net of an instance.
pub fn base_at(flat: &Flat, k: usize) -> usize
    ensures { result ≡ base_lem flat.now k }
{
    match flat.first_net.get(k) {
        Some(number) => *number,
        None => 0,
    }
}

// How many names the module at an index declares.
fn names_of_kind(tables: &[Table], kind: usize) -> usize
    ensures { result ≡ names_at tables.now kind }
{
    match tables.get(kind) {
        Some(table) => table.sources.len(),
        None => 0,
    }
}

fn kind_of(rows: &[Instance], k: usize) -> usize
    requires { k < length rows.now }
    ensures { result ≡ (row_at rows.now k).kind }
{
    rows[k].kind
}

fn add_owners(owners: &mut Vec<usize>, instance: usize, count: usize) -> Result<(), AllocError>
    ensures { OnOk result (owners.new.items ≡ owners.old.items ++ replicate count instance) }
{
    for _i in 0..count {
        owners.push(instance)?;
    }
    Ok(())
}

fn add_instance(numbers: &mut Numbers, instance: usize, count: usize) -> Result<(), AllocError>
    ensures first { OnOk result (numbers.new.first.items ≡ numbers.old.first.items ++ length numbers.old.owners.items ∷ []) }
    ensures owners { OnOk result (numbers.new.owners.items ≡ numbers.old.owners.items ++ replicate count instance) }
{
    let number = numbers.owners.len();
    numbers.first.push(number)?;
    add_owners(&mut numbers.owners, instance, count)
}

// No numbers yet, with room for those of the given number of nets.
fn no_numbers(alloc: Global, nets: usize) -> Result<Numbers, AllocError>
    ensures { IfOk result (λ n. (n.first.items ≡ []) × (n.owners.items ≡ [])) }
{
    Ok(Numbers {
        first: Vec::new(alloc),
        owners: Vec::with_capacity(alloc, nets)?,
    })
}

fn numbers_of(none: Numbers, tables: &[Table], rows: &[Instance]) -> Result<Numbers, AllocError>
    requires { (none.first.items ≡ []) × (none.owners.items ≡ []) }
    ensures numbering { IfOk result (λ n. IsNumbering (count_at tables.now rows.now) (length rows.now) n.first.items n.owners.items) }
    ensures count { IfOk result (λ n. length n.owners.items ≡ own_sum (names_at tables.now) rows.now) }
{
    let mut numbers = none;
    for k in 0..rows.len() {
        let count = names_of_kind(tables, kind_of(rows, k));
        add_instance(&mut numbers, k, count)?;
    }
    Ok(numbers)
}

/// Flattens a design. Its instances and nets are counted by modules, and room for them is taken before the first one is laid out, so
/// that a text whose modules contain one another again and again is refused at once where there is no such room. The flattened design is
/// no smaller than that.
pub fn flatten(alloc: Global, design: &Design) -> Result<Flat, AllocError>
    ensures flat { IfOk result (λ f. (m : ModuleTree) → TopOf design.now m → IsFlat design.now.modules m f) }
    ensures needed { IfOk result (λ f. (m : ModuleTree) (s : SizesTree) → TopOf design.now m → AreSizes design.now f.tables.items s
        → AreReached s (length f.instances.items) (length f.owners.items)) }
{
    let _modules = design.modules();
    let tables = tables_of(alloc, design)?;
    let sizes = sizes_of(alloc, design, &tables)?;
    let none = no_numbers(alloc, sizes.nets)?;
    let all = instances_of(alloc, design, sizes.instances)?;
    let numbers = numbers_of(none, &tables, &all.rows)?;
    Ok(Flat {
        tables,
        instances: all.rows,
        first_net: numbers.first,
        first_child: all.first,
        owners: numbers.owners,
    })
}
