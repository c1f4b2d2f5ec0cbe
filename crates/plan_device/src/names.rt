// The names that a device file may use for a program, in order and with a table: its leaf tasks and the labels of its instances.
ghost use Rattle.std.specs.Prelude.{◌≡◌, ℕ, List, map, IfOk};
ghost use Rattle.tapa_syntax.specs.declared.program.Instance.{Instance};
ghost use Rattle.tapa_syntax.specs.declared.program.Leaf.{Leaf};
ghost use Rattle.run_data.specs.Data.{is_among};
ghost use Rattle.run_data.specs.Seen.{has_name};

use crate::key::Group;
use run_data::text_of;
use std::alloc::{AllocError, Global};
use std::collections::HashMap;
use tapa_base::Text;
use tapa_syntax::{Instance, Leaf, Program};

/// Names in order, and a table in which a key is looked up without a walk over all.
#[derive(Drop)]
pub struct NameList {
    pub list: Vec<Text>,
    pub table: HashMap<String, ()>,
    ghost listed: { (name : List ℕ) → has_name table name ≡ is_among list.items name },
}

/// What `tasks` and `pins` may name.
#[derive(Drop)]
pub struct Known {
    pub tasks: NameList,
    pub labels: NameList,
}

// A table of these names.
fn table_of(alloc: Global, names: &[Text]) -> Result<HashMap<String, ()>, AllocError>
    ensures { IfOk result (λ table. (name : List ℕ) → has_name table name ≡ is_among names.now name) }
{
    let mut table = HashMap::new(alloc);
    for name in names {
        let text = String::from_str(alloc, text_of(name.bytes()))?;
        table.insert(text, ())?;
    }
    Ok(table)
}

fn name_list(alloc: Global, list: Vec<Text>) -> Result<NameList, AllocError>
    ensures { IfOk result (λ names. names.list.items ≡ list.items) }
{
    let table = table_of(alloc, &list)?;
    Ok(NameList { list, table })
}

// The names of leaf tasks.
fn task_names(alloc: Global, leaves: &[Leaf]) -> Result<Vec<Text>, AllocError>
    ensures { IfOk result (λ names. names.items ≡ map (λ (leaf : Leaf). leaf.name) leaves.now) }
{
    let mut names = Vec::new(alloc);
    for leaf in leaves {
        names.push(leaf.name.copy(alloc)?)?;
    }
    Ok(names)
}

// The labels of instances.
fn labels(alloc: Global, instances: &[Instance]) -> Result<Vec<Text>, AllocError>
    ensures { IfOk result (λ labels. labels.items ≡ map (λ (x : Instance). x.label) instances.now) }
{
    let mut labels = Vec::new(alloc);
    for instance in instances {
        labels.push(instance.label.copy(alloc)?)?;
    }
    Ok(labels)
}

impl Known {
    ghost use Rattle.plan_device.specs.Keys.{names_in, names_of};
    ghost use Rattle.plan_device.specs.Known.{names_known};

    /// What a program has: its leaf tasks and its instances.
    pub fn of(alloc: Global, program: &Program) -> Result<Known, AllocError>
        ensures { IfOk result (λ known. names_known known ≡ names_of program.now) }
    {
        let tasks = name_list(alloc, task_names(alloc, &program.bodies)?)?;
        let labels = name_list(alloc, labels(alloc, &program.instances)?)?;
        Ok(Known { tasks, labels })
    }

    /// The names that a group of keys may use: those of tasks or the labels of instances.
    pub fn names(&self, group: Group) -> &NameList
        ensures { result.now.list.items ≡ names_in group (names_known self.now) }
    {
        match group {
            Group::Tasks => &self.tasks,
            Group::Pins => &self.labels,
        }
    }
}
