// The modules of a design.

ghost use Rattle.std.specs.Prelude.{◌≡◌, ℕ, ◌++◌, ◌∷◌, [], IfOk, OnOk, slice_get};
ghost use Rattle.tapa_syntax.specs.WellFormed.{IsWellFormed};
ghost use Rattle.vlog_tree.specs.Form.{IsModule};
ghost use Rattle.hw_lines.specs.Texts.{task_tree};
ghost use Rattle.hw_top_lines.specs.Designs.{AreShort, design_tree, is_used as is_used_lem, leaf_module, task_modules, used_module};
ghost use Rattle.hw_top_lines.specs.Legal.{AreMachinesOf, IsCountable};
ghost use Rattle.tapa_syntax.specs.OwnNames.{AreWritten, task_names};
ghost use Rattle.hw_top_lines.specs.Texts.{top_tree};
ghost use Rattle.hw_task.specs.Promise.{IsOfLeaf, KeepsPromise};
ghost use Rattle.hw_top.specs.Kept.{IsKept, IsOfBody};

use crate::channels::all_channels;
use crate::top::top_module;
use hw_task::module_of;
use std::alloc::Global;
use tapa_base::{OutOfMemory, narrow};
use tapa_syntax::{Leaf, Program};
use task_fsm::Fsm;
use vlog_tree::Module;

fn add_module(
    alloc: Global,
    modules: &mut Vec<Module>,
    leaf: &Leaf,
    machine: &Fsm,
) -> Result<(), OutOfMemory>
    requires { IsOfLeaf leaf.now machine.now leaf.now.memories.items leaf.now.streams.items }
    ensures modules { IfOk result (λ u. modules.new.items ≡ modules.old.items ++ task_tree machine.now leaf.now.memories.items leaf.now.streams.items ∷ []) }
    ensures promise { OnOk result (KeepsPromise leaf.now machine.now (task_tree machine.now leaf.now.memories.items leaf.now.streams.items)) }
{
    let module = module_of(alloc, machine, &leaf.memories, &leaf.streams)?;
    modules.push(module)?;
    Ok(())
}

// Adds the module of a body.
fn add_body(
    alloc: Global,
    modules: &mut Vec<Module>,
    program: &Program,
    machines: &[Fsm],
    b: u32,
) -> Result<(), OutOfMemory>
    requires { IsOfBody program.now machines.now b }
    ensures modules { IfOk result (λ u. modules.new.items ≡ modules.old.items ++ leaf_module (slice_get program.now.bodies.items b) (slice_get machines.now b)) }
    ensures promise { OnOk result (IsKept program.now machines.now b) }
{
    match program.bodies.get(b as usize) {
        Some(leaf) => match machines.get(b as usize) {
            Some(machine) => add_module(alloc, modules, leaf, machine),
            None => Ok(()),
        },
        None => Ok(()),
    }
}

// Whether some instance is one of a body.
fn is_used(program: &Program, b: u32) -> bool
    ensures { result ≡ is_used_lem program.now b }
{
    program.instances.iter().any(|x| x.body == b)
}

fn add_task(
    alloc: Global,
    modules: &mut Vec<Module>,
    program: &Program,
    machines: &[Fsm],
    b: u32,
) -> Result<(), OutOfMemory>
    requires { IsOfBody program.now machines.now b }
    ensures modules { IfOk result (λ u. modules.new.items ≡ modules.old.items ++ used_module program.now machines.now b) }
    ensures promise { OnOk result (IsKept program.now machines.now b) }
{
    let used = is_used(program, b);
    if !used {
        return Ok(());
    }
    add_body(alloc, modules, program, machines, b)
}

fn add_tasks(
    alloc: Global,
    modules: &mut Vec<Module>,
    program: &Program,
    machines: &[Fsm],
) -> Result<(), OutOfMemory>
    requires { (b : ℕ) → IsOfBody program.now machines.now b }
    ensures modules { IfOk result (λ u. modules.new.items ≡ modules.old.items ++ task_modules program.now machines.now) }
    ensures promises { OnOk result ((b : ℕ) → IsKept program.now machines.now b) }
{
    let count = narrow(program.bodies.len())?;
    for b in 0..count {
        add_task(alloc, modules, program, machines, b)?;
    }
    Ok(())
}

/// The modules of the circuit of a program, the top last: `machines` are those of its bodies, and `added` has the cycles of
/// latency that each stream gets beside that of its FIFO. Channels of the same width, depth and latency share their modules.
/// The top has the form of a module, where its elements are counted and the modules of the leaf tasks keep their promise.
pub fn modules_of(
    alloc: Global,
    program: &Program,
    machines: &[Fsm],
    added: &[u32],
) -> Result<Vec<Module>, OutOfMemory>
    requires program { IsWellFormed program.now }
    requires names { AreWritten (task_names program.now) }
    requires machines { AreMachinesOf program.now machines.now }
    requires added { AreShort added.now }
    requires top { IsCountable program.now added.now → ((b : ℕ) → IsKept program.now machines.now b) → IsModule (top_tree program.now added.now) }
    ensures modules { IfOk result (λ ms. ms.items ≡ design_tree program.now machines.now added.now) }
    ensures promises { OnOk result ((b : ℕ) → IsKept program.now machines.now b) }
    ensures countable { OnOk result (IsCountable program.now added.now) }
{
    let mut modules = all_channels(alloc, program, added)?;
    add_tasks(alloc, &mut modules, program, machines)?;
    let top = top_module(alloc, program, added)?;
    modules.push(top)?;
    Ok(modules)
}
