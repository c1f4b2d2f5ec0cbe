// The top module.

ghost use Rattle.std.specs.Prelude.{◌≡◌, ◌≤◌, IfOk, OnOk, length};
ghost use Rattle.vlog_tree.specs.Form.{IsModule};
ghost use Rattle.hw_build.specs.Elements.{with_all};
ghost use Rattle.hw_top_lines.specs.Legal.{IsCountable};
ghost use Rattle.hw_top_lines.specs.Texts.{top_elements, top_tree};

use crate::instances::add_instances;
use crate::names::task_name;
use crate::ports::add_ports;
use crate::wires::{add_all_wires, add_done};
use hw_build::Draft;
use std::alloc::{AllocError, Global};
use tapa_syntax::Program;
use vlog_tree::Module;

fn add_elements(
    alloc: Global,
    draft: &mut Draft,
    program: &Program,
    added: &[u32],
) -> Result<(), AllocError>
    requires { length program.now.instances.items ≤ 512 }
    ensures { IfOk result (λ u. draft.new ≡ with_all draft.old (top_elements program.now added.now)) }
{
    add_ports(alloc, draft, program)?;
    add_all_wires(alloc, draft, program)?;
    add_done(alloc, draft, program)?;
    add_instances(alloc, draft, program, added)?;
    Ok(())
}

fn drafted(alloc: Global, program: &Program, added: &[u32]) -> Result<Draft, AllocError>
    requires { length program.now.instances.items ≤ 512 }
    ensures { IfOk result (λ d. d ≡ top_tree program.now added.now) }
{
    let mut draft = Draft::new(alloc, task_name(alloc, &program.top)?)?;
    add_elements(alloc, &mut draft, program, added)?;
    Ok(draft)
}

/// The top module of a program, by the added latency of each stream.
pub(crate) fn top_module(
    alloc: Global,
    program: &Program,
    added: &[u32],
) -> Result<Module, AllocError>
    requires few { length program.now.instances.items ≤ 512 }
    requires form { IsCountable program.now added.now → IsModule (top_tree program.now added.now) }
    ensures tree { IfOk result (λ m. m ≡ top_tree program.now added.now) }
    ensures countable { OnOk result (IsCountable program.now added.now) }
{
    let draft = drafted(alloc, program, added)?;
    draft.count()?;
    Ok(draft.module())
}
