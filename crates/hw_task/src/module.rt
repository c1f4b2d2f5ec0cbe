// The module of a task.

ghost use Rattle.std.specs.Prelude.{◌≡◌, ◌+◌, ◌≤◌, ◌^◌, length, IfOk};
ghost use Rattle.tapa_syntax.specs.declared.program.Leaf.{Leaf};
ghost use Rattle.hw_build.specs.Elements.{empty, with_all};
ghost use Rattle.hw_lines.specs.Texts.{task_elements, task_name as task_name_lem, task_tree};
ghost use Rattle.hw_nets.specs.Shapes.{form};
ghost use Rattle.hw_task.specs.Promise.{IsOfLeaf, KeepsPromise};

use crate::ports::{add_held, add_inputs, add_offers};
use crate::reads::add_all_reads;
use hw_build::Draft;
use hw_nets::Shape;
use hw_outputs::{add_blocks, add_choices, add_outputs};
use hw_states::{Machine, add_decodes, add_states};
use std::alloc::{AllocError, Global};
use tapa_base::{Kind, OutOfMemory, Text, narrow};
use tapa_syntax::End;
use task_fsm::Fsm;
use vlog_tree::Module;

// `t_` and the machine's name.
fn task_name(alloc: Global, name: &Text) -> Result<Text, AllocError>
    ensures { IfOk result (λ t. t ≡ task_name_lem name.now) }
{
    let mut bytes = b"t_".to_vec(alloc)?;
    bytes.extend_from_slice(name.bytes())?;
    Ok(Text::new(bytes))
}

fn add_elements(alloc: Global, draft: &mut Draft, shape: &Shape) -> Result<(), AllocError>
    ensures { IfOk result (λ u. draft.new ≡ with_all draft.old (task_elements (form shape.now))) }
{
    add_inputs(alloc, draft, shape)?;
    add_held(alloc, draft, shape)?;
    add_decodes(alloc, draft, shape)?;
    add_offers(alloc, draft, shape)?;
    add_all_reads(alloc, draft, shape)?;
    let operands = add_states(alloc, draft, shape)?;
    let machine = Machine {
        shape: *shape,
        operands: &operands,
    };
    add_choices(alloc, draft, &machine)?;
    add_outputs(alloc, draft, &machine)?;
    add_blocks(alloc, draft, &machine)?;
    Ok(())
}

fn drafted(
    alloc: Global,
    machine: &Fsm,
    memories: &[Kind],
    streams: &[End],
) -> Result<Draft, AllocError>
    ensures { IfOk result (λ d. d ≡ task_tree machine.now memories.now streams.now) }
{
    let shape = Shape {
        machine,
        memories,
        streams,
    };
    let mut draft = Draft::new(alloc, task_name(alloc, &machine.name)?)?;
    add_elements(alloc, &mut draft, &shape)?;
    Ok(draft)
}

// Whether the states have numbers of 32 bits, and the lines of 64. What fits in memory has no larger ones.
fn count(machine: &Fsm, draft: &Draft) -> Result<(), AllocError>
    ensures states { IfOk result (λ u. length machine.now.states.items ≤ 2 ^ 32) }
    ensures lines { IfOk result (λ u. length draft.now.ports + length draft.now.items ≤ 2 ^ 64) }
{
    narrow(machine.states.len())?;
    draft.count()
}

/// The module of a machine whose task has memories of these kinds and streams with these ends. In each cycle after reset the module makes its machine's tick
/// or none. If the machine is that of a leaf, the module runs it in any design, breaks no rule on names, widths, drivers and loops, and has the ports of the
/// task. None of its outputs depends on an input of the same cycle, except those that take a token.
pub fn module_of(
    alloc: Global,
    machine: &Fsm,
    memories: &[Kind],
    streams: &[End],
) -> Result<Module, OutOfMemory>
    requires { (leaf : Leaf) × IsOfLeaf leaf machine.now memories.now streams.now }
    ensures tree { IfOk result (λ m. m ≡ task_tree machine.now memories.now streams.now) }
    ensures promise { IfOk result (λ m. (leaf : Leaf) → IsOfLeaf leaf machine.now memories.now streams.now → KeepsPromise leaf machine.now m) }
{
    let draft = drafted(alloc, machine, memories, streams)?;
    count(machine, &draft)?;
    Ok(draft.module())
}
