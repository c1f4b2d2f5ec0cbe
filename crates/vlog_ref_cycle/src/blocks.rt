// What the blocks of an instance leave for the next cycle.

ghost use Rattle.std.specs.Prelude.{◌≡◌, ◌∷◌, ◌++◌, [], List, map, reverse, OnOk, IfOk, if◌then◌else◌};
ghost use Rattle.std.specs.List.{flat_map, list_all};
ghost use Rattle.vlog_tree.specs.declared.tree.Step.{Step as StepTree};
ghost use Rattle.vlog_tree.specs.Cycle.{Cycle, Sizes, run_steps as run_steps_lem, run_items as run_items_lem, step_next};
ghost use Rattle.vlog_tree.specs.Grounded.{AllTwo};
ghost use Rattle.vlog_ref_cycle.specs.Sources.{net_read};
ghost use Rattle.vlog_ref_cycle.specs.Next.{step_nets, item_nets, put_net, IsStored, ReadsAre, Fits, Shows, IsAlike, StepLeaves};

use crate::lines::{add_atom, add_net};
use std::alloc::{AllocError, Global};
use tapa_base::Text;
use vlog_tree::{Item, Step};
use vlog_values::{Held, MemoryCells, NetNumber, Scope, number_in, value_of_atom};

fn add_step(
    alloc: Global,
    scope: &Scope,
    out: &mut Vec<NetNumber>,
    step: &Step,
) -> Result<(), AllocError>
    ensures { OnOk result (out.new.items ≡ out.old.items ++ map (net_read scope.now) (step_nets step.now)) }
{
    match step {
        Step::If(c) => add_net(alloc, scope, out, c),
        Step::Else => Ok(()),
        Step::End => Ok(()),
        Step::NonblockingAssign { value: a, .. } => add_atom(alloc, scope, out, a),
        Step::MemoryAssign {
            index: x,
            value: a,
            ..
        } => {
            add_net(alloc, scope, out, x)?;
            add_atom(alloc, scope, out, a)
        }
    }
}

fn add_steps(
    alloc: Global,
    scope: &Scope,
    out: &mut Vec<NetNumber>,
    steps: &[Step],
) -> Result<(), AllocError>
    ensures { OnOk result (out.new.items ≡ out.old.items ++ map (net_read scope.now) (flat_map step_nets steps.now)) }
{
    for step in steps {
        add_step(alloc, scope, out, step)?;
    }
    Ok(())
}

fn add_item(
    alloc: Global,
    scope: &Scope,
    out: &mut Vec<NetNumber>,
    item: &Item,
) -> Result<(), AllocError>
    ensures { OnOk result (out.new.items ≡ out.old.items ++ map (net_read scope.now) (item_nets item.now)) }
{
    match item {
        Item::Always(block) => add_steps(alloc, scope, out, block.steps()),
        Item::Wire { .. } => Ok(()),
        Item::Reg { .. } => Ok(()),
        Item::Memory { .. } => Ok(()),
        Item::Assign { .. } => Ok(()),
        Item::Instance { .. } => Ok(()),
    }
}

/// The nets that the blocks of a module read.
pub(crate) fn block_reads(
    alloc: Global,
    scope: &Scope,
    items: &[Item],
) -> Result<Vec<NetNumber>, AllocError>
    ensures { IfOk result (λ v. v.items ≡ map (net_read scope.now) (flat_map item_nets items.now)) }
{
    let mut out = Vec::new(alloc);
    for item in items {
        add_item(alloc, scope, &mut out, item)?;
    }
    Ok(out)
}

fn put_number(
    alloc: Global,
    nets: &[NetNumber],
    x: &Text,
    number: u128,
) -> Result<Vec<NetNumber>, AllocError>
    ensures { IfOk result (λ v. v.items ≡ map (put_net x.now number) nets.now) }
{
    let mut out = Vec::new(alloc);
    for r in nets {
        let name = r.name.copy(alloc)?;
        let new = if r.name.bytes() == x.bytes() {
            number
        } else {
            r.number
        };
        out.push(NetNumber {
            name,
            bits: r.bits,
            number: new,
        })?;
    }
    Ok(out)
}

fn stored(
    alloc: Global,
    k: &MemoryCells,
    m: &Text,
    at: u128,
    number: u128,
) -> Result<MemoryCells, AllocError>
    ensures { IfOk result (λ j. IsStored m.now at number k.now j) }
{
    let name = k.name.copy(alloc)?;
    let mut cells = k.cells.as_slice().to_vec(alloc)?;
    if k.name.bytes() == m.bytes() && at < cells.len() as u128 {
        cells[at as usize] = number;
    }
    Ok(MemoryCells { name, cells })
}

fn put_cell(
    alloc: Global,
    memories: &[MemoryCells],
    m: &Text,
    at: u128,
    number: u128,
) -> Result<Vec<MemoryCells>, AllocError>
    ensures { IfOk result (λ v. AllTwo (IsStored m.now at number) memories.now v.items) }
{
    let mut out = Vec::new(alloc);
    for k in memories {
        out.push(stored(alloc, k, m, at, number)?)?;
    }
    Ok(out)
}

fn are_on(on: &[bool]) -> bool
    ensures { result ≡ list_all (λ b. b) on.now }
{
    on.iter().all(|b| *b)
}

// Opens and closes parts, where `on` says of each that is open, the innermost last, whether it runs; false where a part
// is closed that is not open.
#[tactic(auto, using(vlog_tree::proofs::Nesting::reverse_push))]
fn turn(nets: &[NetNumber], on: &mut Vec<bool>, step: &Step) -> Result<bool, AllocError>
    ensures { (s : Sizes) (old : Cycle) (rest : List StepTree) (next : Cycle) → ReadsAre nets.now old (step_nets step.now)
        → IfOk result (λ fits. run_steps_lem s old (reverse on.old.items) (step.now ∷ rest) next ≡
        (if fits then run_steps_lem s old (reverse on.new.items) rest (step_next s old (reverse on.old.items) step.now next) else step_next s old
        (reverse on.old.items) step.now next)) }
{
    match step {
        Step::If(c) => {
            on.push(number_in(nets, c) == 1)?;
            Ok(true)
        }
        Step::Else => match on.pop() {
            Some(b) => {
                on.push(!b)?;
                Ok(true)
            }
            None => Ok(false),
        },
        Step::End => Ok(on.pop().is_some()),
        Step::NonblockingAssign { .. } => Ok(true),
        Step::MemoryAssign { .. } => Ok(true),
    }
}

// The write of a step that runs.
fn write(alloc: Global, nets: &[NetNumber], step: &Step, after: &mut Held) -> Result<(), AllocError>
    ensures value { OnOk result ((s : Sizes) (old : Cycle) (next : Cycle) → ReadsAre nets.now old (step_nets step.now) → Fits s after.old → Shows after.old next
        → Shows after.new (step_next s old [] step.now next)) }
    ensures alike { OnOk result (IsAlike after.old after.new) }
{
    match step {
        Step::NonblockingAssign {
            register: x,
            value: a,
        } => {
            after.nets = put_number(alloc, &after.nets, x, value_of_atom(nets, a))?;
        }
        Step::MemoryAssign {
            memory: m,
            index: x,
            value: a,
        } => {
            let at = number_in(nets, x);
            after.memories = put_cell(alloc, &after.memories, m, at, value_of_atom(nets, a))?;
        }
        Step::If(_) => (),
        Step::Else => (),
        Step::End => (),
    }
    Ok(())
}

fn run_step(
    alloc: Global,
    nets: &[NetNumber],
    on: &mut Vec<bool>,
    step: &Step,
    after: &mut Held,
) -> Result<bool, AllocError>
    ensures value { (s : Sizes) (old : Cycle) (rest : List StepTree) (next : Cycle) → ReadsAre nets.now old (step_nets step.now) → Fits s after.old → Shows after.old next
        → IfOk result (λ fits. StepLeaves s old (reverse on.old.items) step.now rest next fits (reverse on.new.items) after.new) }
    ensures alike { OnOk result (IsAlike after.old after.new) }
{
    if are_on(on) {
        write(alloc, nets, step, after)?;
    }
    turn(nets, on, step)
}

fn run_steps(
    alloc: Global,
    nets: &[NetNumber],
    steps: &[Step],
    after: &mut Held,
) -> Result<(), AllocError>
    ensures value { OnOk result ((s : Sizes) (old : Cycle) (next : Cycle) → ReadsAre nets.now old (flat_map step_nets steps.now) → Fits s after.old → Shows after.old next
        → Shows after.new (run_steps_lem s old [] steps.now next)) }
    ensures alike { OnOk result (IsAlike after.old after.new) }
{
    let mut on = Vec::new(alloc);
    for step in steps {
        if !run_step(alloc, nets, &mut on, step, after)? {
            return Ok(());
        }
    }
    Ok(())
}

fn run_item(
    alloc: Global,
    nets: &[NetNumber],
    item: &Item,
    after: &mut Held,
) -> Result<(), AllocError>
    ensures value { OnOk result ((s : Sizes) (old : Cycle) (next : Cycle) → ReadsAre nets.now old (item_nets item.now) → Fits s after.old → Shows after.old next
        → Shows after.new (run_items_lem s old (item.now ∷ []) next)) }
    ensures alike { OnOk result (IsAlike after.old after.new) }
{
    match item {
        Item::Always(block) => run_steps(alloc, nets, block.steps(), after),
        Item::Wire { .. } => Ok(()),
        Item::Reg { .. } => Ok(()),
        Item::Memory { .. } => Ok(()),
        Item::Assign { .. } => Ok(()),
        Item::Instance { .. } => Ok(()),
    }
}

/// What all blocks of a module leave, over the numbers of the nets that they read.
pub(crate) fn run_items(
    alloc: Global,
    nets: &[NetNumber],
    items: &[Item],
    after: &mut Held,
) -> Result<(), AllocError>
    ensures value { OnOk result ((s : Sizes) (old : Cycle) (next : Cycle) → ReadsAre nets.now old (flat_map item_nets items.now) → Fits s after.old → Shows after.old next
        → Shows after.new (run_items_lem s old items.now next)) }
    ensures alike { OnOk result (IsAlike after.old after.new) }
{
    for item in items {
        run_item(alloc, nets, item, after)?;
    }
    Ok(())
}
