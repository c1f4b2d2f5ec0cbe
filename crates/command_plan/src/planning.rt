// The plan of a program on a device, and what it is for.
ghost use Rattle.std.specs.Prelude.{◌≡◌, ℕ, List, length, IfOk, IfErr};
ghost use Rattle.tapa_syntax.specs.OwnNames.{HasOwnNames};
ghost use Rattle.tapa_syntax.specs.WellFormed.{IsWellFormed};
ghost use Rattle.task_graph.specs.Programs.{IsGraphOf};
ghost use Rattle.task_graph.specs.declared.Graph.{Graph as GraphType};
ghost use Rattle.task_graph.specs.Streams.{least_of};
ghost use Rattle.plan_device.specs.Answer.{IsDeviceOf};
ghost use Rattle.plan_device.specs.Devices.{IsDevice};
ghost use Rattle.slot_plan.specs.Causes.{IsPlanBy, IsPlanCause};
ghost use Rattle.slot_plan.specs.Plan.{IsPlanOf};
ghost use Rattle.slot_plan.specs.declared.floorplan.PlanFault.{PlanFault as PlanFaultType};
ghost use Rattle.slot_plan.specs.declared.floorplan.PlanFault.TheVariants.{NoFit};
ghost use Rattle.slot_split.specs.Causes.{IsSplitCause};
ghost use Rattle.tapa_words.specs.declared.command.PlanMode.{PlanMode as PlanModeType};
ghost use Rattle.command_answers.specs.Ends.{IsCarriedOut};
ghost use Rattle.command_answers.specs.Files.{Named, Asks};
ghost use Rattle.command_answers.specs.Meaning.{end_at, end_of};
ghost use Rattle.command_answers.specs.Outside.{store, written, outside};
ghost use Rattle.command_answers.specs.Steps.{Fails, Took, Wrote};
ghost use Rattle.command_plan.specs.Means.{IsBadDevice, MeansPlan, WroteBy, files_of_plan};
ghost use Rattle.command_plan.specs.Planned.{first_label as first_label_lem, IsCircuitBy, IsPlanFor, IsFaultOf, IsFound, IsUnplanned};

use crate::plan_text::put_plan;
use command_answers::{File, Refusal, read_file};
use command_build::put_circuit;
use command_source::read_source;
use plan_device::{Device, read_device};
use plan_report::added_latencies;
use slot_plan::{Mode, Plan, PlanFault, plan};
use slot_split::{SplitFault, split};
use std::alloc::{AllocError, Global};
use tapa_base::position_of;
use tapa_files::{Shelf, Sink};
use tapa_syntax::Program;
use tapa_words::{PlanAim, PlanMode};
use task_graph::Graph;

/// The device that a file on a shelf gives a program.
pub fn read_device_file<S: Shelf>(
    alloc: Global,
    program: &Program,
    graph: &Graph,
    file: &str,
    shelf: &mut S,
) -> Result<Device, Refusal>
    requires { IsGraphOf program.now graph.now }
    ensures took { Took (store S.Shelf shelf.old) (store S.Shelf shelf.new) File.Device (Named file.now) (IsBadDevice program.now graph.now)
        (λ bytes device. IsDeviceOf bytes program.now graph.now device) result }
    ensures device { IfOk result (λ device. IsDevice graph.now device) }
    ensures asks { Asks (store S.Shelf shelf.old) (store S.Shelf shelf.new) (Named file.now) }
{
    let text = read_file(alloc, File::Device, file, shelf)?;
    let device = read_device(alloc, &text, program, graph)?;
    Ok(device)
}

// The first instance of a group.
fn first_instance(graph: &Graph, group: u32) -> usize
    ensures { result ≡ least_of graph.now.group.items group }
{
    match position_of(&graph.group, group) {
        Some(instance) => instance,
        None => graph.group.len(),
    }
}

// The label of a group's first instance.
fn first_label(alloc: Global, graph: &Graph, group: u32) -> Result<Vec<u8>, AllocError>
    ensures { IfOk result (λ label. label.items ≡ first_label_lem graph.now group) }
{
    match graph.labels.get(first_instance(graph, group)) {
        Some(label) => label.bytes().to_vec(alloc),
        None => Ok(Vec::new(alloc)),
    }
}

// That no plan fits, or that a group finds no slot.
fn no_fit(alloc: Global, graph: &Graph, group: Option<u32>) -> Refusal
    ensures { (device : Device) (mode : PlanModeType) → IsFaultOf graph.now device mode (NoFit group) → Fails (IsUnplanned graph.now device mode) (end_at result) }
{
    match group {
        None => Refusal::NoPlan,
        Some(number) => match first_label(alloc, graph, number) {
            Ok(label) => Refusal::NoRoom { label },
            Err(_) => Refusal::Memory,
        },
    }
}

// Why there is no plan.
fn refusal_by(alloc: Global, graph: &Graph, fault: PlanFault) -> Refusal
    ensures { (device : Device) (mode : PlanModeType) → IsFaultOf graph.now device mode fault → Fails (IsUnplanned graph.now device mode) (end_at result) }
{
    match fault {
        PlanFault::TooMany { slots, free } => Refusal::TooManyPlans { slots, free },
        PlanFault::NoFit { group } => no_fit(alloc, graph, group),
        PlanFault::OutOfMemory => Refusal::Memory,
    }
}

// The least plan, or first fit's, or why there is none.
fn planned_by(alloc: Global, graph: &Graph, device: &Device, by: Mode) -> Result<Plan, Refusal>
    requires { IsDevice graph.now device.now }
    ensures plan { IfOk result (λ found. IsPlanOf graph.now device.now found.slot.items) }
    ensures found { (mode : PlanModeType) → ((slots : List ℕ) → IsPlanBy graph.now device.now by slots → IsPlanFor graph.now device.now mode slots)
        → IfOk result (λ found. IsFound graph.now device.now mode found) }
    ensures refused { (mode : PlanModeType) → ((fault : PlanFaultType) → IsPlanCause graph.now device.now by fault → IsFaultOf graph.now device.now mode fault)
        → IfErr result (λ refusal. Fails (IsUnplanned graph.now device.now mode) (end_at refusal)) }
{
    match plan(alloc, graph, device, by) {
        Ok(found) => Ok(found),
        Err(fault) => Err(refusal_by(alloc, graph, fault)),
    }
}

// Why there is no plan by halving. Each group has two parts to be in.
fn refusal_of_split(fault: SplitFault) -> Refusal
    ensures { (graph : GraphType) (device : Device) → IsSplitCause graph device fault → Fails (IsUnplanned graph device PlanMode.Split) (end_at result) }
{
    match fault {
        SplitFault::TooMany { free } => Refusal::TooManyPlans { slots: 2, free },
        SplitFault::NoSplit { level } => Refusal::NoHalving { level },
        SplitFault::OutOfMemory => Refusal::Memory,
    }
}

/// The plan of a graph on a device by a mode, or why there is none.
pub fn planned(
    alloc: Global,
    graph: &Graph,
    device: &Device,
    mode: PlanMode,
) -> Result<Plan, Refusal>
    requires { IsDevice graph.now device.now }
    ensures plan { IfOk result (λ found. IsPlanOf graph.now device.now found.slot.items) }
    ensures found { IfOk result (λ found. IsFound graph.now device.now mode found) }
    ensures refused { IfErr result (λ refusal. Fails (IsUnplanned graph.now device.now mode) (end_at refusal)) }
{
    match mode {
        PlanMode::Exact => planned_by(alloc, graph, device, Mode::Exact),
        PlanMode::Fit => planned_by(alloc, graph, device, Mode::Fit),
        PlanMode::Split => match split(alloc, graph, device) {
            Ok(found) => Ok(found),
            Err(fault) => Err(refusal_of_split(fault)),
        },
    }
}

// Writes the circuit of a program by a plan.
fn put_planned_circuit<O: Sink>(
    alloc: Global,
    program: &Program,
    graph: &Graph,
    device: &Device,
    plan: &Plan,
    balanced: bool,
    out: &mut O,
) -> Result<(), Refusal>
    requires program { IsWellFormed program.now }
    requires names { HasOwnNames program.now }
    requires device { IsDevice graph.now device.now }
    requires slots { length plan.now.slot.items ≡ graph.now.groups }
    ensures { Wrote (IsCircuitBy program.now graph.now device.now plan.now balanced) (written O.Sink out.old) (written O.Sink out.new) (end_of result) }
{
    let added = added_latencies(alloc, graph, plan, device, balanced)?;
    put_circuit(alloc, program, &added, out)
}

/// Writes what a plan is for: its lines, or the circuit of the program by it.
pub fn put_aim<O: Sink>(
    alloc: Global,
    program: &Program,
    graph: &Graph,
    device: &Device,
    plan: &Plan,
    aim: PlanAim,
    out: &mut O,
) -> Result<(), Refusal>
    requires program { IsWellFormed program.now }
    requires names { HasOwnNames program.now }
    requires device { IsDevice graph.now device.now }
    requires slots { length plan.now.slot.items ≡ graph.now.groups }
    ensures { WroteBy aim program.now graph.now device.now plan.now (written O.Sink out.old) (written O.Sink out.new) (end_of result) }
{
    match aim {
        PlanAim::Lines => put_plan(alloc, graph, device, plan, out),
        PlanAim::Circuit { balanced } => {
            put_planned_circuit(alloc, program, graph, device, plan, balanced, out)
        }
    }
}

/// Plans the program of a source on the device of a file and writes what the plan is for, up to the first step that refuses.
pub fn plan_source<S: Shelf, O: Sink>(
    alloc: Global,
    source: &str,
    top: &str,
    file: &str,
    mode: PlanMode,
    aim: PlanAim,
    shelf: &mut S,
    out: &mut O,
) -> Result<(), Refusal>
    ensures { IsCarriedOut (files_of_plan source.now file.now) (MeansPlan top.now mode aim) (outside S.Shelf O.Sink shelf.old out.old) (outside S.Shelf O.Sink shelf.new out.new) (end_of result) }
{
    let program = read_source(alloc, source, top, shelf)?;
    let graph = Graph::of(alloc, &program)?;
    let device = read_device_file(alloc, &program, &graph, file, shelf)?;
    let found = planned(alloc, &graph, &device, mode)?;
    put_aim(alloc, &program, &graph, &device, &found, aim, out)
}
