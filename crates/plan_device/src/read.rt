// Reads a device file for a program and its task graph: gives the device with the constraints on its floorplan, or the first fault.
ghost use Rattle.std.specs.Prelude.{◌≡◌, ◌<◌, ◌*◌, ℕ, All, None, false, IfSome, IfOk, IfErr, OnOk, length, get_or};
ghost use Rattle.serde_json.specs.View.{view};
ghost use Rattle.tapa_syntax.specs.declared.program.Program.{Program};
ghost use Rattle.task_graph.specs.declared.Graph.{Graph};
ghost use Rattle.task_graph.specs.Programs.{IsGraphOf};
ghost use Rattle.run_data.specs.Data.{IsJson};
ghost use Rattle.run_data.specs.Seen.{first};
ghost use Rattle.plan_device.specs.Answer.{IsDeviceOf, IsDeviceCause, IsFirstOf};
ghost use Rattle.plan_device.specs.Checked.{AreKeysRight, IsPlaced};
ghost use Rattle.plan_device.specs.Devices.{IsDevice};
ghost use Rattle.plan_device.specs.Pins.{label_at, pins_of, elsewhere, is_forbidden, on_forbidden};
ghost use Rattle.plan_device.specs.Tests.{grid_of};

use crate::check::Check;
use crate::contents::{borders, percent_of, slots_of, uses_of};
use crate::device::Device;
use crate::fault::DeviceFault;
use crate::find::find;
use crate::json::grid_of;
use crate::key::{Format, Key};
use crate::misshapen::find_misshapen;
use crate::names::Known;
use crate::pins::{GroupPins, find_on_forbidden, forbidden, pin_groups, pins_of};
use serde_json::Value;
use std::alloc::{AllocError, Global};
use tapa_syntax::Program;
use task_graph::Graph;

// The value of a text.
fn read_json(alloc: Global, text: &[u8]) -> Result<Value, DeviceFault>
    ensures value { IfOk result (λ file. IsJson text.now (view file)) }
    ensures cause { IfErr result (λ fault. (program : Program) (graph : Graph) → IsDeviceCause text.now program graph fault) }
{
    match Value::from_slice(alloc, text) {
        Ok(file) => Ok(file),
        Err(error) => {
            if error.is_memory() {
                Err(DeviceFault::OutOfMemory)
            } else {
                Err(DeviceFault::J1)
            }
        }
    }
}

// The faults of keys: shapes, numbers, ranges, and names.
fn check_keys(alloc: Global, program: &Program, file: &Value) -> Result<(), DeviceFault>
    ensures right { OnOk result (AreKeysRight program.now (view file.now)) }
    ensures cause { IfErr result (λ fault. (graph : Graph) → IsFirstOf program.now graph (view file.now) fault) }
{
    let known = Known::of(alloc, program)?;
    let format = Format::of(file);
    let grid = grid_of(file);
    if let Some(key) = find_misshapen(alloc, &known, file)? {
        return Err(DeviceFault::J2(key));
    }
    if let Some(key) = find(alloc, Check::Number, format, &known, file)? {
        return Err(DeviceFault::J3(key));
    }
    if let Some(key) = find(alloc, Check::Range(grid), format, &known, file)? {
        return Err(DeviceFault::K1(key));
    }
    if let Some(name) = find(alloc, Check::Name, format, &known, file)? {
        return Err(DeviceFault::K2(name));
    }
    Ok(())
}

// The label of an instance.
#[tactic(auto, unfolding(crate::specs::Pins::label_at))]
fn label_at(alloc: Global, program: &Program, i: usize) -> Result<Vec<u8>, AllocError>
    ensures { IfOk result (λ label. label.items ≡ label_at program.now i) }
{
    match program.instances.get(i) {
        Some(instance) => instance.label.bytes().to_vec(alloc),
        None => Ok(Vec::new(alloc)),
    }
}

/// Where groups are pinned, and which slots are left empty.
#[derive(Drop)]
struct Placed {
    groups: Vec<Option<u32>>,
    forbidden: Vec<bool>,
}

// The forbidden slots, and the first instance that is pinned to one.
fn check_forbidden(
    alloc: Global,
    program: &Program,
    file: &Value,
    pins: &[Option<u32>],
    groups: Vec<Option<u32>>,
) -> Result<Placed, DeviceFault>
    requires pins { pins.now ≡ pins_of (grid_of (view file.now)) program.now (view file.now) }
    requires inside { All (λ pin. IfSome pin (λ s. s < (grid_of (view file.now)).rows * (grid_of (view file.now)).cols)) pins.now }
    ensures free { OnOk result (None ≡ first (on_forbidden (grid_of (view file.now)) program.now (view file.now))) }
    ensures groups { IfOk result (λ placed. placed.groups.items ≡ groups.items) }
    ensures slots { IfOk result (λ placed. length placed.forbidden.items ≡ (grid_of (view file.now)).rows * (grid_of (view file.now)).cols) }
    ensures forbidden { IfOk result (λ placed. (s : ℕ) → s < length placed.forbidden.items
        → get_or placed.forbidden.items s false ≡ is_forbidden (grid_of (view file.now)) (view file.now) s) }
    ensures cause { IfErr result (λ fault. (graph : Graph) → AreKeysRight program.now (view file.now)
        → None ≡ first (elsewhere (grid_of (view file.now)) program.now graph (view file.now)) → IsFirstOf program.now graph (view file.now) fault) }
{
    let grid = grid_of(file);
    let forbidden = forbidden(alloc, grid, file)?;
    if let Some(i) = find_on_forbidden(pins, &forbidden) {
        return Err(DeviceFault::K4(label_at(alloc, program, i)?));
    }
    Ok(Placed { groups, forbidden })
}

// The faults of pins, and what they say of groups.
fn check_pins(
    alloc: Global,
    program: &Program,
    graph: &Graph,
    file: &Value,
) -> Result<Placed, DeviceFault>
    requires graph { IsGraphOf program.now graph.now }
    ensures placed { IfOk result (λ placed. IsPlaced program.now graph.now (view file.now) placed) }
    ensures cause { IfErr result (λ fault. AreKeysRight program.now (view file.now) → IsFirstOf program.now graph.now (view file.now) fault) }
{
    let grid = grid_of(file);
    let pins = pins_of(alloc, grid, file, &program.instances)?;
    match pin_groups(alloc, graph.groups, &graph.group, &pins)? {
        GroupPins::Slots(groups) => check_forbidden(alloc, program, file, &pins, groups),
        GroupPins::Elsewhere(i) => Err(DeviceFault::K3(label_at(alloc, program, i)?)),
    }
}

/// Reads a device file, of version 1 or 2, for a program and its graph. A file without a fault gives the device; else the
/// first of its faults is reported: all of J2 over the whole file before all of J3, and then those of K1 to K4 in this order.
pub fn read_device(
    alloc: Global,
    text: &[u8],
    program: &Program,
    graph: &Graph,
) -> Result<Device, DeviceFault>
    requires graph { IsGraphOf program.now graph.now }
    ensures value { IfOk result (λ device. IsDeviceOf text.now program.now graph.now device) }
    ensures device { IfOk result (λ device. IsDevice graph.now device) }
    ensures cause { IfErr result (λ fault. IsDeviceCause text.now program.now graph.now fault) }
{
    let file = read_json(alloc, text)?;
    check_keys(alloc, program, &file)?;
    let placed = check_pins(alloc, program, graph, &file)?;
    let format = Format::of(&file);
    let grid = grid_of(&file);
    let levels_rows = borders(alloc, format, Key::LevelsRows, grid.rows, &file)?;
    let levels_cols = borders(alloc, format, Key::LevelsCols, grid.cols, &file)?;
    let slots = slots_of(alloc, &file)?;
    let uses = uses_of(alloc, program, &graph.uses, &file)?;
    Ok(Device {
        rows: grid.rows,
        cols: grid.cols,
        levels_rows,
        levels_cols,
        percent: percent_of(&file),
        slots,
        uses,
        pins: placed.groups,
        forbidden: placed.forbidden,
    })
}
