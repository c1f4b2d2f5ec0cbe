// The changes of a cycle.

ghost use Rattle.std.specs.Prelude.{◌≡◌, ◌^◌, ◌<◌, ◌++◌, [], not, ◌||◌, ◌==◌, if◌then◌else◌, length, OnOk};
ghost use Rattle.vlog_tree.specs.Form.{ModuleTree};
ghost use Rattle.vlog_design.specs.Designs.{TopOf};
ghost use Rattle.cycle_sim.specs.Simulators.{sim_of};
ghost use Rattle.vcd_text.specs.Dump.{change_line, cycle_line};
ghost use Rattle.sim_output.specs.Dumped.{nets_of, widths_of};
ghost use Rattle.sim_output.specs.Turns.{told_at, Fit, turn_lines, IsKept};

use cycle_sim::Sim;
use std::alloc::AllocError;
use vcd_text::{push_change, push_cycle};

// Whether a value is written: the first one, and later one that is another than before.
fn is_change(first: bool, value: u128, before: u128) -> bool
    ensures { result ≡ (first || not (value == before)) }
{
    first || value != before
}

// The line of a net, where its value is written.
fn push_if(
    text: &mut Vec<u8>,
    is_written: bool,
    number: usize,
    bits: u32,
    value: u128,
) -> Result<(), AllocError>
    ensures { OnOk result (value < 2 ^ bits → text.new.items ≡ text.old.items ++ (if is_written then change_line number bits value else [])) }
{
    if is_written {
        push_change(text, number as u64, bits, value)?;
    }
    Ok(())
}

// The lines of all nets in the first cycle, and later of those whose values are others than those that are kept; the values
// of this cycle are kept.
fn push_changes(
    text: &mut Vec<u8>,
    sim: &Sim,
    first: bool,
    widths: &[u32],
    values: &mut Vec<u128>,
) -> Result<(), AllocError>
    requires { length values.old.items ≡ length widths.now }
    ensures lines { OnOk result ((m : ModuleTree) → TopOf (sim_of sim.now).design m → widths.now ≡ widths_of (nets_of m) → Fit m (told_at (sim_of sim.now) m)
        → text.new.items ≡ text.old.items ++ turn_lines first values.old.items (told_at (sim_of sim.now) m) (nets_of m)) }
    ensures kept { OnOk result ((m : ModuleTree) → TopOf (sim_of sim.now).design m → widths.now ≡ widths_of (nets_of m) → IsKept m (told_at (sim_of sim.now) m) values.new.items) }
    ensures count { length values.new.items ≡ length values.old.items }
{
    for net in 0..widths.len() {
        let value = sim.value(net);
        let before = values[net];
        let bits = widths[net];
        push_if(text, is_change(first, value, before), net, bits, value)?;
        values[net] = value;
    }
    Ok(())
}

/// Appends the lines of a cycle to a text: that of the cycle, and those of its changes. The values of the cycle before are
/// replaced by those of this one.
pub(crate) fn push_turn(
    text: &mut Vec<u8>,
    sim: &Sim,
    widths: &[u32],
    values: &mut Vec<u128>,
) -> Result<(), AllocError>
    requires { length values.old.items ≡ length widths.now }
    ensures lines { OnOk result ((m : ModuleTree) → TopOf (sim_of sim.now).design m → widths.now ≡ widths_of (nets_of m) → Fit m (told_at (sim_of sim.now) m)
        → text.new.items ≡ text.old.items ++ (cycle_line (sim_of sim.now).told.cycle ++ turn_lines ((sim_of sim.now).told.cycle == 0) values.old.items (told_at (sim_of sim.now) m) (nets_of m))) }
    ensures kept { OnOk result ((m : ModuleTree) → TopOf (sim_of sim.now).design m → widths.now ≡ widths_of (nets_of m) → IsKept m (told_at (sim_of sim.now) m) values.new.items) }
    ensures count { length values.new.items ≡ length values.old.items }
{
    let cycle = sim.cycle();
    push_cycle(text, cycle)?;
    push_changes(text, sim, cycle == 0, widths, values)
}
