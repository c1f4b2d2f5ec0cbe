// The dump of a simulator's cycles.

ghost use Rattle.std.specs.Prelude.{◌≡◌, ◌≤◌, ◌++◌, ℕ, [], List, Option, IfOk, OnOk, OnErr, IsErrOf};
ghost use Rattle.std.specs.Io.KnownBytes.{Appends};
ghost use Rattle.tapa_files.specs.Outside.{AppendsPart, Rose};
ghost use Rattle.cycle_sim.specs.Simulators.{sim_of};
ghost use Rattle.cycle_sim.specs.Sims.{InRuns, IsLater, IsDoneAt, last_cycle};
ghost use Rattle.sim_output.specs.Dumped.{dump_of};

use crate::dump_changes::push_turn;
use crate::dump_head::push_head;
use cycle_sim::Sim;
use std::alloc::Global;
use tapa_files::{PrintFault, Sink, WriteFault, put_all};

// How many bytes are written together at least, but for the last ones.
const TOGETHER: usize = 65_536;

// Writes a text and empties it, where it has at least `TOGETHER` bytes.
fn put_piece<O: Sink>(text: &mut Vec<u8>, out: &mut O) -> Result<(), WriteFault>
    ensures piece { OnOk result ((piece : List ℕ) × Appends (O.contents out.old) (O.contents out.new) piece × (text.old.items ≡ piece ++ text.new.items)) }
    ensures part { OnErr result (AppendsPart (O.contents out.old) (O.contents out.new) text.old.items) }
    ensures later { O.faults out.old ≤ O.faults out.new }
    ensures fault { OnErr result (Rose (O.faults out.old) (O.faults out.new)) }
{
    if text.len() < TOGETHER {
        return Ok(());
    }
    put_all(out, text)?;
    text.clear();
    Ok(())
}

/// Steps until the design is done or to a cycle, writes the dump of the cycles from 0 on, and gives the first cycle in which
/// the design is done. The simulator is then in the last of these cycles. After an error the output holds what it held
/// and a prefix of the dump of these cycles, and the simulator is in one of them.
pub fn write_vcd<O: Sink>(
    alloc: Global,
    sim: &mut Sim,
    limit: u64,
    out: &mut O,
) -> Result<Option<u64>, PrintFault>
    requires { (sim_of sim.old).told.cycle ≡ 0 }
    ensures done { IfOk result (λ at. InRuns (sim_of sim.old) (λ m env nets. IsDoneAt (λ n. nets n []) limit at)) }
    ensures whole { IfOk result (λ at. InRuns (sim_of sim.old) (λ m env nets. Appends (O.contents out.old) (O.contents out.new) (dump_of m (λ n. nets n []) (last_cycle limit at)))) }
    ensures part { OnErr result (InRuns (sim_of sim.old) (λ m env nets. (at : Option ℕ) → IsDoneAt (λ n. nets n []) limit at
        → AppendsPart (O.contents out.old) (O.contents out.new) (dump_of m (λ n. nets n []) (last_cycle limit at)))) }
    ensures stands { IfOk result (λ at. IsLater (sim_of sim.old) (sim_of sim.new) (last_cycle limit at)) }
    ensures short { OnErr result ((n : ℕ) × (n ≤ limit) × IsLater (sim_of sim.old) (sim_of sim.new) n) }
    ensures later { O.faults out.old ≤ O.faults out.new }
    ensures fault { IsErrOf result PrintFault.WriteFault → Rose (O.faults out.old) (O.faults out.new) }
{
    let design = sim.design();
    let _modules = design.modules();
    design.valid();
    let mut text = Vec::new(alloc);
    let widths = push_head(alloc, &mut text, design)?;
    let mut values = vec![in alloc; 0u128; widths.len()]?;
    push_turn(&mut text, sim, &widths, &mut values)?;
    for cycle in 0..limit {
        sim.step();
        push_turn(&mut text, sim, &widths, &mut values)?;
        put_piece(&mut text, out)?;
        if sim.done() {
            put_all(out, &text)?;
            return Ok(Some(cycle + 1));
        }
    }
    put_all(out, &text)?;
    Ok(None)
}
