// The report of a design's run.

ghost use Rattle.std.specs.Prelude.{◌≡◌, ◌≤◌, ◌++◌, [], slice_index_or, OnOk, OnErr, IsErrOf};
ghost use Rattle.std.specs.Io.KnownBytes.{Appends};
ghost use Rattle.tapa_files.specs.Outside.{AppendsPart, Rose};
ghost use Rattle.run_data.specs.Report.{last_line};
ghost use Rattle.vlog_design.specs.Environments.{lists_of};
ghost use Rattle.cycle_sim.specs.Simulators.{sim_of};
ghost use Rattle.sim_output.specs.Reports.{stream_lines, memory_lines};

use cycle_sim::Sim;
use run_data::{Last, report_last, report_memory, report_stream};
use std::alloc::Global;
use tapa_base::{Port, Token};
use tapa_files::{PrintFault, Sink};

// The tokens of a stream by its index, and none past the last.
fn tokens_at(tokens: &[Vec<Token>], place: usize) -> &[Token]
    ensures { result.now ≡ slice_index_or (lists_of tokens.now) place [] }
{
    match tokens.get(place) {
        Some(list) => list,
        None => &[],
    }
}

// The lines of all streams.
fn show_streams<O: Sink>(
    alloc: Global,
    streams: &[Port],
    tokens: &[Vec<Token>],
    out: &mut O,
) -> Result<(), PrintFault>
    ensures whole { OnOk result (Appends (O.contents out.old) (O.contents out.new) (stream_lines (λ i. slice_index_or (lists_of tokens.now) i []) streams.now)) }
    ensures part { OnErr result (AppendsPart (O.contents out.old) (O.contents out.new) (stream_lines (λ i. slice_index_or (lists_of tokens.now) i []) streams.now)) }
    ensures later { O.faults out.old ≤ O.faults out.new }
    ensures fault { IsErrOf result PrintFault.WriteFault → Rose (O.faults out.old) (O.faults out.new) }
{
    for s in 0..streams.len() {
        let label = streams[s].name.bytes();
        report_stream(alloc, label, tokens_at(tokens, s), out)?;
    }
    Ok(())
}

// The lines of all memories. Where there is memory for them, their indices stay below 2^32.
fn show_memories<O: Sink>(
    alloc: Global,
    memories: &[Port],
    sim: &Sim,
    out: &mut O,
) -> Result<(), PrintFault>
    ensures whole { OnOk result (Appends (O.contents out.old) (O.contents out.new) (memory_lines (sim_of sim.now).told.outside memories.now)) }
    ensures part { OnErr result (AppendsPart (O.contents out.old) (O.contents out.new) (memory_lines (sim_of sim.now).told.outside memories.now)) }
    ensures later { O.faults out.old ≤ O.faults out.new }
    ensures fault { IsErrOf result PrintFault.WriteFault → Rose (O.faults out.old) (O.faults out.new) }
{
    for m in 0..memories.len() {
        let Ok(place) = u32::try_from(m) else {
            return Err(PrintFault::OutOfMemory);
        };
        let name = memories[m].name.bytes();
        report_memory(alloc, name, sim.memory(place), out)?;
    }
    Ok(())
}

/// Writes what each stream carried, the cells of each memory, and how the run ended.
pub(crate) fn show<O: Sink>(
    alloc: Global,
    streams: &[Port],
    tokens: &[Vec<Token>],
    memories: &[Port],
    sim: &Sim,
    last: Last,
    out: &mut O,
) -> Result<(), PrintFault>
    ensures whole { OnOk result (Appends (O.contents out.old) (O.contents out.new)
        ((stream_lines (λ i. slice_index_or (lists_of tokens.now) i []) streams.now ++ memory_lines (sim_of sim.now).told.outside memories.now) ++ last_line last)) }
    ensures part { OnErr result (AppendsPart (O.contents out.old) (O.contents out.new)
        ((stream_lines (λ i. slice_index_or (lists_of tokens.now) i []) streams.now ++ memory_lines (sim_of sim.now).told.outside memories.now) ++ last_line last)) }
    ensures later { O.faults out.old ≤ O.faults out.new }
    ensures fault { IsErrOf result PrintFault.WriteFault → Rose (O.faults out.old) (O.faults out.new) }
{
    show_streams(alloc, streams, tokens, out)?;
    show_memories(alloc, memories, sim, out)?;
    report_last(alloc, last, out)
}
