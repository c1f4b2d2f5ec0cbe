// The report of a run.
ghost use Rattle.std.specs.Prelude.{◌≡◌, ◌<◌, ◌≤◌, ◌++◌, length, OnOk, OnErr, IsErrOf};
ghost use Rattle.std.specs.Io.KnownBytes.{Appends};
ghost use Rattle.tapa_files.specs.Outside.{AppendsPart, Rose};
ghost use Rattle.run_data.specs.Report.{last_line};
ghost use Rattle.net_core.specs.State.{network, count};
ghost use Rattle.run_program.specs.Run.{tokens_at, cells_shown, stream_lines, memory_lines, lines_at};
ghost use Rattle.net_core.specs.Bounded.{values_of};

use crate::cells::shown_cells;
use coro_machine::Coro;
use net_core::{Body, Input, Net};
use run_data::{Last, report_last, report_memory, report_stream};
use std::alloc::Global;
use tapa_base::Token;
use tapa_files::{PrintFault, Sink};
use tapa_syntax::Program;

// What a report with this last line shows of a stream.
fn shown_tokens<'a, B: Body>(net: &'a Net<B>, last: Last, s: u32) -> &'a [Token]
    requires { s < length net.now.program.streams.items }
    ensures { result.now ≡ tokens_at (network net.now) (count net.now) last s }
{
    match last {
        Last::Done(_) => net.shown(s),
        Last::Stopped(_) => net.carried(s),
        Last::Running(_) => net.carried(s),
    }
}

// The lines of all streams.
fn show_streams<B: Body, O: Sink>(
    alloc: Global,
    program: &Program,
    net: &Net<B>,
    last: Last,
    out: &mut O,
) -> Result<(), PrintFault>
    requires program { program.now ≡ net.now.program }
    requires few { length program.now.streams.items ≤ 1024 }
    ensures whole { OnOk result (Appends (O.contents out.old) (O.contents out.new) (stream_lines (tokens_at (network net.now) (count net.now) last) 0 program.now.streams.items)) }
    ensures part { OnErr result (AppendsPart (O.contents out.old) (O.contents out.new) (stream_lines (tokens_at (network net.now) (count net.now) last) 0 program.now.streams.items)) }
    ensures later { O.faults out.old ≤ O.faults out.new }
    ensures fault { IsErrOf result PrintFault.WriteFault → Rose (O.faults out.old) (O.faults out.new) }
{
    for s in 0..program.streams.len() {
        let label = program.streams[s].label.bytes();
        report_stream(alloc, label, shown_tokens(net, last, s as u32), out)?;
    }
    Ok(())
}

// The lines of all memories.
fn show_memories<O: Sink>(
    alloc: Global,
    program: &Program,
    input: &Input,
    net: &Net<Coro>,
    last: Last,
    out: &mut O,
) -> Result<(), PrintFault>
    requires program { program.now ≡ net.now.program }
    requires input { input.now ≡ net.now.input }
    requires few { length program.now.instances.items ≤ 512 }
    ensures whole { OnOk result (Appends (O.contents out.old) (O.contents out.new) (memory_lines (cells_shown program.now (values_of input.now) (count net.now) last) 0 program.now.memories.items)) }
    ensures part { OnErr result (AppendsPart (O.contents out.old) (O.contents out.new)
        (memory_lines (cells_shown program.now (values_of input.now) (count net.now) last) 0 program.now.memories.items)) }
    ensures later { O.faults out.old ≤ O.faults out.new }
    ensures fault { IsErrOf result PrintFault.WriteFault → Rose (O.faults out.old) (O.faults out.new) }
{
    for m in 0..program.memories.len() {
        let cells = shown_cells(program, input, net, last, m)?;
        let name = program.memories[m].name.bytes();
        report_memory(alloc, name, cells, out)?;
    }
    Ok(())
}

/// Writes what is shown of each stream, the cells of each memory, and how the run ended.
pub(crate) fn show<O: Sink>(
    alloc: Global,
    program: &Program,
    input: &Input,
    net: &Net<Coro>,
    last: Last,
    out: &mut O,
) -> Result<(), PrintFault>
    requires program { program.now ≡ net.now.program }
    requires input { input.now ≡ net.now.input }
    requires few_instances { length program.now.instances.items ≤ 512 }
    requires few_streams { length program.now.streams.items ≤ 1024 }
    ensures whole { OnOk result (Appends (O.contents out.old) (O.contents out.new) (lines_at program.now (values_of input.now) (count net.now) last ++ last_line last)) }
    ensures part { OnErr result (AppendsPart (O.contents out.old) (O.contents out.new) (lines_at program.now (values_of input.now) (count net.now) last ++ last_line last)) }
    ensures later { O.faults out.old ≤ O.faults out.new }
    ensures fault { IsErrOf result PrintFault.WriteFault → Rose (O.faults out.old) (O.faults out.new) }
{
    show_streams(alloc, program, net, last, out)?;
    show_memories(alloc, program, input, net, last, out)?;
    report_last(alloc, last, out)
}
