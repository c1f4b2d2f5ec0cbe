// What the instances of a stopped run wait for.
ghost use Rattle.std.specs.Prelude.{◌≡◌, ◌<◌, ◌≤◌, ◌++◌, length, codes, Some, None, IfOk, OnOk, MatchOption};
ghost use Rattle.std.specs.Arc.{arc_value};
ghost use Rattle.tapa_syntax.specs.WellFormed.{IsWellFormed};
ghost use Rattle.net_core.specs.State.{network, count};
ghost use Rattle.net_core.specs.Settle.{AreTold};
ghost use Rattle.run_data.specs.Lines.{lines_in};
ghost use Rattle.run_program.specs.Pauses.{bound_label, pause_line, last_pause_lines};
ghost use Rattle.run_program.specs.Run.{label_of, wait_line, AreWaitLines};

use net_core::{Body, Net, Pause};
use std::alloc::{AllocError, Global};
use tapa_base::OutOfMemory;
use tapa_syntax::{Instance, Program};

// The label of a stream, and nothing where there is no such stream.
fn stream_label(program: &Program, stream: u32) -> &[u8]
    ensures { result.now ≡ label_of program.now.streams.items stream }
{
    match program.streams.get(stream as usize) {
        Some(stream) => stream.label.bytes(),
        None => &[],
    }
}

// A line: an instance, what it waits for, and a stream.
fn line_of(alloc: Global, label: &[u8], what: &[u8], stream: &[u8]) -> Result<Vec<u8>, AllocError>
    ensures { IfOk result (λ line. line.items ≡ wait_line label.now what.now stream.now) }
{
    let mut line = Vec::from_slice(alloc, b"tapa: ")?;
    line.extend_from_slice(label)?;
    line.extend_from_slice(what)?;
    line.extend_from_slice(stream)?;
    line.push(b'\n')?;
    Ok(line)
}

// The label of the stream at a position of an instance.
fn label_at<'a>(program: &'a Program, instance: &Instance, position: u32) -> &'a [u8]
    ensures { result.now ≡ bound_label program.now.streams.items instance.now position }
{
    let stream = instance
        .streams
        .get(position as usize)
        .copied()
        .unwrap_or(0);
    stream_label(program, stream)
}

// The line of an instance by its last pause, and none where it has ended.
fn pause_text(
    alloc: Global,
    program: &Program,
    instance: &Instance,
    pause: Pause,
) -> Result<Option<Vec<u8>>, AllocError>
    ensures { IfOk result (λ text. MatchOption text (pause_line program.now.streams.items instance.now pause ≡ None)
        (λ line. pause_line program.now.streams.items instance.now pause ≡ Some line.items)) }
{
    let label = instance.label.bytes();
    match pause {
        Pause::WantsRead(p) => {
            let line = line_of(
                alloc,
                label,
                b" waits to read ",
                label_at(program, instance, p),
            )?;
            Ok(Some(line))
        }
        Pause::WantsWrite(p) => {
            let line = line_of(
                alloc,
                label,
                b" waits to write ",
                label_at(program, instance, p),
            )?;
            Ok(Some(line))
        }
        Pause::BadToken(p) => {
            let line = line_of(
                alloc,
                label,
                b" bad token on ",
                label_at(program, instance, p),
            )?;
            Ok(Some(line))
        }
        Pause::Ended => Ok(None),
        Pause::Fuel => Ok(None),
    }
}

// Adds the line of an instance, where it has not ended.
fn push_wait(
    alloc: Global,
    program: &Program,
    instance: &Instance,
    pause: Option<Pause>,
    lines: &mut Vec<Vec<u8>>,
) -> Result<(), AllocError>
    ensures { OnOk result (lines_in lines.new.items ≡ lines_in lines.old.items ++ last_pause_lines program.now.streams.items instance.now pause) }
{
    match pause {
        None => Ok(()),
        Some(pause) => match pause_text(alloc, program, instance, pause)? {
            None => Ok(()),
            Some(line) => {
                lines.push(line)?;
                Ok(())
            }
        },
    }
}

/// A line for each instance that has not ended, in order: what it waits for at the end of a run.
pub(crate) fn wait_lines<B: Body>(
    alloc: Global,
    program: &Program,
    net: &Net<B>,
) -> Result<Vec<Vec<u8>>, OutOfMemory>
    requires program { program.now ≡ net.now.program }
    requires few { length program.now.instances.items ≤ 512 }
    requires told { AreTold net.now }
    ensures { IfOk result (λ lines. AreWaitLines (network net.now) (count net.now) program.now.streams.items 0 program.now.instances.items (lines_in lines.items)) }
{
    let mut lines = Vec::new(alloc);
    for i in 0..program.instances.len() {
        let pause = net.pause(i as u32);
        push_wait(alloc, program, &program.instances[i], pause, &mut lines)?;
    }
    Ok(lines)
}
