// Printing.

ghost use Rattle.std.specs.Prelude.{◌≡◌, ◌≤◌, ◌<◌, ◌++◌, length, take, IfOk, OnOk, OnErr, IsErrOf};
ghost use Rattle.std.specs.Io.KnownBytes.{Appends};
ghost use Rattle.tapa_files.specs.Outside.{AppendsPart, Rose};
ghost use Rattle.vlog_tree.specs.Spelling.{spelling};
ghost use Rattle.verilog_text.specs.Lines.{IsLine, EndsLine};

use crate::page::Page;
use crate::words::modules;
use std::alloc::{AllocError, Global};
use tapa_files::{PrintFault, Sink, WriteFault, put_all};
use vlog_design::Design;
use vlog_tree::Module;

fn spell(alloc: Global, parts: &[Module]) -> Result<Vec<u8>, AllocError>
    ensures { IfOk result (λ text. text.items ≡ spelling parts.now) }
{
    let mut page = Page::new(alloc);
    modules(&mut page, alloc, parts)?;
    Ok(page.into_text())
}

// How many bytes the first line has, with its end.
fn line_length(text: &[u8]) -> usize
    ensures within { result ≤ length text.now }
    ensures some { 0 < length text.now → 0 < result }
    ensures line { IsLine (take result text.now) }
    ensures ended { result < length text.now → EndsLine (take result text.now) }
{
    for at in 0..text.len() {
        if text[at] == b'\n' {
            return at + 1;
        }
    }
    text.len()
}

// Puts a text line by line.
fn put_lines<O: Sink>(out: &mut O, text: &[u8]) -> Result<(), WriteFault>
    ensures whole { OnOk result (Appends (O.contents out.old) (O.contents out.new) text.now) }
    ensures part { OnErr result (AppendsPart (O.contents out.old) (O.contents out.new) text.now) }
    ensures later { O.faults out.old ≤ O.faults out.new }
    ensures fault { OnErr result (Rose (O.faults out.old) (O.faults out.new)) }
{
    let mut rest = text;
    while !rest.is_empty() {
        let count = line_length(rest);
        match put_all(out, &rest[..count]) {
            Ok(()) => rest = &rest[count..],
            Err(fault) => return Err(fault),
        }
    }
    Ok(())
}

/// Writes the one text of modules, a line at a time.
pub fn print_modules<O: Sink>(
    alloc: Global,
    parts: &[Module],
    out: &mut O,
) -> Result<(), PrintFault>
    ensures whole { OnOk result (Appends (O.contents out.old) (O.contents out.new) (spelling parts.now)) }
    ensures part { OnErr result (AppendsPart (O.contents out.old) (O.contents out.new) (spelling parts.now)) }
    ensures later { O.faults out.old ≤ O.faults out.new }
    ensures fault { IsErrOf result PrintFault.WriteFault → Rose (O.faults out.old) (O.faults out.new) }
{
    let text = spell(alloc, parts)?;
    put_lines(out, &text)?;
    Ok(())
}

/// Writes the one text of a design, a line at a time.
pub fn print<O: Sink>(alloc: Global, design: &Design, out: &mut O) -> Result<(), PrintFault>
    ensures whole { OnOk result (Appends (O.contents out.old) (O.contents out.new) (spelling design.now.modules)) }
    ensures part { OnErr result (AppendsPart (O.contents out.old) (O.contents out.new) (spelling design.now.modules)) }
    ensures later { O.faults out.old ≤ O.faults out.new }
    ensures fault { IsErrOf result PrintFault.WriteFault → Rose (O.faults out.old) (O.faults out.new) }
{
    print_modules(alloc, design.modules(), out)
}
