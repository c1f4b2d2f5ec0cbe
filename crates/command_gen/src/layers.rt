// The text of the generated network.
ghost use Rattle.std.specs.Prelude.{◌≡◌, ◌+◌, ◌≤◌, ◌++◌, ◌%◌, length, string_bytes, IfOk, OnOk};
ghost use Rattle.command_gen.specs.Layers.{each_below, stream_name, line_of, row_of, network_text, most_bytes};

use std::alloc::{AllocError, Global};
use tapa_base::OutOfMemory;

// The tasks that a layer is made of: the first layer's, which write, those between, and the last layer's, which read.
const SOURCE: &[u8] =
    b"void Src(tapa::ostream<uint64_t>& a, tapa::ostream<uint64_t>& b) {\n  for (uint64_t i = 0; i < 100; ++i) { a << i; b << i; } }\n";

const MIDDLE: &[u8] =
    b"void Mid(tapa::istream<uint64_t>& x, tapa::istream<uint64_t>& y, tapa::ostream<uint64_t>& a, tapa::ostream<uint64_t>& b) {\n  for (uint64_t i = 0; i < 100; ++i) { uint64_t t = x.read() + y.read(); a << t; b << t; } }\n";

const SINK: &[u8] =
    b"void Dst(tapa::istream<uint64_t>& x, tapa::istream<uint64_t>& y) {\n  uint64_t t = 0; for (uint64_t i = 0; i < 100; ++i) { t += x.read() + y.read(); } }\n";

// The number of tasks in a layer.
const PLACES: u32 = 4;

// What a line of the top task is for.
#[derive(Clone, Copy)]
pub(crate) enum Part {
    /// The two streams from a position of a layer.
    Streams,
    /// A task of the first layer.
    Sources,
    /// A task between a layer's streams and the next one's.
    Middles,
    /// A task of the last layer.
    Sinks,
}

// The name of a stream: its letter, its layer and its position there.
fn stream_name(alloc: Global, letter: &str, layer: u32, place: u32) -> Result<String, AllocError>
    ensures { IfOk result (λ name. string_bytes name ≡ stream_name letter.now layer place) }
{
    format!(in alloc; "{letter}{layer}_{place}")
}

// The line of a task between two layers.
fn middle_line(alloc: Global, layer: u32, place: u32) -> Result<String, AllocError>
    requires layer { layer ≤ 126 }
    requires place { place ≤ 3 }
    ensures { IfOk result (λ line. string_bytes line ≡ line_of Part.Middles layer place) }
{
    let first = stream_name(alloc, "a", layer, place)?;
    let second = stream_name(alloc, "b", layer, (place + 3) % PLACES)?;
    let third = stream_name(alloc, "a", layer + 1, place)?;
    let fourth = stream_name(alloc, "b", layer + 1, place)?;
    format!(in alloc; "    .invoke(Mid, {first}, {second}, {third}, {fourth})\n")
}

// A line of the top task at a position of a layer.
fn line(alloc: Global, part: Part, layer: u32, place: u32) -> Result<String, AllocError>
    requires layer { layer ≤ 126 }
    requires place { place ≤ 3 }
    ensures { IfOk result (λ line. string_bytes line ≡ line_of part layer place) }
{
    let ahead = stream_name(alloc, "a", layer, place)?;
    let aside = stream_name(alloc, "b", layer, place)?;
    let across = stream_name(alloc, "b", layer, (place + 3) % PLACES)?;
    match part {
        Part::Streams => format!(in alloc; "  tapa::stream<uint64_t> {ahead}, {aside};\n"),
        Part::Sources => format!(in alloc; "    .invoke(Src, {ahead}, {aside})\n"),
        Part::Middles => middle_line(alloc, layer, place),
        Part::Sinks => format!(in alloc; "    .invoke(Dst, {ahead}, {across})\n"),
    }
}

// Adds a line for each position of a layer.
fn add_row(alloc: Global, part: Part, layer: u32, text: &mut Vec<u8>) -> Result<(), AllocError>
    requires { layer ≤ 126 }
    ensures { OnOk result (text.new.items ≡ text.old.items ++ row_of part layer) }
{
    for place in 0..PLACES {
        let line = line(alloc, part, layer, place)?;
        text.extend_from_slice(line.as_bytes())?;
    }
    Ok(())
}

// Adds the rows of `layers` layers.
fn add_rows(alloc: Global, part: Part, layers: u32, text: &mut Vec<u8>) -> Result<(), AllocError>
    requires { layers ≤ 127 }
    ensures { OnOk result (text.new.items ≡ text.old.items ++ each_below layers (row_of part)) }
{
    for layer in 0..layers {
        add_row(alloc, part, layer, text)?;
    }
    Ok(())
}

// The text of the network of `layers` layers.
fn text_of(alloc: Global, layers: u32) -> Result<Vec<u8>, AllocError>
    requires { layers ≤ 126 }
    ensures { IfOk result (λ text. text.items ≡ network_text layers) }
{
    let mut text = Vec::from_slice(alloc, SOURCE)?;
    text.extend_from_slice(MIDDLE)?;
    text.extend_from_slice(SINK)?;
    text.extend_from_slice(b"void Gen() {\n")?;
    add_rows(alloc, Part::Streams, layers + 1, &mut text)?;
    text.extend_from_slice(b"  tapa::task()\n")?;
    add_row(alloc, Part::Sources, 0, &mut text)?;
    add_rows(alloc, Part::Middles, layers, &mut text)?;
    add_row(alloc, Part::Sinks, layers, &mut text)?;
    text.extend_from_slice(b"  ;\n}\n")?;
    Ok(text)
}

/// The text of the network of `layers` layers, 0 to 126, between four tasks that write and four that read: a program whose top
/// task is `Gen`. It is no longer than a source may be.
pub fn generate(alloc: Global, layers: u32) -> Result<Vec<u8>, OutOfMemory>
    requires { layers ≤ 126 }
    ensures text { IfOk result (λ text. text.items ≡ network_text layers) }
    ensures within { IfOk result (λ text. length text.items ≤ most_bytes) }
{
    let text = text_of(alloc, layers)?;
    Ok(text)
}
