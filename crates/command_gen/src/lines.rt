// The lines of a network's summary.
ghost use Rattle.std.specs.Prelude.{◌≡◌, map, IfOk};
ghost use Rattle.command_gen.specs.Summaries.{number_line, summary_lines as summary_lines_lem};

use itoa::Buffer;
use std::alloc::{AllocError, Global};
use tapa_base::OutOfMemory;

/// The numbers of a network: its instances and its streams, the ticks of its run, the tokens that its streams carried and their sum modulo
/// 2^64, and the cycle in which its circuit was done.
#[derive(Clone, Copy, Debug, PartialEq, Eq)]
pub struct Summary {
    pub tasks: u64,
    pub streams: u64,
    pub ticks: u64,
    pub tokens: u64,
    pub sum: u64,
    pub cycles: u64,
}

// A word and a number.
fn number_line(alloc: Global, word: &[u8], number: u64) -> Result<Vec<u8>, AllocError>
    ensures { IfOk result (λ line. line.items ≡ number_line word.now number) }
{
    let mut buffer = Buffer::new();
    let mut line = Vec::from_slice(alloc, word)?;
    line.extend_from_slice(buffer.format(number).as_bytes())?;
    line.push(b'\n')?;
    Ok(line)
}

/// The lines of a summary, each with its end of line.
pub fn summary_lines(alloc: Global, summary: &Summary) -> Result<Vec<Vec<u8>>, OutOfMemory>
    ensures { IfOk result (λ lines. map (λ line. line.items) lines.items ≡ summary_lines_lem summary.now) }
{
    let mut lines = Vec::new(alloc);
    lines.push(number_line(alloc, b"tasks ", summary.tasks)?)?;
    lines.push(number_line(alloc, b"streams ", summary.streams)?)?;
    lines.push(number_line(alloc, b"ticks ", summary.ticks)?)?;
    lines.push(number_line(alloc, b"tokens ", summary.tokens)?)?;
    lines.push(number_line(alloc, b"sum ", summary.sum)?)?;
    lines.push(number_line(alloc, b"cycles ", summary.cycles)?)?;
    Ok(lines)
}
