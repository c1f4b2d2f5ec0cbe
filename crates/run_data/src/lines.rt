// The lines of a report: the tokens of a stream, the cells of a memory, and how the run or simulation ended.
ghost use Rattle.std.specs.Prelude.{◌≡◌, ◌+◌, ◌<◌, ◌≤◌, ◌∷◌, ◌++◌, length, drop, codes, IfOk, OnOk, OnErr, IsErrOf};
ghost use Rattle.std.specs.Io.KnownBytes.{Appends};
ghost use Rattle.tapa_files.specs.Outside.{AppendsPart, Rose};
ghost use Rattle.run_data.specs.Report.{number_text, token_text, tokens_text, numbers_text, stream_line, memory_line, last_line, HasNoLf, IsOneLine};

use itoa::{Buffer, write_digits};
use std::alloc::{AllocError, Global};
use tapa_base::Token;
use tapa_files::{PrintFault, Sink, put_all};

/// How a run ended: the ticks of a run, or the cycle of a simulation.
#[derive(Clone, Copy, PartialEq, Eq, Debug)]
pub enum Last {
    Done(u64),
    Stopped(u64),
    Running(u64),
}

// The bytes of a space and the longest number.
const LONGEST: usize = 21;

// A space and a number, which are written into a buffer first.
fn push_number(
    line: &mut Vec<u8>,
    buffer: &mut [u8; LONGEST],
    number: u64,
) -> Result<(), AllocError>
    ensures { OnOk result (line.new.items ≡ line.old.items ++ number_text number) }
{
    let start = write_digits(number, buffer, LONGEST) - 1;
    buffer[start] = b' ';
    line.extend_from_slice(&buffer[start..])?;
    Ok(())
}

// How many tokens are written together, and the bytes that they take at most.
const TOGETHER: usize = 64;

const ROOM: usize = 1344;

// Writes a byte before index `end` of a buffer, and returns its index.
#[inline(always)]
fn write_byte(buffer: &mut [u8; ROOM], byte: u8, end: usize) -> usize
    requires some { 0 < end }
    requires within { end ≤ 1344 }
    ensures text { drop result buffer.new ≡ byte ∷ drop end buffer.old }
    ensures start { result + 1 ≡ end }
{
    let start = end - 1;
    buffer[start] = byte;
    start
}

// Writes a space and a number before index `end` of a buffer, and returns the index of the space.
#[inline(always)]
fn write_number(buffer: &mut [u8; ROOM], number: u64, end: usize) -> usize
    requires some { 21 ≤ end }
    requires within { end ≤ 1344 }
    ensures text { drop result buffer.new ≡ number_text number ++ drop end buffer.old }
    ensures start { end ≤ result + 21 }
    ensures within { result ≤ end }
{
    let digits = write_digits(number, buffer, end);
    write_byte(buffer, b' ', digits)
}

// Writes a space and the word for an end of transaction before index `end` of a buffer, and returns the index of the space.
#[inline(always)]
fn write_eot(buffer: &mut [u8; ROOM], end: usize) -> usize
    requires some { 4 ≤ end }
    requires within { end ≤ 1344 }
    ensures text { drop result buffer.new ≡ codes " eot" ++ drop end buffer.old }
    ensures start { result + 4 ≡ end }
{
    let third = write_byte(buffer, b't', end);
    let second = write_byte(buffer, b'o', third);
    let first = write_byte(buffer, b'e', second);
    write_byte(buffer, b' ', first)
}

// Writes a space and a token before index `end` of a buffer, and returns the index of the space.
#[inline(always)]
fn write_token(buffer: &mut [u8; ROOM], token: Token, end: usize) -> usize
    requires some { 21 ≤ end }
    requires within { end ≤ 1344 }
    ensures text { drop result buffer.new ≡ token_text token ++ drop end buffer.old }
    ensures start { end ≤ result + 21 }
    ensures within { result ≤ end }
{
    match token {
        Token::Datum(number) => write_number(buffer, number, end),
        Token::Eot => write_eot(buffer, end),
    }
}

// Tokens at the end of a buffer, the last one first, and where they start.
fn write_tokens(buffer: &mut [u8; ROOM], tokens: &[Token]) -> usize
    requires { length tokens.now ≤ 64 }
    ensures text { drop result buffer.new ≡ tokens_text tokens.now }
    ensures within { result ≤ 1344 }
{
    let mut at = ROOM;
    let mut left = tokens.len();
    'back: while left > 0 {
        left -= 1;
        at = write_token(buffer, tokens[left], at);
    }
    at
}

fn push_tokens(line: &mut Vec<u8>, tokens: &[Token]) -> Result<(), AllocError>
    ensures { OnOk result (line.new.items ≡ line.old.items ++ tokens_text tokens.now) }
{
    let mut buffer = [0; ROOM];
    let mut done = 0;
    'parts: while done < tokens.len() {
        let end = done + TOGETHER.min(tokens.len() - done);
        let start = write_tokens(&mut buffer, &tokens[done..end]);
        line.extend_from_slice(&buffer[start..])?;
        done = end;
    }
    Ok(())
}

fn push_numbers(line: &mut Vec<u8>, numbers: &[u64]) -> Result<(), AllocError>
    ensures { OnOk result (line.new.items ≡ line.old.items ++ numbers_text numbers.now) }
{
    let mut buffer = [0; LONGEST];
    for number in numbers {
        push_number(line, &mut buffer, *number)?;
    }
    Ok(())
}

// The prefix of a line: a word, a name and a colon.
fn line_front(alloc: Global, word: &[u8], name: &[u8]) -> Result<Vec<u8>, AllocError>
    ensures { IfOk result (λ line. line.items ≡ word.now ++ (name.now ++ codes ":")) }
{
    let mut line = Vec::from_slice(alloc, word)?;
    line.extend_from_slice(name)?;
    line.push(b':')?;
    Ok(line)
}

// The line of a stream, which one call of `put_all` gets.
fn stream_text(alloc: Global, label: &[u8], tokens: &[Token]) -> Result<Vec<u8>, AllocError>
    ensures text { IfOk result (λ line. line.items ≡ stream_line label.now tokens.now) }
    ensures line { IfOk result (λ line. HasNoLf label.now → IsOneLine line.items) }
{
    let mut line = line_front(alloc, b"stream ", label)?;
    push_tokens(&mut line, tokens)?;
    line.push(b'\n')?;
    Ok(line)
}

// The line of a memory.
fn memory_text(alloc: Global, name: &[u8], cells: &[u64]) -> Result<Vec<u8>, AllocError>
    ensures text { IfOk result (λ line. line.items ≡ memory_line name.now cells.now) }
    ensures line { IfOk result (λ line. HasNoLf name.now → IsOneLine line.items) }
{
    let mut line = line_front(alloc, b"memory ", name)?;
    push_numbers(&mut line, cells)?;
    line.push(b'\n')?;
    Ok(line)
}

// The bytes of the last line.
fn last_bytes(alloc: Global, last: Last) -> Result<Vec<u8>, AllocError>
    ensures { IfOk result (λ line. line.items ≡ last_line last) }
{
    let mut buffer = Buffer::new();
    let (word, number) = match last {
        Last::Done(number) => (b"done ".as_slice(), number),
        Last::Stopped(number) => (b"stopped ".as_slice(), number),
        Last::Running(number) => (b"running ".as_slice(), number),
    };
    let mut line = Vec::from_slice(alloc, word)?;
    line.extend_from_slice(buffer.format(number).as_bytes())?;
    line.push(b'\n')?;
    Ok(line)
}

// The last line.
fn last_text(alloc: Global, last: Last) -> Result<Vec<u8>, AllocError>
    ensures text { IfOk result (λ line. line.items ≡ last_line last) }
    ensures line { IfOk result (λ line. IsOneLine line.items) }
{
    last_bytes(alloc, last)
}

/// Writes the line of a stream: its label and the tokens that it carried. After an error the sink has the bytes that it had
/// before and a prefix of the line.
pub fn report_stream<O: Sink>(
    alloc: Global,
    label: &[u8],
    tokens: &[Token],
    out: &mut O,
) -> Result<(), PrintFault>
    ensures whole { OnOk result (Appends (O.contents out.old) (O.contents out.new) (stream_line label.now tokens.now)) }
    ensures part { OnErr result (AppendsPart (O.contents out.old) (O.contents out.new) (stream_line label.now tokens.now)) }
    ensures later { O.faults out.old ≤ O.faults out.new }
    ensures fault { IsErrOf result PrintFault.WriteFault → Rose (O.faults out.old) (O.faults out.new) }
{
    let line = stream_text(alloc, label, tokens)?;
    put_all(out, &line)?;
    Ok(())
}

/// Writes the line of a memory: its name and its cells. After an error the sink has the bytes that it had before and a
/// prefix of the line.
pub fn report_memory<O: Sink>(
    alloc: Global,
    name: &[u8],
    cells: &[u64],
    out: &mut O,
) -> Result<(), PrintFault>
    ensures whole { OnOk result (Appends (O.contents out.old) (O.contents out.new) (memory_line name.now cells.now)) }
    ensures part { OnErr result (AppendsPart (O.contents out.old) (O.contents out.new) (memory_line name.now cells.now)) }
    ensures later { O.faults out.old ≤ O.faults out.new }
    ensures fault { IsErrOf result PrintFault.WriteFault → Rose (O.faults out.old) (O.faults out.new) }
{
    let line = memory_text(alloc, name, cells)?;
    put_all(out, &line)?;
    Ok(())
}

/// Writes the last line of a report. After an error the sink has the bytes that it had before and a prefix of the line.
pub fn report_last<O: Sink>(alloc: Global, last: Last, out: &mut O) -> Result<(), PrintFault>
    ensures whole { OnOk result (Appends (O.contents out.old) (O.contents out.new) (last_line last)) }
    ensures part { OnErr result (AppendsPart (O.contents out.old) (O.contents out.new) (last_line last)) }
    ensures later { O.faults out.old ≤ O.faults out.new }
    ensures fault { IsErrOf result PrintFault.WriteFault → Rose (O.faults out.old) (O.faults out.new) }
{
    let line = last_text(alloc, last)?;
    put_all(out, &line)?;
    Ok(())
}
