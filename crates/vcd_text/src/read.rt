//! Reading a dump.

ghost use Rattle.std.specs.Prelude.{◌≡◌, ◌<◌, ◌-◌, ◌^◌, ◌++◌, ℕ, List, [], None, length, map, not, ◌==◌, reverse, count_by, take_while, IfOk, IfErr};
ghost use Rattle.tapa_syntax.specs.Characters.{place_of};
ghost use Rattle.vlog_tree.specs.Names.{IsName};
ghost use Rattle.vcd_text.specs.Nets.{Net};
ghost use Rattle.vcd_text.specs.Along.{StopsBefore};
ghost use Rattle.vcd_text.specs.Dump.{IsDump};
ghost use Rattle.vcd_text.specs.Head.{top_line, IsTopLine};
ghost use Rattle.vcd_text.specs.Lines.{HaveBits};
ghost use Rattle.vcd_text.specs.Read.{port_of, IsReadAs};
ghost use Rattle.vcd_text.specs.Rest.{IsRead, IsStopOf, Left, LeftOfHead, Serves, answer_of};
ghost use Rattle.vcd_text.specs.Answers.{IsFaultOf};
ghost use Rattle.vcd_text.specs.declared.dump.VcdFault.TheVariants as fault;

use crate::along::expect;
use crate::cycles::{read_cycles, read_first};
use crate::dump::{Dump, VcdFault};
use crate::halt::Halt;
use crate::head::{from_name, head_line};
use crate::table::NetTable;
use std::alloc::Global;
use tapa_base::{Place, Port};

// What comes after the lines of the time scale and of the top's name.
fn top_at(alloc: Global, text: &[u8]) -> Result<&[u8], usize>
    ensures found { IfOk result (λ rest. (x : List ℕ) × IsName x × (text.now ≡ top_line x ++ rest.now)) }
    ensures stop { IfErr result (λ left. StopsBefore IsTopLine text.now left) }
{
    let none = NetTable::new(alloc);
    let name = expect(b"$timescale 1 ns $end\n$scope module ", text)?;
    let (_, rest) = from_name(&none, name)?;
    Ok(rest)
}

// The nets of the head, and what comes after the line of the first cycle.
fn read_nets(alloc: Global, text: &[u8]) -> Result<(Vec<Port>, &[u8]), Halt>
    requires { length text.now < 2 ^ 32 }
    ensures few { IfOk result (λ r. length r.0.items < 2 ^ 32) }
    ensures short { IfOk result (λ r. length r.1.now < 2 ^ 32) }
    ensures bits { IfOk result (λ r. HaveBits r.0.items) }
    ensures found { IfOk result (λ r. (xs : List Net) × (r.0.items ≡ map port_of xs) × Serves (LeftOfHead []) text.now (Left xs 0 0 (λ _. None) []) r.1.now) }
    ensures stop { IfErr result (IsStopOf (LeftOfHead []) text.now) }
{
    let mut nets = NetTable::new(alloc);
    let mut rest = text;
    'lines: loop {
        let (found, behind) = head_line(&nets, rest)?;
        match found {
            None => return Ok((nets.into_nets(), behind)),
            Some((name, bits)) => nets = nets.with(alloc, name, bits)?,
        }
        rest = behind;
    }
}

fn read_dump(alloc: Global, text: &[u8]) -> Result<Dump, Halt>
    requires { length text.now < 2 ^ 32 }
    ensures found { IfOk result (λ d. IsRead (answer_of d) text.now) }
    ensures stop { IfErr result (IsStopOf IsRead text.now) }
{
    let head = top_at(alloc, text)?;
    let (nets, first) = read_nets(alloc, head)?;
    let (values, changes, rest) = read_first(alloc, &nets, first)?;
    read_cycles(nets, values, changes, rest)
}

// How many lines end in a text.
fn line_ends(text: &[u8]) -> usize
    ensures { result ≡ count_by (λ b. b == 10) text.now }
{
    text.iter().filter(|byte| **byte == b'\n').count()
}

// The number of bytes after the last end of line.
fn bytes_behind(text: &[u8]) -> usize
    ensures { result ≡ length (take_while (λ b. not (b == 10)) (reverse text.now)) }
{
    text.iter().rev().take_while(|byte| **byte != b'\n').count()
}

// The place after the last byte.
fn end_place(text: &[u8]) -> Place
    requires { length text.now < 2 ^ 32 - 1 }
    ensures { result ≡ place_of text.now }
{
    let lines = line_ends(text) as u32;
    let bytes = bytes_behind(text) as u32;
    Place {
        line: lines + 1,
        col: bytes + 1,
    }
}

// Why a text is not read.
fn fault_of(text: &[u8], halt: Halt) -> VcdFault
    requires length { length text.now < 2 ^ 32 - 1 }
    requires stop { IsStopOf IsRead text.now halt }
    ensures fault { IsFaultOf text.now result }
    ensures dump { IsDump text.now → result ≡ fault.OutOfMemory }
{
    match halt {
        Halt::Stopped(left) => {
            let (before, _) = text.split_at(text.len() - left);
            VcdFault::X1(end_place(before))
        }
        Halt::OutOfMemory => VcdFault::OutOfMemory,
    }
}

/// Reads a value change dump (IEEE 1364-2005, clause 18) in the spelling of this crate: nets, the last cycle and the changes. If the text is not such a dump,
/// returns `X1` at the first byte that no dump continues with, or just past the end if the text is truncated.
pub fn read_vcd(alloc: Global, text: &[u8]) -> Result<Dump, VcdFault>
    requires { length text.now < 2 ^ 32 - 1 }
    ensures read { IfOk result (λ d. IsReadAs text.now d.nets.items d.last d.changes.items) }
    ensures fault { IfErr result (IsFaultOf text.now) }
    ensures dump { IsDump text.now → IfErr result (λ e. e ≡ fault.OutOfMemory) }
{
    match read_dump(alloc, text) {
        Ok(dump) => Ok(dump),
        Err(halt) => Err(fault_of(text, halt)),
    }
}
