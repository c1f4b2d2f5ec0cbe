// The lines that report a refusal, and the status that a command ends with then.
ghost use Rattle.std.specs.Prelude.{◌≡◌, ◌⊎◌, ◌++◌, ℕ, List, [], codes, decimal, IfOk, OnOk, OnErr, ◌≤◌};
ghost use Rattle.std.specs.Io.KnownBytes.{Appends};
ghost use Rattle.tapa_files.specs.Outside.{AppendsPart, Rose};
ghost use Rattle.run_data.specs.Lines.{joined, lines_in};
ghost use Rattle.command_answers.specs.Ends.{End, Refused, Unwritten, NoMemory, Usage};
ghost use Rattle.command_answers.specs.Meaning.{end_at, data_end, device_end, verilog_end, dump_end};
ghost use Rattle.command_answers.specs.Outside.{written};
ghost use Rattle.command_answers.specs.Refusal as why;
ghost use Rattle.command_answers.specs.Told.{IsToldAs, IsFixed, message_of, status_of};

use crate::files::most_bytes;
use crate::refusal::{DumpFault, Refusal};
use crate::source::SourceCode;
use crate::status::Status;
use plan_device::DeviceFault;
use run_data::DataFault;
use std::alloc::Global;
use tapa_base::{OutOfMemory, Place};
use tapa_files::{Sink, WriteFault, put_all};
use vlog_tree::VFault;

const USAGE: &[u8] = b"tapa: usage: tapa build|run|cosim|plan|gen|vcd\n";

const NO_OUTPUT: &[u8] = b"tapa: cannot write\n";

const NO_PLAN: &[u8] = b"tapa: no plan within capacity\n";

const NO_MEMORY: &[u8] = b"tapa: out of memory\n";

// ---- lines that are made

fn read_line(alloc: Global, name: &str) -> Result<Vec<u8>, OutOfMemory>
    ensures { IfOk result (λ line. line.items ≡ codes "tapa: cannot read " ++ (name.now ++ codes "\n")) }
{
    Ok(format!(in alloc; "tapa: cannot read {name}\n")?.into_bytes())
}

fn long_line(alloc: Global, name: &str, limit: u64) -> Result<Vec<u8>, OutOfMemory>
    ensures { IfOk result (λ line. line.items ≡ codes "tapa: " ++ (name.now ++ (codes " is longer than " ++ (decimal limit ++ codes " bytes\n")))) }
{
    Ok(format!(in alloc; "tapa: {name} is longer than {limit} bytes\n")?.into_bytes())
}

// A file, a place in it, and what is said of the place.
fn place_line(alloc: Global, name: &str, place: Place, text: &str) -> Result<Vec<u8>, OutOfMemory>
    ensures { IfOk result (λ line. line.items ≡
        codes "tapa: " ++ (name.now ++ (codes ":" ++ (decimal place.line ++ (codes ":" ++ (decimal place.col ++ (codes ": " ++ (text.now ++ codes "\n")))))))) }
{
    let line = place.line;
    let col = place.col;
    Ok(format!(in alloc; "tapa: {name}:{line}:{col}: {text}\n")?.into_bytes())
}

fn source_line(
    alloc: Global,
    name: &str,
    place: Place,
    code: SourceCode,
) -> Result<Vec<u8>, OutOfMemory>
    ensures { IfOk result (λ line. line.items ≡ message_of name.now (Refused (why.Source place code))) }
{
    let text = code.text(alloc)?;
    place_line(alloc, name, place, &text)
}

fn ticks_line(alloc: Global, limit: u64) -> Result<Vec<u8>, OutOfMemory>
    ensures { IfOk result (λ line. line.items ≡ message_of [] (Refused (why.Ticks limit))) }
{
    Ok(format!(in alloc; "tapa: more than {limit} ticks\n")?.into_bytes())
}

fn plans_line(alloc: Global, slots: u32, free: u32) -> Result<Vec<u8>, OutOfMemory>
    ensures { IfOk result (λ line. line.items ≡ message_of [] (Refused (why.TooManyPlans slots free))) }
{
    Ok(format!(in alloc; "tapa: too many plans: {slots} slots, {free} free groups\n")?.into_bytes())
}

fn halving_line(alloc: Global, level: u32) -> Result<Vec<u8>, OutOfMemory>
    ensures { IfOk result (λ line. line.items ≡ message_of [] (Refused (why.NoHalving level))) }
{
    Ok(format!(in alloc; "tapa: no halving at level {level}\n")?.into_bytes())
}

fn room_line(alloc: Global, label: &[u8]) -> Result<Vec<u8>, OutOfMemory>
    ensures { IfOk result (λ line. line.items ≡ message_of [] (Refused (why.NoRoom label.now))) }
{
    let mut line = Vec::from_slice(alloc, b"tapa: no room for ")?;
    line.extend_from_slice(label)?;
    line.push(b'\n')?;
    Ok(line)
}

fn undone_line(alloc: Global, limit: u64) -> Result<Vec<u8>, OutOfMemory>
    ensures { IfOk result (λ line. line.items ≡ message_of [] (Refused (why.Undone limit))) }
{
    Ok(format!(in alloc; "tapa: not done after {limit} cycles\n")?.into_bytes())
}

// A file, a code and a key.
fn key_line(alloc: Global, name: &str, code: &[u8], key: &[u8]) -> Result<Vec<u8>, OutOfMemory>
    ensures { IfOk result (λ line. line.items ≡ codes "tapa: " ++ (name.now ++ (codes ": " ++ ((code.now ++ key.now) ++ codes "\n")))) }
{
    let mut line = Vec::from_slice(alloc, b"tapa: ")?;
    line.extend_from_slice(name.as_bytes())?;
    line.extend_from_slice(b": ")?;
    line.extend_from_slice(code)?;
    line.extend_from_slice(key)?;
    line.push(b'\n')?;
    Ok(line)
}

// ---- reporting

// Puts a line, and answers the status, or that it could not be put.
fn report_line<E: Sink>(line: &[u8], status: Status, err: &mut E) -> Status
    ensures { (name : List ℕ) (end : End) → line.now ≡ message_of name end → status ≡ status_of end →
        IsToldAs name end result (written E.Sink err.old) (written E.Sink err.new) }
{
    match put_all(err, line) {
        Ok(()) => status,
        Err(_) => Status::Write,
    }
}

// Puts a line that was made, and reports want of memory where it was not.
fn report_made<E: Sink>(line: Result<Vec<u8>, OutOfMemory>, status: Status, err: &mut E) -> Status
    ensures { (name : List ℕ) (end : End) → IfOk line (λ made. made.items ≡ message_of name end) → status ≡ status_of end →
        IsToldAs name end result (written E.Sink err.old) (written E.Sink err.new)
        ⊎ IsToldAs [] NoMemory result (written E.Sink err.old) (written E.Sink err.new) }
{
    match line {
        Ok(line) => report_line(&line, status, err),
        Err(_) => report_line(NO_MEMORY, Status::Memory, err),
    }
}

/// Puts lines, one a call. After an error a prefix of them was put.
pub fn put_lines<E: Sink>(err: &mut E, lines: &[Vec<u8>]) -> Result<(), WriteFault>
    ensures whole { OnOk result (Appends (E.contents err.old) (E.contents err.new) (joined (lines_in lines.now))) }
    ensures part { OnErr result (AppendsPart (E.contents err.old) (E.contents err.new) (joined (lines_in lines.now))) }
    ensures later { E.faults err.old ≤ E.faults err.new }
    ensures fault { OnErr result (Rose (E.faults err.old) (E.faults err.new)) }
{
    for line in lines {
        put_all(err, line)?;
    }
    Ok(())
}

// Reports what the instances of a stopped run wait for, a line each.
fn report_stopped<E: Sink>(lines: &[Vec<u8>], err: &mut E) -> Status
    ensures { IsToldAs [] (Refused (why.Stopped (lines_in lines.now))) result (written E.Sink err.old) (written E.Sink err.new) }
{
    match put_lines(err, lines) {
        Ok(()) => Status::Stopped,
        Err(_) => Status::Write,
    }
}

// Reports a fault of a file by its code and what it names.
fn report_key<E: Sink>(
    alloc: Global,
    name: &str,
    code: &[u8],
    key: &[u8],
    status: Status,
    err: &mut E,
) -> Status
    ensures { (end : End) → message_of name.now end ≡ codes "tapa: " ++ (name.now ++ (codes ": " ++ ((code.now ++ key.now) ++ codes "\n"))) → status ≡ status_of end →
        IsToldAs name.now end result (written E.Sink err.old) (written E.Sink err.new)
        ⊎ IsToldAs [] NoMemory result (written E.Sink err.old) (written E.Sink err.new) }
{
    report_made(key_line(alloc, name, code, key), status, err)
}

// Reports a fault of the data of a program or of a design.
fn report_data<E: Sink>(alloc: Global, name: &str, fault: &DataFault, err: &mut E) -> Status
    ensures { IsToldAs name.now (data_end fault.now) result (written E.Sink err.old) (written E.Sink err.new)
        ⊎ IsToldAs [] NoMemory result (written E.Sink err.old) (written E.Sink err.new) }
{
    match fault {
        DataFault::J1 => report_key(alloc, name, b"J1", b"", Status::Data, err),
        DataFault::J2(key) => report_key(alloc, name, b"J2 ", key, Status::Data, err),
        DataFault::J3(key) => report_key(alloc, name, b"J3 ", key, Status::Data, err),
        DataFault::J4(key) => report_key(alloc, name, b"J4 ", key, Status::Data, err),
        DataFault::OutOfMemory => report_line(NO_MEMORY, Status::Memory, err),
    }
}

// Reports why a Verilog text has no design.
fn report_verilog<E: Sink>(alloc: Global, name: &str, fault: &VFault, err: &mut E) -> Status
    ensures { IsToldAs name.now (verilog_end fault.now) result (written E.Sink err.old) (written E.Sink err.new)
        ⊎ IsToldAs [] NoMemory result (written E.Sink err.old) (written E.Sink err.new) }
{
    match fault {
        VFault::V1(place) => report_made(
            place_line(alloc, name, *place, "V1 no text of the subset"),
            Status::Source,
            err,
        ),
        VFault::V2(key) => report_key(alloc, name, b"V2 ", key.bytes(), Status::Source, err),
        VFault::V3(key) => report_key(alloc, name, b"V3 ", key.bytes(), Status::Source, err),
        VFault::V4(key) => report_key(alloc, name, b"V4 ", key.bytes(), Status::Source, err),
        VFault::V5(key) => report_key(alloc, name, b"V5 ", key.bytes(), Status::Source, err),
        VFault::V6(key) => report_key(alloc, name, b"V6 ", key.bytes(), Status::Source, err),
        VFault::OutOfMemory => report_line(NO_MEMORY, Status::Memory, err),
    }
}

// Reports why a file shows nothing of a net.
fn report_dump<E: Sink>(alloc: Global, name: &str, fault: &DumpFault, err: &mut E) -> Status
    ensures { IsToldAs name.now (dump_end fault.now) result (written E.Sink err.old) (written E.Sink err.new)
        ⊎ IsToldAs [] NoMemory result (written E.Sink err.old) (written E.Sink err.new) }
{
    match fault {
        DumpFault::NoDump(place) => {
            report_made(
                place_line(alloc, name, *place, "X1 no dump"),
                Status::Source,
                err,
            )
        }
        DumpFault::NoNet { name: net } => {
            report_key(alloc, name, b"X2 ", net, Status::Source, err)
        }
    }
}

// Reports a fault of a device file.
fn report_device<E: Sink>(alloc: Global, name: &str, fault: &DeviceFault, err: &mut E) -> Status
    ensures { IsToldAs name.now (device_end fault.now) result (written E.Sink err.old) (written E.Sink err.new)
        ⊎ IsToldAs [] NoMemory result (written E.Sink err.old) (written E.Sink err.new) }
{
    match fault {
        DeviceFault::J1 => report_key(alloc, name, b"J1", b"", Status::Data, err),
        DeviceFault::J2(key) => report_key(alloc, name, b"J2 ", key, Status::Data, err),
        DeviceFault::J3(key) => report_key(alloc, name, b"J3 ", key, Status::Data, err),
        DeviceFault::K1(key) => report_key(alloc, name, b"K1 ", key, Status::Data, err),
        DeviceFault::K2(key) => report_key(alloc, name, b"K2 ", key, Status::Data, err),
        DeviceFault::K3(key) => report_key(alloc, name, b"K3 ", key, Status::Data, err),
        DeviceFault::K4(key) => report_key(alloc, name, b"K4 ", key, Status::Data, err),
        DeviceFault::OutOfMemory => report_line(NO_MEMORY, Status::Memory, err),
    }
}

/// Reports a refusal of a file of this name, or want of memory instead, and answers the status. A refusal that names nothing takes no
/// memory.
pub fn tell<E: Sink>(alloc: Global, name: &str, refusal: &Refusal, err: &mut E) -> Status
    ensures told { IsToldAs name.now (end_at refusal.now) result (written E.Sink err.old) (written E.Sink err.new)
        ⊎ IsToldAs [] NoMemory result (written E.Sink err.old) (written E.Sink err.new) }
    ensures fixed { IsFixed (end_at refusal.now) → IsToldAs name.now (end_at refusal.now) result (written E.Sink err.old) (written E.Sink err.new) }
{
    match refusal {
        Refusal::Read(_) => report_made(read_line(alloc, name), Status::Read, err),
        Refusal::Write => report_line(NO_OUTPUT, Status::Write, err),
        Refusal::TooLong(file) => {
            report_made(
                long_line(alloc, name, most_bytes(*file)),
                Status::Limit,
                err,
            )
        }
        Refusal::Source { place, code } => {
            report_made(source_line(alloc, name, *place, *code), Status::Source, err)
        }
        Refusal::Data(fault) => report_data(alloc, name, fault, err),
        Refusal::Ticks { limit } => report_made(ticks_line(alloc, *limit), Status::Limit, err),
        Refusal::Stopped { lines } => report_stopped(lines, err),
        Refusal::Device(fault) => report_device(alloc, name, fault, err),
        Refusal::TooManyPlans { slots, free } => {
            report_made(plans_line(alloc, *slots, *free), Status::Data, err)
        }
        Refusal::NoPlan => report_line(NO_PLAN, Status::NoPlan, err),
        Refusal::NoRoom { label } => report_made(room_line(alloc, label), Status::NoPlan, err),
        Refusal::NoHalving { level } => {
            report_made(halving_line(alloc, *level), Status::NoPlan, err)
        }
        Refusal::Verilog(fault) => report_verilog(alloc, name, fault, err),
        Refusal::Undone { limit } => report_made(undone_line(alloc, *limit), Status::Limit, err),
        Refusal::Dump(fault) => report_dump(alloc, name, fault, err),
        Refusal::Memory => report_line(NO_MEMORY, Status::Memory, err),
    }
}

/// Reports that the words are no command.
pub fn report_usage<E: Sink>(err: &mut E) -> Status
    ensures { IsToldAs [] Usage result (written E.Sink err.old) (written E.Sink err.new) }
{
    report_line(USAGE, Status::Usage, err)
}

/// Reports that the output could not be written to.
pub fn report_unwritten<E: Sink>(err: &mut E) -> Status
    ensures { IsToldAs [] Unwritten result (written E.Sink err.old) (written E.Sink err.new) }
{
    report_line(NO_OUTPUT, Status::Write, err)
}

/// Reports want of memory.
pub fn report_no_memory<E: Sink>(err: &mut E) -> Status
    ensures { IsToldAs [] NoMemory result (written E.Sink err.old) (written E.Sink err.new) }
{
    report_line(NO_MEMORY, Status::Memory, err)
}
