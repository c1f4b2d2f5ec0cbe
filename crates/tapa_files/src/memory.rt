// A shelf and a sink in memory, whose calls fail where a list says so.
ghost use Rattle.std.specs.Prelude.{◌≡◌, ◌≤◌, length, get_or, MatchOption, Some, None, IfOk, OnOk, OnErr, ℕ, List, []};
ghost use Rattle.std.specs.FinMap.{get};
ghost use Rattle.tapa_files.specs.Outside.{IsPieceAt};
ghost use Rattle.tapa_files.specs.Memory.{files_of, times, CountsOnce};

use crate::{Shelf, ShelfFault, Sink, WriteFailed};
use std::alloc::{AllocError, Global};
use tapa_base::OutOfMemory;

/// A shelf whose files are known. The calls whose numbers are listed fail, and so does a read of a name that is not there.
#[derive(Drop)]
pub struct MemShelf {
    alloc: Global,
    files: Vec<(String, Vec<u8>)>,
    fails: Vec<u64>,
    calls: u64,
    failed: Vec<String>,
}

impl MemShelf {
    /// A shelf of these files, of whose reads those with these numbers fail, counted from 0.
    pub fn new(alloc: Global, files: Vec<(String, Vec<u8>)>, fails: Vec<u64>) -> Self
        ensures files { ⟦<MemShelf as Shelf>⟧.files result ≡ Some (files_of files.items) }
        ensures calm { (name : List ℕ) → ⟦<MemShelf as Shelf>⟧.faults result name ≡ 0 }
    {
        MemShelf {
            alloc,
            files,
            fails,
            calls: 0,
            failed: Vec::new(alloc),
        }
    }
}

/// The bytes of the first file of this name.
pub(crate) fn find<'a>(files: &'a [(String, Vec<u8>)], name: &str) -> Option<&'a [u8]>
    ensures { MatchOption result (get (files_of files.now) name.now ≡ None)
        (λ bytes. get (files_of files.now) name.now ≡ Some bytes.now) }
{
    for (key, bytes) in files {
        if name == key.as_str() {
            return Some(bytes.as_slice());
        }
    }
    None
}

/// Copies bytes from an offset on to the start of `buf`, up to the end of either, and returns their number.
pub(crate) fn copy_piece(bytes: &[u8], from: u64, buf: &mut [u8]) -> usize
    ensures bound { result ≤ length buf.new }
    ensures piece { IsPieceAt bytes.now from result buf.new }
{
    let start = (from as usize).min(bytes.len());
    let rest = &bytes[start..];
    let count = rest.len().min(buf.len());
    buf[..count].copy_from_slice(&rest[..count]);
    count
}

// Adds a name to those whose reads failed.
pub(crate) fn count_fault(
    alloc: Global,
    failed: &mut Vec<String>,
    name: &str,
) -> Result<(), AllocError>
    ensures ok { OnOk result (CountsOnce failed.old.items failed.new.items name.now) }
    ensures err { OnErr result (failed.new.items ≡ failed.old.items) }
{
    failed.push(String::from_str(alloc, name)?)?;
    Ok(())
}

impl Shelf for MemShelf {
    ghost files = { λ shelf. Some (files_of shelf.files.items) };

    ghost faults = { λ shelf name. times shelf.failed.items name };

    fn read(&mut self, name: &str, from: u64, buf: &mut [u8]) -> Result<usize, ShelfFault> {
        let listed = self.fails.contains(&self.calls);
        self.calls = self.calls.saturating_add(1);
        if !listed && let Some(bytes) = find(&self.files, name) {
            return Ok(copy_piece(bytes, from, buf));
        }
        count_fault(self.alloc, &mut self.failed, name)?;
        Err(ShelfFault::ReadFailed)
    }
}

/// A sink whose bytes are known. Room is reserved at the start; the calls whose numbers are listed fail, and so does
/// a piece that does not fit.
#[derive(Drop)]
pub struct MemSink {
    held: Vec<u8>,
    room: usize,
    fails: Vec<u64>,
    calls: u64,
    faults: u64,
}

impl MemSink {
    /// An empty sink with room for `room` bytes. The calls of `write` whose numbers are listed fail, counted from 0.
    pub fn new(alloc: Global, room: usize, fails: Vec<u64>) -> Result<Self, OutOfMemory>
        ensures empty { IfOk result (λ sink. ⟦<MemSink as Sink>⟧.contents sink ≡ Some []) }
        ensures calm { IfOk result (λ sink. ⟦<MemSink as Sink>⟧.faults sink ≡ 0) }
    {
        Ok(MemSink {
            held: Vec::with_capacity(alloc, room)?,
            room,
            fails,
            calls: 0,
            faults: 0,
        })
    }

    /// What was written.
    pub fn bytes(&self) -> &[u8]
        ensures { ⟦<MemSink as Sink>⟧.contents self.now ≡ Some result.now }
    {
        &self.held
    }
}

impl Sink for MemSink {
    ghost contents = { λ sink. Some sink.held.items };

    ghost faults = { λ sink. sink.faults };

    fn write(&mut self, bytes: &[u8]) -> Result<usize, WriteFailed> {
        let listed = self.fails.contains(&self.calls);
        self.calls = self.calls.saturating_add(1);
        let fits = bytes.len() <= self.room.saturating_sub(self.held.len());
        if !listed && fits && self.held.extend_from_slice(bytes).is_ok() {
            return Ok(bytes.len());
        }
        self.faults = self.faults.saturating_add(1);
        Err(WriteFailed)
    }
}
