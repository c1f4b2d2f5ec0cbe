// The edge: real files, and standard output and error. Nothing is claimed of their contents.
ghost use Rattle.std.specs.Prelude.{◌≡◌, ℕ, List, None};
ghost use Rattle.std.specs.Io.{ReadsAtMost};
ghost use Rattle.tapa_files.specs.Memory.{times};

use crate::memory::count_fault;
use crate::{Shelf, ShelfFault, Sink, WriteFailed};
use std::alloc::Global;
use std::fs::File;
use std::io::{Read, Seek, SeekFrom, Write};
use std::rt::Files;
use std::{fs, io};

// A file that stays open between its pieces, and the offset of the next one.
#[derive(Drop)]
struct OpenFile {
    name: String,
    file: File,
    at: u64,
}

/// The files of the system. A file stays open while its pieces are asked for one after another, so that they are of one
/// file even where another takes its name meanwhile, and so that a pipe can be read. It keeps the names whose reads failed.
#[derive(Drop)]
pub struct DirShelf<'a, R> {
    rt: &'a R,
    alloc: Global,
    open: Option<OpenFile>,
    failed: Vec<String>,
}

impl<'a, R: Files<File = File>> DirShelf<'a, R> {
    /// The files of the folder in which the program runs; no read has failed yet.
    pub fn new(rt: &'a R, alloc: Global) -> Self
        ensures { (name : List ℕ) → times result.failed.items name ≡ 0 }
    {
        DirShelf {
            rt,
            alloc,
            open: None,
            failed: Vec::new(alloc),
        }
    }
}

// Opens a file at its first byte.
fn open_file<R: Files<File = File>>(
    rt: &R,
    alloc: Global,
    name: &str,
) -> Result<OpenFile, ShelfFault> {
    let name = String::from_str(alloc, name)?;
    match fs::open(rt, name.as_str()) {
        Ok(file) => Ok(OpenFile { name, file, at: 0 }),
        Err(_) => Err(ShelfFault::ReadFailed),
    }
}

// Reads the piece at an offset. Only a file that can be sought is read elsewhere than where the last piece ended.
fn read_piece(open: &mut OpenFile, from: u64, buf: &mut [u8]) -> io::Result<usize>
    ensures { ReadsAtMost result buf.new }
{
    if open.at != from {
        open.file.seek(SeekFrom::Start(from))?;
        open.at = from;
    }
    let count = open.file.read(buf)?;
    open.at = open.at.saturating_add(count as u64);
    Ok(count)
}

// Reads a piece of the named file, which is opened where it is not the one that is open.
fn read_from<R: Files<File = File>>(
    rt: &R,
    alloc: Global,
    open: &mut Option<OpenFile>,
    name: &str,
    from: u64,
    buf: &mut [u8],
) -> Result<usize, ShelfFault>
    ensures { ReadsAtMost result buf.new }
{
    let mut file = match open.take() {
        Some(file) if file.name.as_str() == name => file,
        _ => open_file(rt, alloc, name)?,
    };
    match read_piece(&mut file, from, buf) {
        Ok(count) => {
            *open = Some(file);
            Ok(count)
        }
        Err(_) => Err(ShelfFault::ReadFailed),
    }
}

impl<R: Files<File = File>> Shelf for DirShelf<'_, R> {
    ghost files = { λ _. None };

    ghost faults = { λ shelf name. times shelf.failed.items name };

    fn read(&mut self, name: &str, from: u64, buf: &mut [u8]) -> Result<usize, ShelfFault> {
        let read = read_from(self.rt, self.alloc, &mut self.open, name, from, buf);
        if let Err(ShelfFault::ReadFailed) = read {
            count_fault(self.alloc, &mut self.failed, name)?;
        }
        read
    }
}

/// A writer of the system, as standard output or error. It counts the writes that failed.
#[derive(Drop)]
pub struct StdSink<W> {
    inner: W,
    faults: u64,
}

impl<W: Write> StdSink<W> {
    /// A sink that writes to this stream; no write has failed yet.
    pub fn new(inner: W) -> Self
        ensures { result.faults ≡ 0 }
    {
        StdSink { inner, faults: 0 }
    }
}

impl<W: Write> Sink for StdSink<W> {
    ghost contents = { λ sink. W.contents sink.inner };

    ghost faults = { λ sink. sink.faults };

    fn write(&mut self, bytes: &[u8]) -> Result<usize, WriteFailed> {
        match self.inner.write(bytes) {
            Ok(count) if count > 0 || bytes.is_empty() => Ok(count),
            _ => {
                self.faults = self.faults.saturating_add(1);
                Err(WriteFailed)
            }
        }
    }
}
