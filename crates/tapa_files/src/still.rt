// A shelf and a sink that never fail.
ghost use Rattle.std.specs.Prelude.{◌≡◌, Some, None, OnErr};
ghost use Rattle.std.specs.Io.{ReadsAtMost};
ghost use Rattle.tapa_files.specs.Outside.{ReadsAt};
ghost use Rattle.tapa_files.specs.Memory.{files_of};

use crate::memory::{copy_piece, find};
use crate::{Shelf, ShelfFault, Sink, WriteFailed};

/// A shelf whose files are known. A name that is not there reads as an empty file.
#[derive(Drop)]
pub struct StillShelf {
    files: Vec<(String, Vec<u8>)>,
}

impl StillShelf {
    /// A shelf of these files, each read whole whenever it is asked for.
    pub fn new(files: Vec<(String, Vec<u8>)>) -> Self
        ensures { ⟦<StillShelf as Shelf>⟧.files result ≡ Some (files_of files.items) }
    {
        StillShelf { files }
    }
}

impl Shelf for StillShelf {
    ghost files = { λ shelf. Some (files_of shelf.files.items) };

    ghost faults = { λ _ _. 0 };

    fn read(&mut self, name: &str, from: u64, buf: &mut [u8]) -> Result<usize, ShelfFault>
        ensures bound { ReadsAtMost result buf.new }
        ensures bytes { ReadsAt (Some (files_of self.old.files.items)) name.now from result buf.new }
        ensures never_fails { OnErr result ⊥ }
        ensures same { self.new ≡ self.old }
    {
        match find(&self.files, name) {
            Some(bytes) => Ok(copy_piece(bytes, from, buf)),
            None => Ok(0),
        }
    }
}

/// A sink that takes all bytes, and of which no bytes are known.
#[derive(Clone, Copy, Debug)]
pub struct StillSink;

impl StillSink {
    /// A sink that takes every byte, and of which none are known.
    pub fn new() -> Self {
        StillSink
    }
}

impl Sink for StillSink {
    ghost contents = { λ _. None };

    ghost faults = { λ _. 0 };

    fn write(&mut self, bytes: &[u8]) -> Result<usize, WriteFailed> {
        Ok(bytes.len())
    }
}
