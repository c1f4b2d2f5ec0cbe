// The files that a command reads.
ghost use Rattle.std.specs.Prelude.{◌≡◌, ◌≤◌};
ghost use Rattle.command_answers.specs.Files.{Named, Asks, most_of};
ghost use Rattle.command_answers.specs.Outside.{store};
ghost use Rattle.command_answers.specs.Steps.{Took};

use crate::file::File;
use crate::refusal::Refusal;
use std::alloc::Global;
use tapa_files::{Shelf, TakeFault, take_file};

/// The most bytes that a file may have.
pub fn most_bytes(file: File) -> u64
    ensures is { result ≡ most_of file }
    ensures low { result ≤ 33554432 }
{
    match file {
        File::Source => 262_144,
        File::Text => 16_777_216,
        File::Dump => 33_554_432,
        File::Data => 33_554_432,
        File::Device => 33_554_432,
    }
}

/// Reads a whole file of at most as many bytes as it may have.
pub fn read_file<S: Shelf>(
    alloc: Global,
    file: File,
    name: &str,
    shelf: &mut S,
) -> Result<Vec<u8>, Refusal>
    ensures took { Took (store S.Shelf shelf.old) (store S.Shelf shelf.new) file (Named name.now) (λ bytes why. ⊥) (λ bytes text. text.items ≡ bytes) result }
    ensures asks { Asks (store S.Shelf shelf.old) (store S.Shelf shelf.new) (Named name.now) }
{
    match take_file(alloc, shelf, name, most_bytes(file)) {
        Ok(text) => Ok(text),
        Err(TakeFault::ReadFault) => Err(Refusal::Read(file)),
        Err(TakeFault::TooLong { limit: _ }) => Err(Refusal::TooLong(file)),
        Err(TakeFault::OutOfMemory) => Err(Refusal::Memory),
    }
}
