// Reads all bytes of a file from a shelf in pieces, up to a limit.
ghost use Rattle.std.specs.Prelude.{◌≡◌, ◌<◌, ◌≤◌, ℕ, List, IfOk, OnOk, OnErr, IsErrOf, length};
ghost use Rattle.tapa_files.specs.Outside.{AsksFor, Rose};
ghost use Rattle.tapa_files.specs.Take.{IsFileOf, IsLongerThan};

use crate::{Shelf, TakeFault};
use std::alloc::{AllocError, Global};

// A file is read in pieces of this many bytes.
const CHUNK: usize = 65536;

// A buffer of `size` bytes, all 0.
fn zeros(alloc: Global, size: usize) -> Result<Vec<u8>, AllocError>
    ensures { IfOk result (λ buffer. length buffer.items ≡ size) }
{
    Ok(vec![in alloc; 0; size]?)
}

// Takes a file in pieces that have room in a buffer.
fn take_pieces<S: Shelf>(
    alloc: Global,
    shelf: &mut S,
    name: &str,
    limit: u64,
    buffer: &mut [u8],
) -> Result<Vec<u8>, TakeFault>
    requires limit { limit ≤ 33554432 }
    requires some { 0 < length buffer.old }
    ensures whole { IfOk result (λ file. IsFileOf (S.files shelf.old) name.now file.items) }
    ensures within { IfOk result (λ file. length file.items ≤ limit) }
    ensures asks { AsksFor S.files S.faults name.now shelf.old shelf.new }
    ensures calm { OnOk result (S.faults shelf.new name.now ≡ S.faults shelf.old name.now) }
    ensures fault { IsErrOf result TakeFault.ReadFault → Rose (S.faults shelf.old name.now) (S.faults shelf.new name.now) }
    ensures long { (n : ℕ) → IsErrOf result (TakeFault.TooLong n) → (n ≡ limit) × IsLongerThan (S.files shelf.old) name.now limit }
{
    let mut file = Vec::new(alloc);
    'pieces: while file.len() as u64 <= limit {
        let count = shelf.read(name, file.len() as u64, buffer)?;
        if count == 0 {
            return Ok(file);
        }
        file.extend_from_slice(&buffer[..count])?;
    }
    Err(TakeFault::TooLong { limit })
}

/// Takes all bytes of a file, at most the limit. `TooLong` comes where the file has more, and
/// `ReadFault` where the shelf failed to read it; the bytes read so far are let go then.
pub fn take_file<S: Shelf>(
    alloc: Global,
    shelf: &mut S,
    name: &str,
    limit: u64,
) -> Result<Vec<u8>, TakeFault>
    requires { limit ≤ 33554432 }
    ensures whole { IfOk result (λ file. IsFileOf (S.files shelf.old) name.now file.items) }
    ensures within { IfOk result (λ file. length file.items ≤ limit) }
    ensures asks { AsksFor S.files S.faults name.now shelf.old shelf.new }
    ensures calm { OnOk result (S.faults shelf.new name.now ≡ S.faults shelf.old name.now) }
    ensures fault { IsErrOf result TakeFault.ReadFault → Rose (S.faults shelf.old name.now) (S.faults shelf.new name.now) }
    ensures long { (n : ℕ) → IsErrOf result (TakeFault.TooLong n) → (n ≡ limit) × IsLongerThan (S.files shelf.old) name.now limit }
{
    let mut buffer = zeros(alloc, CHUNK)?;
    take_pieces(alloc, shelf, name, limit, &mut buffer)
}
