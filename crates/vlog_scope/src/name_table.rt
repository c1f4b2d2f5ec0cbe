// The first index of each name of a list.

ghost use Rattle.std.specs.Prelude.{◌≡◌, ◌+◌, ℕ, List, IfOk, OnOk, Some, bytes_eq, min, if◌then◌else◌};
ghost use Rattle.vlog_scope.specs.NameTable.{with_name, place_in, count_in, value_in};

use std::alloc::{AllocError, Global};
use std::collections::HashMap;

/// From a name to the first index at which a list has it, and whether the list has it once more.
pub type NameTable = HashMap<Vec<u8>, (usize, bool)>;

/// The first index of a name, and whether the list has it once more.
pub fn find_name(table: &NameTable, name: &[u8]) -> Option<(usize, bool)>
    ensures { result ≡ place_in table.now name.now }
{
    table.get(name).copied()
}

/// Gives a name a value, and returns the one that it had.
fn put<V: Drop>(
    alloc: Global,
    table: &mut HashMap<Vec<u8>, V>,
    name: &[u8],
    value: V,
) -> Result<Option<V>, AllocError>
    ensures before { IfOk result (λ before. before ≡ value_in table.old name.now) }
    ensures table { OnOk result ((x : List ℕ) → value_in table.new x ≡ (if bytes_eq name.now x then Some value else value_in table.old x)) }
{
    let key = name.to_vec(alloc)?;
    let before = table.insert(key, value)?;
    Ok(before)
}

/// Puts a name before those that are there. Most names are new, so it is looked up once, by putting it in.
pub fn add_before(
    alloc: Global,
    table: &mut NameTable,
    name: &[u8],
    place: usize,
) -> Result<(), AllocError>
    ensures { OnOk result ((x : List ℕ) → place_in table.new x ≡ with_name name.now place (place_in table.old) x) }
{
    let before = put(alloc, table, name, (place, false))?;
    if before.is_some() {
        put(alloc, table, name, (place, true))?;
    }
    Ok(())
}

/// How often each of some names was counted, where twice and more are one.
pub type NameCounts = HashMap<Vec<u8>, usize>;

/// How often a name was counted, at most 2.
pub fn count_of(counts: &NameCounts, name: &[u8]) -> usize
    ensures { result ≡ count_in counts.now name.now }
{
    counts.get(name).copied().unwrap_or(0)
}

/// Counts a name once more. Most names are new, so it is looked up once, by putting it in.
pub fn count_one(alloc: Global, counts: &mut NameCounts, name: &[u8]) -> Result<(), AllocError>
    ensures { OnOk result ((x : List ℕ) → count_in counts.new x ≡ (if bytes_eq name.now x then min (count_in counts.old x + 1) 2 else count_in counts.old x)) }
{
    let before = put(alloc, counts, name, 1)?;
    if let Some(count) = before {
        put(alloc, counts, name, count.saturating_add(1).min(2))?;
    }
    Ok(())
}

/// From names to numbers of bits.
pub type NameBits = HashMap<Vec<u8>, u32>;

/// The number of bits of a name, if the table has it.
pub fn bits_of_name(table: &NameBits, name: &[u8]) -> Option<u32>
    ensures { result ≡ value_in table.now name.now }
{
    table.get(name).copied()
}

/// Gives a name its bits, instead of those that it had.
pub fn set_bits(
    alloc: Global,
    table: &mut NameBits,
    name: &[u8],
    bits: u32,
) -> Result<(), AllocError>
    ensures { OnOk result ((x : List ℕ) → value_in table.new x ≡ (if bytes_eq name.now x then Some bits else value_in table.old x)) }
{
    put(alloc, table, name, bits)?;
    Ok(())
}
