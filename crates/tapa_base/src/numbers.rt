// Numbers of 32 bits, and numbers in lists.
ghost use Rattle.std.specs.Prelude.{◌≡◌, ◌<◌, ◌≢◌, ◌+◌, ℕ, Some, IfOk, MatchOption, slice_get, slice_index, length};

use std::alloc::AllocError;

/// Narrows a count to 32 bits. No data structure in memory has a larger one, so a larger one is want of memory.
pub fn narrow(n: usize) -> Result<u32, AllocError>
    ensures { IfOk result (λ r. r ≡ n) }
{
    if n <= 4294967295 {
        Ok(n as u32)
    } else {
        Err(AllocError)
    }
}

/// The sum of two counts of 32 bits. No data structure in memory has a larger one, so a larger one is want of memory.
pub fn plus(a: u32, b: u32) -> Result<u32, AllocError>
    ensures { IfOk result (λ r. r ≡ a + b) }
{
    match a.checked_add(b) {
        Some(n) => Ok(n),
        None => Err(AllocError),
    }
}

/// The number at a position, and 0 past the end.
pub fn number_at(numbers: &[u32], position: u32) -> u32
    ensures { result ≡ slice_index numbers.now position }
{
    match numbers.get(position as usize) {
        Some(number) => *number,
        None => 0,
    }
}

/// The value at a position, and 0 past the end.
pub fn value_at(values: &[u64], position: u32) -> u64
    ensures { result ≡ slice_index values.now position }
{
    match values.get(position as usize) {
        Some(value) => *value,
        None => 0,
    }
}

/// The index of the first entry that is this number; none where no entry is.
pub fn position_of(numbers: &[u32], number: u32) -> Option<usize>
    ensures { MatchOption result ((i : ℕ) → slice_get numbers.now i ≢ Some number)
        (λ p. (slice_get numbers.now p ≡ Some number) × ((i : ℕ) → i < p → slice_get numbers.now i ≢ Some number)) }
{
    numbers.iter().position(|other| *other == number)
}
