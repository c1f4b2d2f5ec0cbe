// Numbers that change, and the marks that follow.

ghost use Rattle.std.specs.Prelude.{◌≡◌, ◌⊎◌, ◌<◌, ◌≤◌, ℕ, List, false, length};
ghost use Rattle.sim_tape.specs.Tape.{number_at};
ghost use Rattle.sim_pass.specs.Rows.{slots_in};
ghost use Rattle.sim_pass.specs.Marks.{AllFollowed, HasMarks, HaveGiven, IsAside, IsFollowed, KeepsMarks, KeepsUnlisted, SlotsFit};

use crate::marks::mark_readers;
use crate::rows::Row;

fn put_aside(aside: &mut [u64], at: usize, n: u64)
    ensures put { at < length aside.old → number_at aside.new at ≡ n }
    ensures others { (j : ℕ) → (j ≡ at → ⊥) → number_at aside.new j ≡ number_at aside.old j }
{
    if at < aside.len() {
        aside[at] = n;
    }
}

/// Keeps the numbers of some rows' slots aside, as far as there is room.
pub(crate) fn keep_aside(numbers: &[u64], rows: &[Row], from: usize, to: usize, aside: &mut [u64])
    requires end { to ≤ length rows.now }
    requires fits { SlotsFit (slots_in rows.now) from to (length numbers.now) }
    ensures { IsAside (slots_in rows.now) from to aside.new numbers.now }
{
    for i in from..to {
        put_aside(aside, i - from, numbers[rows[i].slot as usize]);
    }
}

// Whether a number differs from one that was kept aside, or none was.
fn has_changed(aside: &[u64], at: usize, n: u64) -> bool
    ensures { result ≡ false → (at < length aside.now) × (number_at aside.now at ≡ n) }
{
    if at >= aside.len() {
        return true;
    }
    aside[at] != n
}

// Marks the blocks that read a slot, if its number has changed.
fn mark_if_changed(
    aside: &[u64],
    at: usize,
    n: u64,
    slot: u32,
    readers: &[Vec<u32>],
    marks: &mut [bool],
)
    ensures kept { KeepsMarks marks.old marks.new }
    ensures marked { ((at < length aside.now) × (number_at aside.now at ≡ n)) ⊎ HasMarks readers.now marks.new slot }
{
    if has_changed(aside, at, n) {
        mark_readers(marks, readers, slot);
    }
}

/// Marks the blocks that read slots whose numbers differ from those that were kept aside.
pub(crate) fn mark_changed(
    numbers: &[u64],
    rows: &[Row],
    from: usize,
    to: usize,
    aside: &[u64],
    readers: &[Vec<u32>],
    marks: &mut [bool],
)
    requires end { to ≤ length rows.now }
    requires fits { SlotsFit (slots_in rows.now) from to (length numbers.now) }
    ensures kept { KeepsMarks marks.old marks.new }
    ensures followed { (old : List ℕ) → IsAside (slots_in rows.now) from to aside.now old → (i : ℕ) → from ≤ i → i < to
        → IsFollowed readers.now marks.new old numbers.now (number_at (slots_in rows.now) i) }
{
    for i in from..to {
        let slot = rows[i].slot;
        mark_if_changed(
            aside,
            i - from,
            numbers[slot as usize],
            slot,
            readers,
            marks,
        );
    }
}

/// Gives the slots of a list the numbers given.
pub(crate) fn copy_slots(given: &[u64], listed: &[u32], numbers: &mut [u64])
    requires fits { (i : ℕ) → i < length listed.now → number_at listed.now i < length numbers.old }
    requires room { length given.now ≡ length numbers.old }
    ensures given { HaveGiven listed.now given.now numbers.new }
{
    for slot in listed {
        numbers[*slot as usize] = given[*slot as usize];
    }
}

// Gives a slot a number, and marks the blocks that read it if it had another. Says whether it had.
fn give_slot(
    slot: u32,
    n: u64,
    readers: &[Vec<u32>],
    numbers: &mut [u64],
    marks: &mut [bool],
) -> bool
    requires { slot < length numbers.old }
    ensures kept { KeepsMarks marks.old marks.new }
    ensures given { number_at numbers.new slot ≡ n }
    ensures others { (s : ℕ) → (slot ≡ s → ⊥) → number_at numbers.new s ≡ number_at numbers.old s }
    ensures followed { IsFollowed readers.now marks.new numbers.old numbers.new slot }
    ensures still { result ≡ false → numbers.new ≡ numbers.old }
{
    if numbers[slot as usize] == n {
        return false;
    }
    numbers[slot as usize] = n;
    mark_readers(marks, readers, slot);
    true
}

/// Gives the slots of a list the numbers given, and marks the blocks that read those that change. Says whether some do.
pub(crate) fn give_slots(
    given: &[u64],
    listed: &[u32],
    readers: &[Vec<u32>],
    numbers: &mut [u64],
    marks: &mut [bool],
) -> bool
    requires fits { (i : ℕ) → i < length listed.now → number_at listed.now i < length numbers.old }
    requires room { length given.now ≡ length numbers.old }
    ensures kept { KeepsMarks marks.old marks.new }
    ensures given { HaveGiven listed.now given.now numbers.new }
    ensures others { KeepsUnlisted listed.now numbers.old numbers.new }
    ensures followed { AllFollowed readers.now marks.new numbers.old numbers.new }
    ensures still { result ≡ false → numbers.new ≡ numbers.old }
{
    let mut is_changed = false;
    for slot in listed {
        if give_slot(*slot, given[*slot as usize], readers, numbers, marks) {
            is_changed = true;
        }
    }
    is_changed
}
