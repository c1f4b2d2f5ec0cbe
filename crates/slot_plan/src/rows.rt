//! The costs of items that are still to be placed, at each place: a row for each item.
ghost use Rattle.std.specs.Prelude.{◌≡◌, true, ◌<◌, ◌≤◌, ◌+◌, ◌*◌, ℕ, ◌⊎◌, length, slice_index, [], ◌∷◌, ◌++◌};
ghost use Rattle.slot_plan.specs.Tables.{items, places, cell, joint_at, distance_at, Suits, AreTables};
ghost use Rattle.slot_plan.specs.Search.{AreRows, IsBelowRest};

use crate::tables::Tables;

/// No cell of a row is greater.
const MOST: u64 = 2_731_622_400;

/// Returns the lesser of two costs, if the second counts, and otherwise the first.
fn lesser(least: u64, cost: u64, counts: bool) -> u64
    ensures least { result ≤ least }
    ensures cost { counts ≡ true → result ≤ cost }
{
    if counts { least.min(cost) } else { least }
}

/// Writes an item's row after one more item was placed. Returns the least cost of the item at a place that suits it.
fn lower_row(
    tables: &Tables,
    rows: &[u64],
    placed: usize,
    place: usize,
    item: usize,
    next: &mut [u64],
) -> u64
    requires tables { AreTables tables.now }
    requires rows { length rows.now ≡ items tables.now * places tables.now }
    requires next { length next.old ≡ items tables.now * places tables.now }
    requires placed { placed < items tables.now }
    requires item { item < items tables.now }
    requires place { place < places tables.now }
    requires low { (y : ℕ) → y < places tables.now → cell rows.now (places tables.now) item y ≤ 2726297600 }
    ensures row { (y : ℕ) → y < places tables.now → cell next.new (places tables.now) item y ≡ cell rows.now
        (places tables.now) item y + joint_at tables.now placed item * distance_at tables.now place y }
    ensures others { (i y : ℕ) → i < item → y < places tables.now → cell next.new (places tables.now) i y ≡ cell next.old (places tables.now) i y }
    ensures least { (y : ℕ) → y < places tables.now → Suits tables.now item y → result ≤ cell next.new (places tables.now) item y }
    ensures small { result ≤ 2731622400 }
{
    let places = tables.room.len();
    let width = tables.joint[placed * tables.needs.len() + item];
    let home = tables.homes[item];
    let mut least = MOST;
    for y in 0..places {
        let cost = rows[item * places + y] + width * tables.distance[place * places + y];
        next[item * places + y] = cost;
        least = lesser(least, cost, tables.regions[y] == home);
    }
    least
}

/// Writes the rows of all further items after the next item was placed. Returns a lower bound on their cost.
pub(crate) fn lower_rows(
    tables: &Tables,
    rows: &[u64],
    placed: &[u32],
    place: usize,
    next: &mut [u64],
) -> u64
    requires tables { AreTables tables.now }
    requires rows { AreRows tables.now placed.now rows.now }
    requires next { length next.old ≡ length rows.now }
    requires more { length placed.now < items tables.now }
    requires place { place < places tables.now }
    ensures rows { AreRows tables.now (placed.now ++ place ∷ []) next.new }
    ensures low { IsBelowRest tables.now (placed.now ++ place ∷ []) result }
    ensures small { result ≤ 512 * 2731622400 }
{
    let item = placed.len();
    let mut low = 0;
    for other in item + 1..tables.needs.len() {
        low += lower_row(tables, rows, item, place, other, next);
    }
    low
}
