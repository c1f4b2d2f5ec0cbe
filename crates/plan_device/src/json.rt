// What JSON values of a device file denote: whole numbers in a range, the rows and columns of the floorplan, and slots.
ghost use Rattle.std.specs.Prelude.{◌≡◌, ◌<◌, ◌≤◌, ◌*◌, map, option_and_then, IsAscii, IfSome};
ghost use Rattle.std.specs.List.{list_all};
ghost use Rattle.serde_json.specs.Find.{get_member};
ghost use Rattle.serde_json.specs.View.{view};
ghost use Rattle.run_data.specs.Data.{members_at, items_at, is_number};
ghost use Rattle.run_data.specs.Seen.{seen};
ghost use Rattle.plan_device.specs.Json.{is_whole, natural_in, number_in, is_in, number_or, is_list_of, is_place, is_whole_place, slot_of, is_inside};
ghost use Rattle.plan_device.specs.Tests.{grid_of};

use crate::grid::Grid;
use run_data::items;
use serde_json::Value;

/// Whether a number is whole.
pub fn is_whole(value: &Value) -> bool
    ensures { result ≡ is_whole (view value.now) }
{
    match value.as_number() {
        Some(number) => number.as_i128().is_some(),
        None => false,
    }
}

fn natural_in(low: u64, past: u64, number: u64) -> Option<u64>
    ensures value { result ≡ natural_in low past number }
    ensures least { IfSome result (λ n. low ≤ n) }
    ensures below { IfSome result (λ n. n < past) }
{
    if low <= number && number < past {
        Some(number)
    } else {
        None
    }
}

/// A whole number from `low` on and below `past`.
pub fn number_in(low: u64, past: u64, value: &Value) -> Option<u64>
    ensures value { result ≡ number_in low past (view value.now) }
    ensures least { IfSome result (λ n. low ≤ n) }
    ensures below { IfSome result (λ n. n < past) }
{
    let number = value.as_u64()?;
    natural_in(low, past, number)
}

/// Whether a value is a whole number, at least `low` and below `past`.
pub fn is_in(low: u64, past: u64, value: &Value) -> bool
    ensures { result ≡ is_in low past (view value.now) }
{
    number_in(low, past, value).is_some()
}

/// The whole number that a value is, and another number where it is absent or is none.
pub fn number_or(other: u64, low: u64, past: u64, found: Option<&Value>) -> u64
    requires { other < past }
    ensures value { result ≡ number_or other low past (seen found.entry) }
    ensures below { result < past }
{
    match found {
        Some(value) => number_in(low, past, value).unwrap_or(other),
        None => other,
    }
}

/// The rows and columns of a file, 0 where they are out of range.
pub fn grid_of(file: &Value) -> Grid
    ensures value { result ≡ grid_of (view file.now) }
    ensures few_rows { result.rows ≤ 8 }
    ensures few_cols { result.cols ≤ 4 }
{
    let rows = number_or(0, 1, 9, file.get("rows"));
    let cols = number_or(0, 1, 5, file.get("cols"));
    Grid {
        rows: rows as u32,
        cols: cols as u32,
    }
}

/// Whether a value is a place: a list of two numbers.
pub fn is_place(value: &Value) -> bool
    ensures { result ≡ is_place (view value.now) }
{
    match items(Some(value)) {
        [row, col] => row.is_number() && col.is_number(),
        _ => false,
    }
}

/// Whether a value's items, the row and the column of a slot, are whole numbers.
pub fn is_whole_place(value: &Value) -> bool
    ensures { result ≡ is_whole_place (view value.now) }
{
    for number in items(Some(value)) {
        if !is_whole(number) {
            return false;
        }
    }
    true
}

/// The slot of a place: none where the place lies outside of the grid.
pub fn slot_of(grid: Grid, value: &Value) -> Option<u32>
    requires rows { grid.rows ≤ 8 }
    requires cols { grid.cols ≤ 4 }
    ensures value { result ≡ slot_of grid (view value.now) }
    ensures inside { IfSome result (λ s. s < grid.rows * grid.cols) }
{
    let [row, col] = items(Some(value)) else {
        return None;
    };
    let row = number_in(0, u64::from(grid.rows), row)?;
    let col = number_in(0, u64::from(grid.cols), col)?;
    Some(row as u32 * grid.cols + col as u32)
}
