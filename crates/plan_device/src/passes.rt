// The checks of single values in a device file: whether the value at a key, or of a member of a group, has its shape, numbers and range.
ghost use Rattle.std.specs.Prelude.{◌≡◌, ◌≤◌, map, Some};
ghost use Rattle.std.specs.List.{list_all};
ghost use Rattle.serde_json.specs.View.{view};
ghost use Rattle.run_data.specs.Data.{is_number};
ghost use Rattle.run_data.specs.Seen.{seen};
ghost use Rattle.plan_device.specs.Json as json;
ghost use Rattle.plan_device.specs.Tests as spec;

use crate::amounts::{has_amounts, is_amounts};
use crate::check::Check;
use crate::grid::Grid;
use crate::json::{is_in, is_place, is_whole, is_whole_place, slot_of};
use crate::key::{Group, Key};
use run_data::{are_numbers, items};
use serde_json::Value;

/// The keys of versions are 1 and 2, levels at most 16, percentages at most 100, rows at most 8, columns at most 4.
const PAST_VERSIONS: u64 = 3;

const PAST_LEVELS: u64 = 17;

const PAST_PERCENT: u64 = 101;

const PAST_ROWS: u64 = 9;

const PAST_COLS: u64 = 5;

// ---- shapes

fn is_list_of_numbers(value: &Value) -> bool
    ensures { result ≡ json.is_list_of is_number (view value.now) }
{
    match value.as_array() {
        Some(list) => are_numbers(list.as_slice()),
        None => false,
    }
}

fn are_amounts(values: &[Value]) -> bool
    ensures { result ≡ list_all (λ value. json.is_amounts (view value)) values.now }
{
    values.iter().all(|value| is_amounts(value))
}

fn is_list_of_amounts(value: &Value) -> bool
    ensures { result ≡ json.is_list_of json.is_amounts (view value.now) }
{
    match value.as_array() {
        Some(list) => are_amounts(list.as_slice()),
        None => false,
    }
}

fn are_places(values: &[Value]) -> bool
    ensures { result ≡ list_all (λ value. json.is_place (view value)) values.now }
{
    values.iter().all(|value| is_place(value))
}

fn is_list_of_places(value: &Value) -> bool
    ensures { result ≡ json.is_list_of json.is_place (view value.now) }
{
    match value.as_array() {
        Some(list) => are_places(list.as_slice()),
        None => false,
    }
}

// Whether a value that is there has the shape that its key asks for.
fn is_value_shaped(key: Key, value: &Value) -> bool
    ensures { result ≡ spec.is_shaped key (Some (view value.now)) }
{
    match key {
        Key::Version | Key::Rows | Key::Cols | Key::Levels | Key::Percent => value.is_number(),
        Key::Slots => is_list_of_amounts(value),
        Key::LevelsRows | Key::LevelsCols => is_list_of_numbers(value),
        Key::Members(_) => value.is_object(),
        Key::Forbidden => is_list_of_places(value),
    }
}

fn is_shaped(key: Key, found: Option<&Value>) -> bool
    ensures { result ≡ spec.is_shaped key (seen found.entry) }
{
    match found {
        Some(value) => is_value_shaped(key, value),
        None => !matches!(key, Key::Rows | Key::Cols | Key::Slots),
    }
}

// ---- numbers

fn have_amounts(values: &[Value]) -> bool
    ensures { result ≡ list_all json.has_amounts (map view values.now) }
{
    for value in values {
        if !has_amounts(value) {
            return false;
        }
    }
    true
}

fn are_levels(values: &[Value]) -> bool
    ensures { result ≡ list_all (json.is_in 0 17) (map view values.now) }
{
    for value in values {
        if !is_in(0, PAST_LEVELS, value) {
            return false;
        }
    }
    true
}

fn are_whole_places(values: &[Value]) -> bool
    ensures { result ≡ list_all json.is_whole_place (map view values.now) }
{
    for value in values {
        if !is_whole_place(value) {
            return false;
        }
    }
    true
}

// Whether the numbers of a value are those that its key asks for.
fn has_value_numbers(key: Key, value: &Value) -> bool
    ensures { result ≡ spec.has_numbers key (Some (view value.now)) }
{
    match key {
        Key::Version => is_in(1, PAST_VERSIONS, value),
        Key::Rows | Key::Cols => is_whole(value),
        Key::Slots => have_amounts(items(Some(value))),
        Key::Levels => is_in(0, PAST_LEVELS, value),
        Key::LevelsRows | Key::LevelsCols => are_levels(items(Some(value))),
        Key::Percent => is_in(1, PAST_PERCENT, value),
        Key::Members(_) => true,
        Key::Forbidden => are_whole_places(items(Some(value))),
    }
}

fn has_numbers(key: Key, found: Option<&Value>) -> bool
    ensures { result ≡ spec.has_numbers key (seen found.entry) }
{
    match found {
        Some(value) => has_value_numbers(key, value),
        None => true,
    }
}

// ---- ranges

fn is_there_in(low: u64, past: u64, found: Option<&Value>) -> bool
    ensures { result ≡ spec.is_there_in low past (seen found.entry) }
{
    match found {
        Some(value) => is_in(low, past, value),
        None => false,
    }
}

// Whether a list has one item for each border between neighbours.
fn is_for_borders(count: u32, found: Option<&Value>) -> bool
    ensures { result ≡ spec.is_for_borders count (seen found.entry) }
{
    match found {
        Some(_) => items(found).len() == count.saturating_sub(1) as usize,
        None => true,
    }
}

fn is_inside(grid: Grid, value: &Value) -> bool
    requires rows { grid.rows ≤ 8 }
    requires cols { grid.cols ≤ 4 }
    ensures { result ≡ json.is_inside grid (view value.now) }
{
    slot_of(grid, value).is_some()
}

fn are_inside(grid: Grid, values: &[Value]) -> bool
    requires rows { grid.rows ≤ 8 }
    requires cols { grid.cols ≤ 4 }
    ensures { result ≡ list_all (json.is_inside grid) (map view values.now) }
{
    for value in values {
        if !is_inside(grid, value) {
            return false;
        }
    }
    true
}

fn has_ranges(grid: Grid, key: Key, found: Option<&Value>) -> bool
    requires rows { grid.rows ≤ 8 }
    requires cols { grid.cols ≤ 4 }
    ensures { result ≡ spec.has_ranges grid key (seen found.entry) }
{
    match key {
        Key::Rows => is_there_in(1, PAST_ROWS, found),
        Key::Cols => is_there_in(1, PAST_COLS, found),
        Key::Slots => items(found).len() == (grid.rows * grid.cols) as usize,
        Key::LevelsRows => is_for_borders(grid.rows, found),
        Key::LevelsCols => is_for_borders(grid.cols, found),
        Key::Forbidden => are_inside(grid, items(found)),
        Key::Version | Key::Levels | Key::Percent | Key::Members(_) => true,
    }
}

// ---- all of them

/// Whether what a file has at a key passes a check.
pub fn passes(check: Check, key: Key, found: Option<&Value>) -> bool
    requires { spec.IsSmall check }
    ensures { result ≡ spec.passes check key (seen found.entry) }
{
    match check {
        Check::Shape => is_shaped(key, found),
        Check::Number => has_numbers(key, found),
        Check::Range(grid) => has_ranges(grid, key, found),
        Check::Name => true,
    }
}

/// Whether a member of a group passes a check, whose name is known or not.
pub fn member_passes(check: Check, group: Group, known: bool, value: &Value) -> bool
    requires { spec.IsSmall check }
    ensures { result ≡ spec.member_passes check group known (view value.now) }
{
    match (check, group) {
        (Check::Shape, Group::Tasks) => is_amounts(value),
        (Check::Shape, Group::Pins) => is_place(value),
        (Check::Number, Group::Tasks) => has_amounts(value),
        (Check::Number, Group::Pins) => is_whole_place(value),
        (Check::Range(_), Group::Tasks) => true,
        (Check::Range(grid), Group::Pins) => is_inside(grid, value),
        (Check::Name, _) => known,
    }
}
