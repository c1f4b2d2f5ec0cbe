// The search of a device file for the first fault under one check, at a key or at a member of a group, and how it is reported.
ghost use Rattle.std.specs.Prelude.{◌≡◌, ◌&&◌, ℕ, List, true, false, filter, map, not, option_map, IfOk};
ghost use Rattle.serde_json.specs.Data.{Data as Json};
ghost use Rattle.serde_json.specs.Find.{get_member};
ghost use Rattle.serde_json.specs.View.{view, members_view};
ghost use Rattle.run_data.specs.Data.{is_absent_or, members_at};
ghost use Rattle.run_data.specs.Seen.{seen, first, has_name};
ghost use Rattle.plan_device.specs.Faults.{told_in, faulty_in, faulty_at, faulty};
ghost use Rattle.plan_device.specs.Json.{entries_of};
ghost use Rattle.plan_device.specs.Keys.{names_in};
ghost use Rattle.plan_device.specs.Known.{names_known};
ghost use Rattle.plan_device.specs.Tests as spec;

use crate::check::Check;
use crate::key::{Format, Group, Key};
use crate::names::Known;
use crate::passes::{member_passes, passes};
use run_data::member;
use serde_json::{Map, Value};
use std::alloc::{AllocError, Global};
use std::collections::HashMap;
use tapa_base::Text;

// Whether what a group has at a known name is absent or passes.
fn known_passes(check: Check, group: Group, found: Option<&Value>) -> bool
    requires { spec.IsSmall check }
    ensures { result ≡ is_absent_or (spec.member_passes check group true) (seen found.entry) }
{
    match found {
        Some(value) => member_passes(check, group, true, value),
        None => true,
    }
}

// The first of these names that does not pass.
fn find_known<'n>(
    check: Check,
    group: Group,
    names: &'n [Text],
    found: Option<&Value>,
) -> Option<&'n Text>
    requires { spec.IsSmall check }
    ensures { option_map (λ name. name.now) result
        ≡ first (filter (λ name. not (is_absent_or (spec.member_passes check group true) (get_member name (members_at (seen found.entry))))) names.now) }
{
    for name in names {
        if !known_passes(check, group, member(found, name.bytes())) {
            return Some(name);
        }
    }
    None
}

// The first key of an object that is none of these names and does not pass.
fn find_unknown_member<'v>(
    check: Check,
    group: Group,
    table: &HashMap<String, ()>,
    members: &'v Map<String, Value>,
) -> Option<&'v [u8]>
    requires { spec.IsSmall check }
    ensures { option_map (λ key. key.now) result
        ≡ option_map (λ (m : List ℕ × Json). m.0)
        (first (filter (λ (m : List ℕ × Json). not (has_name table.now m.0) && not (spec.member_passes check group false m.1))
        (entries_of (members_view members.now.entries)))) }
{
    for (key, value) in members.iter() {
        if !member_passes(check, group, false, value) && !table.contains_key(key.as_str()) {
            return Some(key.as_bytes());
        }
    }
    None
}

// The first key of a group that is none of these names and does not pass.
fn find_unknown<'v>(
    check: Check,
    group: Group,
    table: &HashMap<String, ()>,
    found: Option<&'v Value>,
) -> Option<&'v [u8]>
    requires { spec.IsSmall check }
    ensures { option_map (λ key. key.now) result
        ≡ option_map (λ (m : List ℕ × Json). m.0)
        (first (filter (λ (m : List ℕ × Json). not (has_name table.now m.0) && not (spec.member_passes check group false m.1))
        (entries_of (members_at (seen found.entry))))) }
{
    let Some(value) = found else {
        return None;
    };
    match value.as_object() {
        Some(members) => find_unknown_member(check, group, table, members),
        None => None,
    }
}

// How a member is reported.
fn told_in(check: Check, alloc: Global, group: Group, name: &[u8]) -> Result<Vec<u8>, AllocError>
    ensures { IfOk result (λ key. key.items ≡ told_in check group name.now) }
{
    match check {
        Check::Shape | Check::Number => {
            let mut key = Vec::from_slice(alloc, group.name().as_bytes())?;
            key.push(b'.')?;
            key.extend_from_slice(name)?;
            Ok(key)
        }
        Check::Range(_) | Check::Name => Ok(Vec::from_slice(alloc, name)?),
    }
}

// The name of the first member of a group that does not pass.
fn find_in<'v>(check: Check, group: Group, known: &'v Known, file: &'v Value) -> Option<&'v [u8]>
    requires { spec.IsSmall check }
    ensures { option_map (λ name. name.now) result ≡ first (faulty_in check group (names_known known.now) (view file.now)) }
{
    let found = file.get(group.name());
    let names = known.names(group);
    if let Some(name) = find_known(check, group, &names.list, found) {
        return Some(name.bytes());
    }
    find_unknown(check, group, &names.table, found)
}

// What is reported of the first member of a group that does not pass.
fn find_member(
    alloc: Global,
    check: Check,
    group: Group,
    known: &Known,
    file: &Value,
) -> Result<Option<Vec<u8>>, AllocError>
    requires { spec.IsSmall check }
    ensures { IfOk result (λ told. option_map (λ t. t.items) told ≡ first (map (told_in check group) (faulty_in check group (names_known known.now) (view file.now)))) }
{
    match find_in(check, group, known, file) {
        Some(name) => Ok(Some(told_in(check, alloc, group, name)?)),
        None => Ok(None),
    }
}

// What is reported of the first fault at a key.
fn find_at(
    alloc: Global,
    check: Check,
    key: Key,
    known: &Known,
    file: &Value,
) -> Result<Option<Vec<u8>>, AllocError>
    requires { spec.IsSmall check }
    ensures { IfOk result (λ told. option_map (λ t. t.items) told ≡ first (faulty_at check (names_known known.now) (view file.now) key)) }
{
    let name = key.name();
    if !passes(check, key, file.get(name)) {
        return Ok(Some(Vec::from_slice(alloc, name.as_bytes())?));
    }
    match key.group() {
        Some(group) => find_member(alloc, check, group, known, file),
        None => Ok(None),
    }
}

/// What is reported of the first fault over the whole file.
pub(crate) fn find(
    alloc: Global,
    check: Check,
    format: Format,
    known: &Known,
    file: &Value,
) -> Result<Option<Vec<u8>>, AllocError>
    requires { spec.IsSmall check }
    ensures { IfOk result (λ told. option_map (λ t. t.items) told ≡ first (faulty check (names_known known.now) (view file.now) format)) }
{
    for key in format.keys() {
        if let Some(told) = find_at(alloc, check, *key, known, file)? {
            return Ok(Some(told));
        }
    }
    Ok(None)
}
