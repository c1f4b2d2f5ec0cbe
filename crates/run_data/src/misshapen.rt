// The first fault of shape in a data file: no object, an input that is missing or has another shape, or an unknown key.
ghost use Rattle.std.specs.Prelude.{◌≡◌, ℕ, List, filter, not, option_map, IfOk};
ghost use Rattle.std.specs.List.{list_all, list_any};
ghost use Rattle.std.specs.Option.{option_copied};
ghost use Rattle.serde_json.specs.Find.{get_member};
ghost use Rattle.serde_json.specs.View.{view, members_view};
ghost use Rattle.run_data.specs.Data.{is_object, is_number, is_absent_or, is_list_of_numbers, is_shaped, is_among, is_name_of, members_at, keys_of, group_keys, misshapen_in, misshapen};
ghost use Rattle.run_data.specs.Seen.{seen, first, has_name};

use crate::find::group_in;
use crate::group::Group;
use crate::json::{are_numbers, member, text_of};
use serde_json::{Map, Value};
use std::alloc::{AllocError, Global};
use std::collections::HashMap;
use tapa_base::{Port, Shape};

fn is_list_of_numbers(value: &Value) -> bool
    ensures { result ≡ is_list_of_numbers (view value.now) }
{
    match value.as_array() {
        Some(list) => are_numbers(list.as_slice()),
        None => false,
    }
}

// Whether a value is one that a group asks for.
fn is_shaped(group: Group, found: Option<&Value>) -> bool
    ensures { result ≡ is_shaped group (seen found.entry) }
{
    match (group, found) {
        (Group::Scalars, Some(value)) => value.is_number(),
        (Group::Memories | Group::Waits, Some(value)) => is_list_of_numbers(value),
        (Group::Scalars | Group::Memories, None) => false,
        (Group::Waits, None) => true,
    }
}

// The first input whose value is absent or has another shape.
fn find_misshapen_port<'s>(
    group: Group,
    ports: &'s [Port],
    found: Option<&Value>,
) -> Option<&'s Port>
    ensures { option_copied result
        ≡ first (filter (λ port. not (is_shaped group (get_member port.name (members_at (seen found.entry))))) ports.now) }
{
    for port in ports {
        if !is_shaped(group, member(found, port.name.bytes())) {
            return Some(port);
        }
    }
    None
}

// The names of inputs, as a table in which a key is looked up without a walk over all of them.
fn names_of(alloc: Global, ports: &[Port]) -> Result<HashMap<String, ()>, AllocError>
    ensures { IfOk result (λ names. (name : List ℕ) → has_name names name ≡ list_any (is_name_of name) ports.now) }
{
    let mut names = HashMap::new(alloc);
    for port in ports {
        let name = String::from_str(alloc, text_of(port.name.bytes()))?;
        names.insert(name, ())?;
    }
    Ok(names)
}

// The first key of an object that is none of these names.
fn find_unknown_key<'v>(
    names: &HashMap<String, ()>,
    members: &'v Map<String, Value>,
) -> Option<&'v [u8]>
    ensures { option_map (λ key. key.now) result
        ≡ first (filter (λ name. not (has_name names.now name)) (keys_of (members_view members.now.entries))) }
{
    for key in members.keys() {
        if !names.contains_key(key.as_str()) {
            return Some(key.as_bytes());
        }
    }
    None
}

// The first key of a group that is none of these names.
fn find_unknown<'v>(names: &HashMap<String, ()>, found: Option<&'v Value>) -> Option<&'v [u8]>
    ensures { option_map (λ key. key.now) result
        ≡ first (filter (λ name. not (has_name names.now name)) (keys_of (members_at (seen found.entry)))) }
{
    let Some(value) = found else {
        return None;
    };
    match value.as_object() {
        Some(members) => find_unknown_key(names, members),
        None => None,
    }
}

// Whether a group is absent or an object.
fn is_group(found: Option<&Value>) -> bool
    ensures { result ≡ is_absent_or is_object (seen found.entry) }
{
    match found {
        Some(value) => value.is_object(),
        None => true,
    }
}

// The key of the first fault in a group.
fn find_misshapen_in(
    alloc: Global,
    group: Group,
    file: &Value,
    shape: &Shape,
) -> Result<Option<Vec<u8>>, AllocError>
    ensures { IfOk result (λ key. option_map (λ k. k.items) key ≡ first (misshapen_in group shape.now (view file.now))) }
{
    let found = group_in(group, file);
    if !is_group(found) {
        return Ok(Some(Vec::from_slice(alloc, group.key().as_bytes())?));
    }
    let ports = group.ports(shape);
    if let Some(port) = find_misshapen_port(group, ports, found) {
        return Ok(Some(group.key_of(alloc, port.name.bytes())?));
    }
    let names = names_of(alloc, ports)?;
    match find_unknown(&names, found) {
        Some(name) => Ok(Some(group.key_of(alloc, name)?)),
        None => Ok(None),
    }
}

fn is_group_key(key: &str) -> bool
    ensures { result ≡ is_among group_keys key.now }
{
    key == "scalars" || key == "memories" || key == "waits"
}

// The first key of the top object that is no group's.
fn find_unknown_group(members: &Map<String, Value>) -> Option<&[u8]>
    ensures { option_map (λ key. key.now) result
        ≡ first (filter (λ key. not (is_among group_keys key)) (keys_of (members_view members.now.entries))) }
{
    for key in members.keys() {
        if !is_group_key(key.as_str()) {
            return Some(key.as_bytes());
        }
    }
    None
}

// The key of the first fault of shape.
pub(crate) fn find_misshapen(
    alloc: Global,
    file: &Value,
    shape: &Shape,
) -> Result<Option<Vec<u8>>, AllocError>
    ensures { IfOk result (λ key. option_map (λ k. k.items) key ≡ first (misshapen shape.now (view file.now))) }
{
    let Some(members) = file.as_object() else {
        return Ok(Some(Vec::from_slice(alloc, b".")?));
    };
    if let Some(key) = find_misshapen_in(alloc, Group::Scalars, file, shape)? {
        return Ok(Some(key));
    }
    if let Some(key) = find_misshapen_in(alloc, Group::Memories, file, shape)? {
        return Ok(Some(key));
    }
    if let Some(key) = find_misshapen_in(alloc, Group::Waits, file, shape)? {
        return Ok(Some(key));
    }
    match find_unknown_group(members) {
        Some(key) => Ok(Some(Vec::from_slice(alloc, key)?)),
        None => Ok(None),
    }
}
