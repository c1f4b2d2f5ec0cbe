// The first number in a data file that is not whole or does not fit the bits of its input.
ghost use Rattle.std.specs.Prelude.{◌≡◌, ◌≤◌, map, option_map, IfOk, All};
ghost use Rattle.std.specs.List.{list_all};
ghost use Rattle.serde_json.specs.View.{view};
ghost use Rattle.run_data.specs.Data.{has_bits, has_right_bits, misfits_in, misfits, ports_of};
ghost use Rattle.run_data.specs.Seen.{seen, first};

use crate::find::{bits_of, group_in};
use crate::group::Group;
use crate::json::{items, member};
use serde_json::Value;
use std::alloc::{AllocError, Global};
use tapa_base::{Port, Shape};

// Whether each is a whole number that fits this number of bits.
fn have_bits(bits: u32, values: &[Value]) -> bool
    requires { bits ≤ 64 }
    ensures { result ≡ list_all (has_bits bits) (map view values.now) }
{
    for value in values {
        if bits_of(bits, value).is_none() {
            return false;
        }
    }
    true
}

// Whether each number that a group has at an input is one of its bits.
fn has_right_bits(group: Group, port: &Port, found: Option<&Value>) -> bool
    requires { port.now.bits ≤ 64 }
    ensures { result ≡ has_right_bits group port.now (seen found.entry) }
{
    match group {
        Group::Scalars => match found {
            Some(value) => bits_of(port.bits, value).is_some(),
            None => true,
        },
        Group::Memories => have_bits(port.bits, items(found)),
        Group::Waits => have_bits(1, items(found)),
    }
}

// The key of the first input in a group with a number that is not one of its bits.
fn find_misfit_in(
    alloc: Global,
    group: Group,
    file: &Value,
    shape: &Shape,
) -> Result<Option<Vec<u8>>, AllocError>
    requires { All (λ port. port.bits ≤ 64) (ports_of group shape.now) }
    ensures { IfOk result (λ key. option_map (λ k. k.items) key ≡ first (misfits_in group shape.now (view file.now))) }
{
    let found = group_in(group, file);
    for port in group.ports(shape) {
        let name = port.name.bytes();
        if !has_right_bits(group, port, member(found, name)) {
            return Ok(Some(group.key_of(alloc, name)?));
        }
    }
    Ok(None)
}

// The key of the first number that is not one of its bits.
pub(crate) fn find_misfit(
    alloc: Global,
    file: &Value,
    shape: &Shape,
) -> Result<Option<Vec<u8>>, AllocError>
    requires scalars { All (λ port. port.bits ≤ 64) shape.now.scalars.items }
    requires memories { All (λ port. port.bits ≤ 64) shape.now.memories.items }
    ensures { IfOk result (λ key. option_map (λ k. k.items) key ≡ first (misfits shape.now (view file.now))) }
{
    if let Some(key) = find_misfit_in(alloc, Group::Scalars, file, shape)? {
        return Ok(Some(key));
    }
    if let Some(key) = find_misfit_in(alloc, Group::Memories, file, shape)? {
        return Ok(Some(key));
    }
    find_misfit_in(alloc, Group::Waits, file, shape)
}
