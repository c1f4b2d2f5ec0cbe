// The first fault of shape in a device file: no object, a missing key, a value of another shape, or an unknown key.
ghost use Rattle.std.specs.Prelude.{◌≡◌, filter, not, option_map, IfOk};
ghost use Rattle.serde_json.specs.View.{view, members_view};
ghost use Rattle.run_data.specs.Data.{keys_of};
ghost use Rattle.run_data.specs.Seen.{first};
ghost use Rattle.plan_device.specs.Faults.{is_key_in, misshapen};
ghost use Rattle.plan_device.specs.Known.{names_known};

use crate::check::Check;
use crate::find::find;
use crate::key::Format;
use crate::names::Known;
use serde_json::{Map, Value};
use std::alloc::{AllocError, Global};

// The first key that the format has not.
fn find_unknown_key(format: Format, members: &Map<String, Value>) -> Option<&[u8]>
    ensures { option_map (λ key. key.now) result
        ≡ first (filter (λ name. not (is_key_in format name)) (keys_of (members_view members.now.entries))) }
{
    for key in members.keys() {
        if !format.has_key(key.as_str()) {
            return Some(key.as_bytes());
        }
    }
    None
}

/// What is reported of the first fault of shape.
pub(crate) fn find_misshapen(
    alloc: Global,
    known: &Known,
    file: &Value,
) -> Result<Option<Vec<u8>>, AllocError>
    ensures { IfOk result (λ told. option_map (λ t. t.items) told ≡ first (misshapen (names_known known.now) (view file.now))) }
{
    let Some(members) = file.as_object() else {
        return Ok(Some(Vec::from_slice(alloc, b".")?));
    };
    let format = Format::of(file);
    if let Some(told) = find(alloc, Check::Shape, format, known, file)? {
        return Ok(Some(told));
    }
    match find_unknown_key(format, members) {
        Some(key) => Ok(Some(Vec::from_slice(alloc, key)?)),
        None => Ok(None),
    }
}
