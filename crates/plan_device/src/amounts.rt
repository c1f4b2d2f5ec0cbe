// Amounts of resources in a device file: whether a value has their shape and numbers, and the amounts that it gives.
ghost use Rattle.std.specs.Prelude.{◌≡◌, ◌<◌, ◌^◌, ℕ, List, All, Some, string_cmp};
ghost use Rattle.std.specs.List.{list_all};
ghost use Rattle.std.specs.BTreeMap.{get};
ghost use Rattle.serde_json.specs.Data.{Data as Json};
ghost use Rattle.serde_json.specs.View.{view, members_view};
ghost use Rattle.task_graph.specs.Streams.{amount};
ghost use Rattle.run_data.specs.Data.{is_among};
ghost use Rattle.plan_device.specs.Amounts.{amount_in, amounts_of};
ghost use Rattle.plan_device.specs.Asked.{is_right};
ghost use Rattle.plan_device.specs.Json.{resource_names, entries_of, is_amounts, has_amounts};

use crate::json::{is_in, number_or};
use serde_json::{Map, Value};
use task_graph::Use;

/// Amounts of resources are below this: 2 to the 32nd.
const PAST_AMOUNTS: u64 = 4_294_967_296;

/// What is asked of a member: to be a number of a resource, or not to be an amount out of range.
#[derive(Clone, Copy)]
pub enum Asked {
    Number,
    Amount,
}

fn is_resource(name: &str) -> bool
    ensures { result ≡ is_among resource_names name.now }
{
    name == "LUT" || name == "FF" || name == "BRAM" || name == "DSP" || name == "URAM"
}

fn is_right(asked: Asked, name: &str, value: &Value) -> bool
    ensures { result ≡ is_right asked name.now (view value.now) }
{
    match asked {
        Asked::Number => is_resource(name) && value.is_number(),
        Asked::Amount => !is_resource(name) || is_in(0, PAST_AMOUNTS, value),
    }
}

// Whether each member of an object is what is asked, in one walk: no name is looked up.
fn are_right(asked: Asked, members: &Map<String, Value>) -> bool
    ensures value { result ≡ list_all (λ (m : List ℕ × Json). is_right asked m.0 m.1) (entries_of (members_view members.now.entries)) }
    ensures found { All (λ e. get string_cmp members.now e.0 ≡ Some e.1) members.now.entries }
{
    for (name, value) in members.iter() {
        if !is_right(asked, name.as_str(), value) {
            return false;
        }
    }
    true
}

/// Whether a value is an object from names of resources to numbers.
pub fn is_amounts(value: &Value) -> bool
    ensures { result ≡ is_amounts (view value.now) }
{
    match value.as_object() {
        Some(members) => are_right(Asked::Number, members),
        None => false,
    }
}

/// Whether each amount is a whole number below 2 to the 32nd.
pub fn has_amounts(value: &Value) -> bool
    ensures { result ≡ has_amounts (view value.now) }
{
    match value.as_object() {
        Some(members) => are_right(Asked::Amount, members),
        None => true,
    }
}

fn amount_in(name: &str, value: &Value) -> u64
    ensures value { result ≡ amount_in name.now (view value.now) }
    ensures below { result < 2 ^ 32 }
{
    number_or(0, 0, PAST_AMOUNTS, value.get(name))
}

/// The amounts of resources, 0 where one is not named.
pub fn amounts_of(value: &Value) -> Use
    ensures value { result ≡ amounts_of (view value.now) }
    ensures below { (k : ℕ) → amount result k < 2 ^ 32 }
{
    Use {
        lut: amount_in("LUT", value),
        ff: amount_in("FF", value),
        bram: amount_in("BRAM", value),
        dsp: amount_in("DSP", value),
        uram: amount_in("URAM", value),
    }
}
