// What a tree of JSON has: the members of objects, the items of lists, numbers.
ghost use Rattle.std.specs.Prelude.{◌≡◌, map, IsAscii};
ghost use Rattle.std.specs.List.{list_all};
ghost use Rattle.serde_json.specs.Find.{get_member};
ghost use Rattle.serde_json.specs.View.{view};
ghost use Rattle.run_data.specs.Data.{members_at, items_at, is_number};
ghost use Rattle.run_data.specs.Seen.{seen};

use serde_json::Value;

/// A name as text.
pub fn text_of(name: &[u8]) -> &str
    requires { IsAscii name.now }
    ensures { result.now ≡ name.now }
{
    match std::str::from_utf8(name) {
        Ok(text) => text,
        Err(_) => "",
    }
}

/// What an object has at a name, where it is one.
pub fn member<'v>(found: Option<&'v Value>, name: &[u8]) -> Option<&'v Value>
    requires { IsAscii name.now }
    ensures { seen result ≡ get_member name.now (members_at (seen found.entry)) }
{
    match found {
        Some(value) => value.get(text_of(name)),
        None => None,
    }
}

/// The items of a list: none where it is absent or no list.
pub fn items(found: Option<&Value>) -> &[Value]
    ensures { map view result.now ≡ items_at (seen found.entry) }
{
    let Some(value) = found else {
        return &[];
    };
    match value.as_array() {
        Some(list) => list.as_slice(),
        None => &[],
    }
}

/// Whether all values are numbers.
pub fn are_numbers(values: &[Value]) -> bool
    ensures { result ≡ list_all (λ value. is_number (view value)) values.now }
{
    values.iter().all(|value| value.is_number())
}
