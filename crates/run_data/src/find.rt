// What a data file has at a group, and the bits of a whole number in two's complement.
ghost use Rattle.std.specs.Prelude.{◌≡◌, ◌≤◌, ◌^◌, map, IsAscii};
ghost use Rattle.serde_json.specs.Find.{get_member};
ghost use Rattle.serde_json.specs.View.{view};
ghost use Rattle.run_data.specs.Data.{group_in, members_at, items_at, bits_of, bits_of_whole};
ghost use Rattle.run_data.specs.Seen.{seen};

use crate::group::Group;
use serde_json::Value;
use tapa_base::Port;

// What a file has at a group.
pub(crate) fn group_in<'v>(group: Group, file: &'v Value) -> Option<&'v Value>
    ensures { seen result ≡ group_in group (view file.now) }
{
    file.get(group.key())
}

// The bits of a number, if it is whole and fits this number of bits.
pub(crate) fn bits_of(bits: u32, value: &Value) -> Option<u64>
    requires { bits ≤ 64 }
    ensures { result ≡ bits_of bits (view value.now) }
{
    let number = value.as_number()?;
    let whole = number.as_i128()?;
    bits_of_whole(bits, whole)
}

// The number of values of this number of bits.
fn numbers_of(bits: u32) -> u128
    requires { bits ≤ 64 }
    ensures value { result ≡ 2 ^ bits }
    ensures within { result ≤ 2 ^ 64 }
{
    1 << bits
}

// The bits of a whole number in two's complement, if it fits this number of bits.
fn bits_of_whole(bits: u32, whole: i128) -> Option<u64>
    requires { bits ≤ 64 }
    ensures { result ≡ bits_of_whole bits whole }
{
    let numbers = numbers_of(bits);
    let size = whole.unsigned_abs();
    if whole >= 0 {
        return if size < numbers {
            Some(size as u64)
        } else {
            None
        };
    }
    if bits < 2 || numbers / 2 < size {
        return None;
    }
    Some((numbers - size) as u64)
}
