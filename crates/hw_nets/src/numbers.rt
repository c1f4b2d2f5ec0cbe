// Powers of 2.

ghost use Rattle.std.specs.Prelude.{◌≡◌, ◌<◌, ◌^◌};

/// 2 to the power of n.
pub fn power(n: u32) -> u128
    requires { n < 128 }
    ensures value { result ≡ 2 ^ n }
    ensures some { 0 < result }
{
    1 << n
}
