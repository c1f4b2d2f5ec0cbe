// How many bits a number takes.
ghost use Rattle.std.specs.Prelude.{◌≡◌, ◌≤◌};
ghost use Rattle.hw_build.specs.Widths.{bits_for as bits_for_lem};

/// Bits for the numbers up to n, at least one.
#[tactic(auto, unfolding(crate::specs::Widths::bits_for))]
pub fn bits_for(n: u32) -> u32
    ensures value { result ≡ bits_for_lem n }
    ensures most { result ≤ 32 }
{
    if n == 0 { 1 } else { 32 - n.leading_zeros() }
}
