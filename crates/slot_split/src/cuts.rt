//! Cuts of rows and columns.
ghost use Rattle.std.specs.Prelude.{◌≡◌, ◌<◌, ◌≤◌, ◌+◌, ◌*◌};
ghost use Rattle.slot_split.specs.Halving.{half as half_of, part_start as part_start_of, corner as corner_of, AreCuts};

use plan_device::Device;

/// Returns how many of n rows or columns are in the first part.
fn half(n: u32) -> u32
    requires { n ≤ 8 }
    ensures { result ≡ half_of n }
{
    (n + 1) / 2
}

/// Returns how many cuts part n rows or columns into parts of one.
#[tactic(auto, using(crate::proofs::Parting::cuts_0, crate::proofs::Parting::cuts_1, crate::proofs::Parting::cuts_2, crate::proofs::Parting::cuts_3))]
pub(crate) fn cuts(n: u32) -> u32
    requires some { 0 < n }
    requires few { n ≤ 8 }
    ensures cuts { AreCuts n result }
    ensures few { result ≤ 3 }
{
    if n <= 1 {
        0
    } else if n <= 2 {
        1
    } else if n <= 4 {
        2
    } else {
        3
    }
}

/// Returns where the part begins in which one of n rows or columns is after a number of cuts.
fn part_start(cuts: u32, n: u32, x: u32) -> u32
    requires few { n ≤ 8 }
    requires inside { x < n }
    ensures value { result ≡ part_start_of cuts n x }
    ensures within { result ≤ x }
{
    if cuts == 0 {
        return 0;
    }
    let first = half(n);
    if x < first {
        part_start(cuts - 1, first, x)
    } else {
        first + part_start(cuts - 1, n - first, x - first)
    }
}

/// Returns the first slot of the region in which a slot is at a level, if `row_levels` cuts part all rows.
pub(crate) fn corner(device: &Device, row_levels: u32, level: u32, slot: u32) -> u32
    requires rows { device.now.rows ≤ 8 }
    requires some_cols { 0 < device.now.cols }
    requires cols { device.now.cols ≤ 4 }
    requires slot { slot < device.now.rows * device.now.cols }
    ensures value { result ≡ corner_of device.now row_levels level slot }
    ensures within { result ≤ slot }
{
    let rows = level.min(row_levels);
    let row = part_start(rows, device.rows, slot / device.cols);
    let col = part_start(level - rows, device.cols, slot % device.cols);
    row * device.cols + col
}
