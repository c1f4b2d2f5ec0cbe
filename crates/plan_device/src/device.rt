// Devices.

use task_graph::Use;

/// The slots of a device, row by row, and what the tasks of a graph keep on it. `slots` are capacities, one a slot;
/// `uses` is one an instance; `pins` is one a group, the slot to which it is pinned; `levels_rows` and `levels_cols` are
/// the registers that a wire takes at each border between two rows or columns. A plan fills a slot up to `percent`
/// hundredths of each of its capacities, and leaves a slot empty that is `forbidden`.
#[derive(Drop)]
pub struct Device {
    pub rows: u32,
    pub cols: u32,
    pub levels_rows: Vec<u32>,
    pub levels_cols: Vec<u32>,
    pub percent: u32,
    pub slots: Vec<Use>,
    pub uses: Vec<Use>,
    pub pins: Vec<Option<u32>>,
    pub forbidden: Vec<bool>,
}
