//! Values of nets that were read.

ghost use Rattle.std.specs.Prelude.{◌≡◌, ◌<◌, ◌≤◌, length};
ghost use Rattle.vcd_text.specs.Read.{value_of};

use crate::dump::Dump;

impl Dump {
    /// The value of the net at an index in a cycle.
    pub fn value_at(&self, net: u32, cycle: u64) -> u128
        requires net { net < length self.now.nets.items }
        requires cycle { cycle ≤ self.now.last }
        ensures { result ≡ value_of self.now.changes.items net cycle }
    {
        let mut value = 0;
        for change in self.changes.as_slice() {
            if change.net == net && change.cycle <= cycle {
                value = change.value;
            }
        }
        value
    }
}
