// Laws on an order of the nets of a flattened design.

ghost use Rattle.sim_flat.specs.Order.{DriversComeFirst, AskedComeFirst};

/// In an order of all nets those that a net's driver reads come before it, and the address of a memory of the top comes before
/// its read data. For the nets at the two sides of a connection the order says so itself.
pub fn law_parts_come_first()
    ensures drivers { DriversComeFirst }
    ensures asked { AskedComeFirst }
{}
