//! What a device file gives: the contract of a function that does nothing.

ghost use Rattle.plan_device.specs.One.{FilesGiveOneDevice};

/// The devices that a file gives for a program and its graph are one as plain data: where their lists lie in memory is no
/// matter. So their numbers of forbidden slots and of pinned groups are equal.
pub fn law_one_device()
    ensures { FilesGiveOneDevice }
{}
