// The faults of a device file, each with the key, name or label that it is reported by, and want of memory.
use std::alloc::AllocError;

/// Why a device file is refused, with the bytes of a key, a name or a label. A shape or a number is reported by its key, and in
/// `tasks` and `pins` as `tasks.NAME` and `pins.LABEL`; a file that is no object as `.`.
#[derive(Drop)]
pub enum DeviceFault {
    /// The bytes are no JSON (RFC 8259), nest deeper than 127, or have a number beyond those of 64-bit floats.
    J1,
    /// A key is missing or unknown, or a value has another shape.
    J2(Vec<u8>),
    /// A number is not whole, or is no version, levels, percentage or amount.
    J3(Vec<u8>),
    /// Rows, columns, the number of slots or of borders, or a place are out of range: the key, or the label of a pin.
    K1(Vec<u8>),
    /// A name that is no leaf task with an instance, or a label that is no instance.
    K2(Vec<u8>),
    /// The label of an instance that is pinned elsewhere than an earlier one of its group.
    K3(Vec<u8>),
    /// The label of an instance that is pinned to a forbidden slot.
    K4(Vec<u8>),
    OutOfMemory,
}

impl From<AllocError> for DeviceFault {
    ghost use Rattle.std.specs.Prelude.{◌≡◌};
    ghost use Rattle.plan_device.specs.declared.fault.DeviceFault.TheVariants.{OutOfMemory};

    ghost from_gives = { λ _ fault. fault ≡ OutOfMemory };

    fn from(_: AllocError) -> Self {
        DeviceFault::OutOfMemory
    }
}
