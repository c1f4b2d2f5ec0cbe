// What a name may be declared as: a constant, scalar, array, memory, stream or task, with its value, number or position.
use tapa_base::Kind;

/// What a name is declared as.
#[derive(Clone, Copy, PartialEq, Eq, Debug)]
pub enum Entity {
    /// A constant of the file, with its value.
    Constant {
        kind: Kind,
        value: u64,
    },
    /// A scalar variable or a scalar parameter, with its number among the task's; whether it may be assigned.
    Variable {
        free: bool,
        kind: Kind,
        number: u32,
    },
    /// An array with its number; whether its cells may be assigned.
    Array {
        free: bool,
        kind: Kind,
        number: u32,
    },
    /// A memory parameter with its position; whether it may be stored to.
    Memory {
        free: bool,
        kind: Kind,
        number: u32,
    },
    /// A stream parameter with its position; whether the task writes it.
    Stream {
        writes: bool,
        kind: Kind,
        number: u32,
    },
    /// A stream that an upper-level task declares, with its number among them: its instances read and write it.
    Channel {
        kind: Kind,
        number: u32,
    },
    /// A task, with its number among the file's.
    Task {
        number: u32,
    },
}
