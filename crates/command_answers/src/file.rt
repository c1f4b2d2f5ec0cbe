// What a file is to the command that reads it.

/// What a file is to the command that reads it.
#[derive(Clone, Copy, Debug, PartialEq, Eq)]
pub enum File {
    /// The source of a program.
    Source,
    /// A Verilog text.
    Text,
    /// A value change dump.
    Dump,
    /// The data of a program or a design.
    Data,
    /// A device file.
    Device,
}
