// The statuses that a command may end with, and the exit code of each.
ghost use Rattle.std.specs.Prelude.{◌≡◌};
ghost use Rattle.command_answers.specs.Told.{code_of};

/// How a command ended.
#[derive(Clone, Copy, Debug, PartialEq, Eq)]
pub enum Status {
    /// The work is done, and all of it is written.
    Ok,
    /// A source or a Verilog text is refused.
    Source,
    /// The words are no command.
    Usage,
    /// A file of data or of a device is not what the program or the design asks for, or there are too many plans to look at.
    Data,
    /// No plan is within capacity, or first fit finds no slot for a group.
    NoPlan,
    /// A file could not be read.
    Read,
    /// Standard output or standard error could not be written to.
    Write,
    /// A limit is passed: of a file's length, of the ticks of a run's instances that are waited for, or of the cycles of a simulation.
    Limit,
    /// The program stopped at its declared depths before every instance that is waited for had ended.
    Stopped,
    /// Memory was wanting.
    Memory,
}

impl Status {
    /// The program's exit code.
    pub fn code(self) -> u8
        ensures { result ≡ code_of self }
    {
        match self {
            Status::Ok => 0,
            Status::Source => 1,
            Status::Usage => 2,
            Status::Data => 3,
            Status::NoPlan => 4,
            Status::Read => 5,
            Status::Write => 6,
            Status::Limit => 7,
            Status::Stopped => 8,
            Status::Memory => 9,
        }
    }
}
