// Why a command ends with another status than that of done work.
ghost use Rattle.std.specs.Prelude.{◌≡◌};
ghost use Rattle.command_answers.specs.declared.refusal.Refusal.TheVariants as made;
ghost use Rattle.command_answers.specs.Meaning.{end_at, print_refusal};
ghost use Rattle.command_answers.specs.Told.{file_in};

use crate::file::File;
use crate::source::SourceCode;
use plan_device::DeviceFault;
use run_data::DataFault;
use std::alloc::AllocError;
use tapa_base::{OutOfMemory, Place};
use tapa_files::{PrintFault, WriteFault};
use vlog_tree::VFault;

/// Why a file shows nothing of a net.
#[derive(Drop)]
pub enum DumpFault {
    /// Its text is no value change dump: none goes on at this place.
    NoDump(Place),
    /// Its dump has no net of this name.
    NoNet { name: Vec<u8> },
}

/// Why a command ends with another status than that of done work.
#[derive(Drop)]
pub enum Refusal {
    /// A file cannot be read.
    Read(File),
    /// The output cannot be written to.
    Write,
    /// A file has more bytes than it may.
    TooLong(File),
    /// A rule that the source breaks, and where.
    Source { place: Place, code: SourceCode },
    /// The error in the data of a program or a design, or out of memory.
    Data(DataFault),
    /// The instances that are waited for make more ticks than this, or never end.
    Ticks { limit: u64 },
    /// The run stopped; each line says what an instance waits for.
    Stopped { lines: Vec<Vec<u8>> },
    /// The error in a device file, or out of memory.
    Device(DeviceFault),
    /// There are more ways to place the free groups than are looked at.
    TooManyPlans { slots: u32, free: u32 },
    /// No plan is within capacity.
    NoPlan,
    /// First fit has no slot for the group whose first instance has this label.
    NoRoom { label: Vec<u8> },
    /// Planning by halving has no list of regions that fits at this level.
    NoHalving { level: u32 },
    /// Why a Verilog text has no design, or want of memory instead.
    Verilog(VFault),
    /// The design is not done within this number of cycles.
    Undone { limit: u64 },
    /// Why the file shows nothing of the net that is asked for.
    Dump(DumpFault),
    /// Memory ran out.
    Memory,
}

impl Refusal {
    /// The file that it is of, where it is of one.
    pub fn file(&self) -> Option<File>
        ensures { result ≡ file_in (end_at self.now) }
    {
        match self {
            Refusal::Read(file) => Some(*file),
            Refusal::TooLong(file) => Some(*file),
            Refusal::Source { .. } => Some(File::Source),
            Refusal::Data(DataFault::OutOfMemory) => None,
            Refusal::Data(_) => Some(File::Data),
            Refusal::Device(DeviceFault::OutOfMemory) => None,
            Refusal::Device(_) => Some(File::Device),
            Refusal::Verilog(VFault::OutOfMemory) => None,
            Refusal::Verilog(_) => Some(File::Text),
            Refusal::Dump(_) => Some(File::Dump),
            _ => None,
        }
    }
}

impl From<AllocError> for Refusal {
    ghost from_gives = { λ _ refusal. refusal ≡ made.Memory };

    fn from(_: AllocError) -> Self {
        Refusal::Memory
    }
}

impl From<OutOfMemory> for Refusal {
    ghost from_gives = { λ _ refusal. refusal ≡ made.Memory };

    fn from(_: OutOfMemory) -> Self {
        Refusal::Memory
    }
}

impl From<WriteFault> for Refusal {
    ghost from_gives = { λ _ refusal. refusal ≡ made.Write };

    fn from(_: WriteFault) -> Self {
        Refusal::Write
    }
}

impl From<PrintFault> for Refusal {
    ghost from_gives = { λ fault refusal. refusal ≡ print_refusal fault };

    fn from(fault: PrintFault) -> Self {
        match fault {
            PrintFault::WriteFault => Refusal::Write,
            PrintFault::OutOfMemory => Refusal::Memory,
        }
    }
}

impl From<DataFault> for Refusal {
    ghost from_gives = { λ fault refusal. refusal ≡ made.Data fault };

    fn from(fault: DataFault) -> Self {
        Refusal::Data(fault)
    }
}

impl From<DeviceFault> for Refusal {
    ghost from_gives = { λ fault refusal. refusal ≡ made.Device fault };

    fn from(fault: DeviceFault) -> Self {
        Refusal::Device(fault)
    }
}

impl From<VFault> for Refusal {
    ghost from_gives = { λ fault refusal. refusal ≡ made.Verilog fault };

    fn from(fault: VFault) -> Self {
        Refusal::Verilog(fault)
    }
}

impl From<DumpFault> for Refusal {
    ghost from_gives = { λ fault refusal. refusal ≡ made.Dump fault };

    fn from(fault: DumpFault) -> Self {
        Refusal::Dump(fault)
    }
}
