// The trait of what makes the ticks of an instance on its ports, and the reasons why it pauses.
ghost use Rattle.std.specs.Prelude.{◌≡◌, List, length};
ghost use Rattle.kahn_model.specs.declared.tick.Tick.{Tick};
ghost use Rattle.net_core.specs.Job.{Job};
ghost use Rattle.net_core.specs.Resume.{CanResume, Agrees, Resumed};
ghost use Rattle.net_core.specs.Ports.{ends_of};

use crate::ports::Ports;

/// Why a call made no more ticks. A number is a position among the instance's streams.
#[derive(Clone, Copy, PartialEq, Eq, Debug)]
pub enum Pause {
    Ended,
    WantsRead(u32),
    WantsWrite(u32),
    BadToken(u32),
    Fuel,
}

/// What makes the ticks of a job, a few at a time.
pub trait Body {
    /// The value denotes a job that has made these ticks.
    ghost stands: { Self → Job → List Tick → Type 0 };

    /// Makes the job's next ticks while its ports allow them, at most `fuel`. A tick that is not made changes nothing.
    fn resume(&mut self, ports: &mut Ports, fuel: u64) -> Pause
        requires { CanResume (stands self.old) ports.old fuel }
        ensures { (job : Job) (ts : List Tick) → stands self.old job ts → ends_of ports.old ≡ job.ends → Agrees job.behavior ts ports.old
            → Resumed (stands self.new job) job.behavior ts ports.old fuel result ports.new };

    /// How many ticks were made.
    fn ticks(&self) -> u64
        ensures { (job : Job) (ts : List Tick) → stands self.now job ts → result ≡ length ts };
}
