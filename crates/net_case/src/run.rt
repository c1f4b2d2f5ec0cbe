// A batch makes its ticks.
ghost use Rattle.std.specs.Prelude.{◌≡◌, ◌<◌, ◌≤◌, ◌+◌, ◌-◌, length, true, IfOk, OnOk, OnErr};
ghost use Rattle.net_core.specs.Ports.{port_count};
ghost use Rattle.net_case.specs.Batch.{KeepsTokens, AreRoomsWhole, Ran, IsPrepared, CommitsAnywhere};

use crate::batch::Batch;
use net_core::{Body, Pause, Ports, resume_body};
use tapa_base::OutOfMemory;

// Makes room at each port that writes for all tokens that its stream may get.
fn make_rooms(ports: &mut Ports, limits: &Vec<usize>) -> Result<(), OutOfMemory>
    requires { length limits.now.items ≡ port_count ports.old }
    ensures kept { KeepsTokens ports.old ports.new }
    ensures whole { IfOk result (λ _. AreRoomsWhole limits.now.items (length limits.now.items) ports.new) }
{
    for p in 0..limits.len() {
        if ports.writes(p) {
            let len = ports.carried(p).len();
            ports.make_room(p, limits[p].saturating_sub(len))?;
        }
    }
    Ok(())
}

impl<B: Body> Batch<B> {
    /// The instance that is out.
    pub fn instance(&self) -> usize
        ensures instance { result ≡ self.now.instance }
        ensures few { result < 512 }
    {
        self.instance
    }

    /// How many ticks it has made.
    pub fn made(&self) -> u64
        ensures { result ≡ self.now.made }
    {
        self.made
    }

    /// How many ticks its instance made when it was last resumed, here or in an earlier batch; before the first time, the greatest
    /// number. It only says what to expect of the next time.
    pub fn last(&self) -> u64 {
        self.process.last
    }

    /// Makes room in memory for the tokens that its streams have room for, so that `resume` takes none. After want of memory
    /// the batch is as it was.
    pub fn prepare(&mut self) -> Result<(), OutOfMemory>
        ensures failed { OnErr result (self.new ≡ self.old) }
        ensures prepared { OnOk result (IsPrepared self.old self.new) }
    {
        if !self.ready {
            make_rooms(&mut self.process.ports, &self.process.limits)?;
            self.ready = true;
        }
        Ok(())
    }

    /// Makes the ticks that the fuel, the tokens and the room allow.
    pub fn resume(&mut self) -> Pause
        requires { self.old.ready ≡ true }
        ensures { Ran self.old self.new result }
    {
        let fuel = self.fuel - self.made;
        let (pause, made) = resume_body(&mut self.process.body, &mut self.process.ports, fuel);
        self.made += made;
        self.process.last = made;
        self.pause = Some(pause);
        pause
    }

    /// Makes room for its tokens, and then its ticks. After want of memory the batch is as it was.
    pub fn run(&mut self) -> Result<Pause, OutOfMemory>
        ensures failed { OnErr result (self.new ≡ self.old) }
        ensures ran { IfOk result (λ pause. Ran self.old self.new pause) }
    {
        self.prepare()?;
        Ok(self.resume())
    }

    /// Whatever the others have done meanwhile, the batch's ticks are steps of the network there. It does nothing.
    pub fn commits_anywhere(&self)
        ensures { CommitsAnywhere self.now }
    {
        let _made = self.made;
    }
}
