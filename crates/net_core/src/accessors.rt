// What a net shows: the tokens that each stream has carried, those that were taken, and the last pause and the body of each instance.
ghost use Rattle.std.specs.Prelude.{◌≡◌, ◌<◌, length, slice_get, Some, MatchOption};
ghost use Rattle.kahn_model.specs.Counts.{written, taken};
ghost use Rattle.kahn_model.specs.Outcome.{shown};
ghost use Rattle.net_core.specs.Bounded.{IsBodyAt};
ghost use Rattle.net_core.specs.Bindings.{stream_at};
ghost use Rattle.net_core.specs.Waits.{HasHeld};
ghost use Rattle.net_core.specs.State.{network, count, IsValid};

use crate::bindings::{consumer, is_detached, producer};
use crate::body::{Body, Pause};
use crate::net::Net;
use tapa_base::Token;

impl<B: Body> Net<B> {
    /// Whether an instance is not waited for.
    pub fn is_detached(&self, i: usize) -> bool
        requires { i < length self.now.program.instances.items }
        ensures { result ≡ (network self.now).detached i }
    {
        is_detached(&self.program, i)
    }

    /// What is true of every net, for proofs: it is at a reachable count of its program's network. It does nothing.
    pub fn valid(&self)
        ensures { IsValid self.now }
    {
        let _counts = &self.counts;
    }

    /// The tokens that were written to a stream, first to last.
    pub fn carried(&self, stream: u32) -> &[Token]
        requires { stream < length self.now.program.streams.items }
        ensures { result.now ≡ written (network self.now) (count self.now) stream }
    {
        let j = producer(&self.program, stream as usize);
        self.streams.ports[j].carried(self.streams.writers[stream as usize])
    }

    /// How many of them the stream's consumer has taken.
    pub fn taken(&self, stream: u32) -> u64
        requires { stream < length self.now.program.streams.items }
        ensures { result ≡ length (taken (network self.now) (count self.now) stream) }
    {
        self.streams.taken[stream as usize] as u64
    }

    /// What a run shows of a stream where every instance that is waited for has ended: the tokens that were written where its producer
    /// is one of these, else those that were taken where its consumer is, else none.
    pub fn shown(&self, stream: u32) -> &[Token]
        requires { stream < length self.now.program.streams.items }
        ensures { result.now ≡ shown (network self.now) (count self.now) stream }
    {
        let s = stream as usize;
        if !self.is_detached(producer(&self.program, s)) {
            return self.carried(stream);
        }
        if self.is_detached(consumer(&self.program, s)) {
            return &[];
        }
        &self.carried(stream)[..self.streams.taken[s]]
    }

    /// Returns the answer of the last resume of an instance, or `None` before its first. The answer was true at some count of this run, and it is true now if it
    /// is an end or a bad token. An instance that reads a stream of its own and made ticks in that resume is reported as able to continue.
    pub fn pause(&self, instance: u32) -> Option<Pause>
        requires { instance < length self.now.program.instances.items }
        ensures last { slice_get self.now.pauses instance ≡ Some result }
        ensures held { MatchOption result (count self.now instance ≡ 0) (HasHeld (network self.now) (count self.now) instance (stream_at self.now.program instance)) }
    {
        self.pauses[instance as usize]
    }

    /// The body of an instance, which has made its count of ticks.
    pub fn body(&self, instance: u32) -> &B
        requires { instance < length self.now.program.instances.items }
        ensures { IsBodyAt (B.stands result.now) self.now.program self.now.input self.now.counts instance }
    {
        &self.bodies[instance as usize]
    }
}
