// A new net.
ghost use Rattle.std.specs.Prelude.{Bool, ℕ, ◌≡◌, ◌<◌, [], length, replicate, slice_index, slice_get, Some, None, IfOk};
ghost use Rattle.std.specs.Arc.{arc_value};
ghost use Rattle.tapa_syntax.specs.WellFormed.{IsWellFormed};
ghost use Rattle.net_core.specs.Ports.{ends_of, ends_in, carried, carried_of, waiting, waiting_of};
ghost use Rattle.net_core.specs.Bindings.{IsConnected, ends_at, producer_of, IsWriter, TellsFedBySelf};
ghost use Rattle.kahn_model.specs.Fits.{FitsInput};
ghost use Rattle.net_core.specs.Bounded.{scalars_of, memories_of, instance_job};
ghost use Rattle.net_core.specs.State.{IsNew};

use crate::bindings::{arity, consumer, ends, producer, stream_at, writes_at};
use crate::body::{Body, Pause};
use crate::input::Input;
use crate::net::Net;
use crate::port::Port;
use crate::ports::Ports;
use crate::streams::Streams;
use std::alloc::Global;
use std::sync::Arc;
use tapa_base::OutOfMemory;
use tapa_syntax::{End, Program};

// Ports at which nothing is.
fn empty_ports(alloc: Global, ends: &[End]) -> Result<Ports, OutOfMemory>
    ensures ends { IfOk result (λ x. ends_of x ≡ ends.now) }
    ensures carried { IfOk result (λ x. (p : ℕ) → carried x p ≡ []) }
    ensures waiting { IfOk result (λ x. (p : ℕ) → waiting x p ≡ []) }
{
    let mut ports = Vec::new(alloc);
    for end in ends {
        ports.push(Port {
            end: *end,
            tokens: Vec::new(alloc),
            head: 0,
            carried: Vec::new(alloc),
            room: 0,
        })?;
    }
    Ok(Ports { ports })
}

// The ports of all instances.
fn all_ports(alloc: Global, program: &Program) -> Result<Vec<Ports>, OutOfMemory>
    requires { IsConnected program.now }
    ensures len { IfOk result (λ v. length v.items ≡ length program.now.instances.items) }
    ensures ends { IfOk result (λ v. (i : ℕ) → i < length program.now.instances.items → ends_in v.items i ≡ ends_at program.now i) }
    ensures carried { IfOk result (λ v. (i p : ℕ) → carried_of v.items i p ≡ []) }
    ensures waiting { IfOk result (λ v. (i p : ℕ) → waiting_of v.items i p ≡ []) }
{
    let mut all = Vec::new(alloc);
    for i in 0..program.instances.len() {
        all.push(empty_ports(alloc, ends(program, i))?)?;
    }
    Ok(all)
}

// The position of a stream at its producer.
fn writer_of(program: &Program, s: usize) -> usize
    requires connected { IsConnected program.now }
    requires stream { s < length program.now.streams.items }
    ensures { IsWriter program.now s (producer_of program.now s) result }
{
    let j = producer(program, s);
    for p in 0..arity(program, j) {
        if writes_at(program, j, p) {
            if stream_at(program, j, p) == s {
                return p;
            }
        }
    }
    0
}

// The positions of all streams at their producers.
fn writers(alloc: Global, program: &Program) -> Result<Vec<usize>, OutOfMemory>
    requires connected { IsConnected program.now }
    ensures len { IfOk result (λ v. length v.items ≡ length program.now.streams.items) }
    ensures writes { IfOk result (λ v. (s : ℕ) → s < length program.now.streams.items → IsWriter program.now s (producer_of program.now s) (slice_index v.items s)) }
{
    let mut all = Vec::new(alloc);
    for s in 0..program.streams.len() {
        all.push(writer_of(program, s))?;
    }
    Ok(all)
}

fn none_taken(alloc: Global, n: usize) -> Result<Vec<usize>, OutOfMemory>
    ensures { IfOk result (λ v. v.items ≡ replicate n 0) }
{
    Ok(vec![in alloc; 0; n]?)
}

fn none_made(alloc: Global, n: usize) -> Result<Vec<u64>, OutOfMemory>
    ensures { IfOk result (λ v. v.items ≡ replicate n 0) }
{
    Ok(vec![in alloc; 0; n]?)
}

fn no_pauses(alloc: Global, n: usize) -> Result<Vec<Option<Pause>>, OutOfMemory>
    ensures { IfOk result (λ v. v.items ≡ replicate n None) }
{
    Ok(vec![in alloc; None; n]?)
}

// Whether an instance reads a stream that it writes.
fn is_fed_by_self(program: &Program, i: usize) -> bool
    requires connected { IsConnected program.now }
    requires instance { i < length program.now.instances.items }
    ensures { TellsFedBySelf program.now i result }
{
    for p in 0..arity(program, i) {
        if writes_at(program, i, p) {
            if consumer(program, stream_at(program, i, p)) == i {
                return true;
            }
        }
    }
    false
}

// Which instances read a stream that they write.
fn fed_by_self(alloc: Global, program: &Program) -> Result<Vec<bool>, OutOfMemory>
    requires { IsConnected program.now }
    ensures len { IfOk result (λ v. length v.items ≡ length program.now.instances.items) }
    ensures each { IfOk result (λ v. (i : ℕ) (b : Bool) → i < length v.items → slice_get v.items i ≡ Some b → TellsFedBySelf program.now i b) }
{
    let mut all = Vec::new(alloc);
    for i in 0..program.instances.len() {
        all.push(is_fed_by_self(program, i))?;
    }
    Ok(all)
}

impl<B: Body + Drop> Net<B> {
    /// A net in which no instance has made a tick. Body i is to denote the job of instance i before its first tick.
    pub fn new(
        alloc: Global,
        program: Arc<Program>,
        input: Arc<Input>,
        bodies: Vec<B>,
    ) -> Result<Net<B>, OutOfMemory>
        requires well_formed { IsWellFormed (arc_value program) }
        requires fits { FitsInput (arc_value program) (scalars_of (arc_value input)) (memories_of (arc_value input)) }
        requires as_many { length bodies.items ≡ length (arc_value program).instances.items }
        requires first { (i : ℕ) (b : _) → slice_get bodies.items i ≡ Some b → B.stands b (instance_job (arc_value program) (arc_value input) i) [] }
        ensures program { IfOk result (λ net. net.program ≡ arc_value program) }
        ensures input { IfOk result (λ net. net.input ≡ arc_value input) }
        ensures new { IfOk result IsNew }
    {
        let ports = all_ports(alloc, &program)?;
        let writers = writers(alloc, &program)?;
        let offered = none_taken(alloc, program.streams.len())?;
        let taken = none_taken(alloc, program.streams.len())?;
        let fed_by_self = fed_by_self(alloc, &program)?;
        let counts = none_made(alloc, program.instances.len())?;
        let pauses = no_pauses(alloc, program.instances.len())?;
        Ok(Net {
            program,
            input,
            bodies,
            streams: Streams {
                ports,
                writers,
                offered,
                taken,
            },
            fed_by_self,
            counts,
            pauses,
        })
    }
}
