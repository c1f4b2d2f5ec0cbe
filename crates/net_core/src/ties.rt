// What the ports of an instance are tied to, which is looked up once.

ghost use Rattle.std.specs.Prelude.{ℕ, ◌≡◌, ◌<◌, length, slice_index, IfOk, MatchBool};
ghost use Rattle.net_core.specs.Bindings.{IsConnected, arity, Reads, Writes, producer_of, IsWriter};
ghost use Rattle.net_core.specs.Ties.{IsTie, AreTies, AreAllTies};

use crate::bindings::{arity, depth, producer, stream_at, writes_at};
use crate::load::neighbours;
use std::alloc::Global;
use tapa_base::OutOfMemory;
use tapa_syntax::Program;

/// The stream of a port with its depth, the end of the stream that the port is, and the instance that writes the stream with the position of its port.
#[derive(Clone, Copy)]
pub struct Tie {
    pub stream: usize,
    pub depth: usize,
    pub writes: bool,
    pub producer: usize,
    pub position: usize,
}

/// What an instance is tied to: each of its ports, and the instances at the other ends of its streams, each once.
#[derive(Drop)]
pub struct Ties {
    pub ports: Vec<Tie>,
    pub near: Vec<usize>,
}

/// Whether a port writes its stream.
#[inline(always)]
pub fn is_writing(program: &Program, tie: &Tie, i: usize, p: usize) -> bool
    requires { IsTie program.now i p tie.now }
    ensures { MatchBool result (Writes program.now i p) (Reads program.now i p) }
{
    tie.writes
}

fn tie_at(program: &Program, writers: &Vec<usize>, i: usize, p: usize) -> Tie
    requires connected { IsConnected program.now }
    requires writers_len { length writers.now.items ≡ length program.now.streams.items }
    requires writers { (s : ℕ) → s < length program.now.streams.items → IsWriter program.now s (producer_of program.now s) (slice_index writers.now.items s) }
    requires instance { i < length program.now.instances.items }
    requires position { p < arity program.now i }
    ensures { IsTie program.now i p result }
{
    let stream = stream_at(program, i, p);
    let depth = depth(program, stream);
    let writes = writes_at(program, i, p);
    let producer = producer(program, stream);
    let position = writers[stream];
    Tie {
        stream,
        depth,
        writes,
        producer,
        position,
    }
}

fn ties_of(
    alloc: Global,
    program: &Program,
    writers: &Vec<usize>,
    i: usize,
) -> Result<Vec<Tie>, OutOfMemory>
    requires connected { IsConnected program.now }
    requires writers_len { length writers.now.items ≡ length program.now.streams.items }
    requires writers { (s : ℕ) → s < length program.now.streams.items → IsWriter program.now s (producer_of program.now s) (slice_index writers.now.items s) }
    requires instance { i < length program.now.instances.items }
    ensures as_many { IfOk result (λ ties. length ties.items ≡ arity program.now i) }
    ensures each { IfOk result (λ ties. AreTies program.now i ties.items) }
{
    let mut ties = Vec::new(alloc);
    for p in 0..arity(program, i) {
        ties.push(tie_at(program, writers, i, p))?;
    }
    Ok(ties)
}

/// What each instance is tied to.
pub fn all_ties(
    alloc: Global,
    program: &Program,
    writers: &Vec<usize>,
) -> Result<Vec<Ties>, OutOfMemory>
    requires connected { IsConnected program.now }
    requires writers_len { length writers.now.items ≡ length program.now.streams.items }
    requires writers { (s : ℕ) → s < length program.now.streams.items → IsWriter program.now s (producer_of program.now s) (slice_index writers.now.items s) }
    ensures len { IfOk result (λ all. length all.items ≡ length program.now.instances.items) }
    ensures each { IfOk result (λ all. AreAllTies program.now all.items) }
{
    let mut all = Vec::new(alloc);
    for i in 0..program.instances.len() {
        let ports = ties_of(alloc, program, writers, i)?;
        let near = neighbours(alloc, program, i)?;
        all.push(Ties { ports, near })?;
    }
    Ok(all)
}
