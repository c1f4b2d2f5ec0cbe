// How the instances of a program are bound to its streams.
ghost use Rattle.std.specs.Prelude.{◌≡◌, ◌<◌, ◌^◌, length, MatchBool};
ghost use Rattle.net_core.specs.Bindings.{IsConnected, detached_at, arity, ends_at, stream_at, Reads, Writes, producer_of, consumer_of, depth_of};

use tapa_syntax::{End, Program};

/// Whether an instance is not waited for.
pub fn is_detached(program: &Program, i: usize) -> bool
    requires { i < length program.now.instances.items }
    ensures { result ≡ detached_at program.now i }
{
    program.instances[i].detached
}

/// How many streams an instance has.
pub fn arity(program: &Program, i: usize) -> usize
    requires { i < length program.now.instances.items }
    ensures { result ≡ arity program.now i }
{
    program.instances[i].streams.len()
}

/// The streams of an instance's leaf.
pub fn ends(program: &Program, i: usize) -> &[End]
    requires connected { IsConnected program.now }
    requires instance { i < length program.now.instances.items }
    ensures ends { result.now ≡ ends_at program.now i }
    ensures as_many { length result.now ≡ arity program.now i }
{
    let leaf = &program.bodies[program.instances[i].body as usize];
    leaf.streams.as_slice()
}

/// The stream at a position of an instance.
pub fn stream_at(program: &Program, i: usize, p: usize) -> usize
    requires connected { IsConnected program.now }
    requires instance { i < length program.now.instances.items }
    requires position { p < arity program.now i }
    ensures is { result ≡ stream_at program.now i p }
    ensures inside { result < length program.now.streams.items }
{
    program.instances[i].streams[p] as usize
}

/// Whether an instance writes at a position.
pub fn writes_at(program: &Program, i: usize, p: usize) -> bool
    requires connected { IsConnected program.now }
    requires instance { i < length program.now.instances.items }
    requires position { p < arity program.now i }
    ensures { MatchBool result (Writes program.now i p) (Reads program.now i p) }
{
    let ends = ends(program, i);
    ends[p].writes
}

/// The instance that writes a stream.
pub fn producer(program: &Program, s: usize) -> usize
    requires connected { IsConnected program.now }
    requires stream { s < length program.now.streams.items }
    ensures is { result ≡ producer_of program.now s }
    ensures inside { result < length program.now.instances.items }
{
    program.streams[s].producer as usize
}

/// The instance that reads a stream.
pub fn consumer(program: &Program, s: usize) -> usize
    requires connected { IsConnected program.now }
    requires stream { s < length program.now.streams.items }
    ensures is { result ≡ consumer_of program.now s }
    ensures inside { result < length program.now.instances.items }
{
    program.streams[s].consumer as usize
}

/// The depth of a stream.
pub fn depth(program: &Program, s: usize) -> usize
    requires connected { IsConnected program.now }
    requires stream { s < length program.now.streams.items }
    ensures is { result ≡ depth_of program.now s }
    ensures few { result < 2 ^ 32 }
{
    program.streams[s].depth as usize
}
