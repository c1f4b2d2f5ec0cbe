// The connections of instances.

ghost use Rattle.std.specs.Prelude.{◌≡◌, ◌++◌, ◌∷◌, [], IfOk, length, slice_get, slice_index, codes};
ghost use Rattle.std.specs.Str.{IsAscii};
ghost use Rattle.hw_build.specs.Scope.{each};
ghost use Rattle.hw_channel_lines.specs.Texts.{clocks as clocks_lem, connected_to};
ghost use Rattle.hw_lines.specs.declared.nets.Net.TheVariants.{Done};
ghost use Rattle.hw_lines.specs.Nets.{name as name_lem};
ghost use Rattle.hw_lines.specs.Texts.{is_written as is_written_lem};
ghost use Rattle.hw_top_lines.specs.Names.{ended_net as ended_net_lem};
ghost use Rattle.hw_top_lines.specs.Texts.{channel_connections as channel_ends_lem, memory_connections, memory_name as memory_name_lem, named_connections, read_connections};
ghost use Rattle.hw_top_lines.specs.Texts.{scalar_connections, stream_connections};
ghost use Rattle.hw_top_lines.specs.Texts.{stream_label as stream_label_lem, task_connections as task_ends_lem, written_connections};

use crate::bounds::bound_by;
use crate::names::{ack, addr, din, dout, ended_net, has, rdata, rdy, take, wdata, we, wr};
use hw_build::text;
use hw_lines::Net;
use hw_nets::name;
use std::alloc::{AllocError, Global};
use tapa_base::{Text, narrow, number_at};
use tapa_syntax::{Instance, Leaf, Program};
use vlog_tree::{Connection, Connections};

fn join(connections: &mut Vec<Connection>, port: Text, net: Text) -> Result<(), AllocError>
    ensures { IfOk result (λ u. connections.new.items ≡ connections.old.items ++ connected_to port net ∷ []) }
{
    connections.push(Connection { port, net })?;
    Ok(())
}

// A port of a task, connected to a net.
fn join_port(
    alloc: Global,
    ends: &mut Vec<Connection>,
    port: Net,
    net: Text,
) -> Result<(), AllocError>
    ensures { IfOk result (λ u. ends.new.items ≡ ends.old.items ++ connected_to (name_lem port) net ∷ []) }
{
    let port = name(alloc, port)?;
    join(ends, port, net)
}

// A port of this name, connected to a net.
fn join_named(
    alloc: Global,
    ends: &mut Vec<Connection>,
    port: &[u8],
    net: Text,
) -> Result<(), AllocError>
    requires { IsAscii port.now }
    ensures { IfOk result (λ u. ends.new.items ≡ ends.old.items ++ connected_to port.now net ∷ []) }
{
    let port = text(alloc, port)?;
    join(ends, port, net)
}

// Connections that begin with the clock and reset.
fn clocks(alloc: Global) -> Result<Vec<Connection>, AllocError>
    ensures { IfOk result (λ c. c.items ≡ clocks_lem []) }
{
    let mut ends = Vec::new(alloc);
    join_named(alloc, &mut ends, b"clk", text(alloc, b"clk")?)?;
    join_named(alloc, &mut ends, b"rst", text(alloc, b"rst")?)?;
    Ok(ends)
}

/// The connections of a channel's instance.
pub fn channel_connections(alloc: Global, label: &Text) -> Result<Connections, AllocError>
    ensures { IfOk result (λ c. c ≡ channel_ends_lem label.now) }
{
    let mut ends = clocks(alloc)?;
    join_named(alloc, &mut ends, b"din", din(alloc, label)?)?;
    join_named(alloc, &mut ends, b"wr", wr(alloc, label)?)?;
    join_named(alloc, &mut ends, b"take", take(alloc, label)?)?;
    join_named(alloc, &mut ends, b"rdy", rdy(alloc, label)?)?;
    join_named(alloc, &mut ends, b"has", has(alloc, label)?)?;
    join_named(alloc, &mut ends, b"dout", dout(alloc, label)?)?;
    Ok(Connections::of(ends))
}

fn stream_label(alloc: Global, program: &Program, s: u32) -> Result<Text, AllocError>
    ensures { IfOk result (λ t. t ≡ stream_label_lem program.now s) }
{
    match program.streams.get(s as usize) {
        Some(r) => r.label.copy(alloc),
        None => Ok(Text::new(Vec::new(alloc))),
    }
}

fn memory_name(alloc: Global, program: &Program, m: u32) -> Result<Text, AllocError>
    ensures { IfOk result (λ t. t ≡ memory_name_lem program.now m) }
{
    match program.memories.get(m as usize) {
        Some(r) => r.name.copy(alloc),
        None => Ok(Text::new(Vec::new(alloc))),
    }
}

fn add_scalar(
    alloc: Global,
    ends: &mut Vec<Connection>,
    i: u32,
    x: &Instance,
    p: u32,
) -> Result<(), AllocError>
    ensures { IfOk result (λ u. ends.new.items ≡ ends.old.items ++ scalar_connections i x.now p) }
{
    join_port(alloc, ends, Net::Scalar(p), bound_by(alloc, i, p, x)?)
}

fn add_written(
    alloc: Global,
    ends: &mut Vec<Connection>,
    p: u32,
    label: &Text,
) -> Result<(), AllocError>
    ensures { IfOk result (λ u. ends.new.items ≡ ends.old.items ++ written_connections p label.now) }
{
    join_port(alloc, ends, Net::Rdy(p), rdy(alloc, label)?)?;
    join_port(alloc, ends, Net::Wr(p), wr(alloc, label)?)?;
    join_port(alloc, ends, Net::Din(p), din(alloc, label)?)?;
    Ok(())
}

fn add_read(
    alloc: Global,
    ends: &mut Vec<Connection>,
    p: u32,
    label: &Text,
) -> Result<(), AllocError>
    ensures { IfOk result (λ u. ends.new.items ≡ ends.old.items ++ read_connections p label.now) }
{
    join_port(alloc, ends, Net::Has(p), has(alloc, label)?)?;
    join_port(alloc, ends, Net::Dout(p), dout(alloc, label)?)?;
    join_port(alloc, ends, Net::Taken(p), take(alloc, label)?)?;
    Ok(())
}

fn is_written(leaf: &Leaf, p: u32) -> bool
    ensures { result ≡ is_written_lem (slice_get leaf.now.streams.items p) }
{
    match leaf.streams.get(p as usize) {
        Some(end) => end.writes,
        None => false,
    }
}

fn add_stream(
    alloc: Global,
    ends: &mut Vec<Connection>,
    program: &Program,
    x: &Instance,
    leaf: &Leaf,
    p: u32,
) -> Result<(), AllocError>
    ensures { IfOk result (λ u. ends.new.items ≡ ends.old.items ++ stream_connections program.now x.now leaf.now p) }
{
    let s = number_at(&x.streams, p);
    let label = stream_label(alloc, program, s)?;
    if is_written(leaf, p) {
        add_written(alloc, ends, p, &label)
    } else {
        add_read(alloc, ends, p, &label)
    }
}

fn add_named(
    alloc: Global,
    ends: &mut Vec<Connection>,
    p: u32,
    memory: &Text,
) -> Result<(), AllocError>
    ensures { IfOk result (λ u. ends.new.items ≡ ends.old.items ++ named_connections p memory.now) }
{
    join_port(alloc, ends, Net::Ack(p), ack(alloc, memory)?)?;
    join_port(alloc, ends, Net::Rdata(p), rdata(alloc, memory)?)?;
    join_port(alloc, ends, Net::Addr(p), addr(alloc, memory)?)?;
    join_port(alloc, ends, Net::Wdata(p), wdata(alloc, memory)?)?;
    join_port(alloc, ends, Net::We(p), we(alloc, memory)?)?;
    Ok(())
}

fn add_memory(
    alloc: Global,
    ends: &mut Vec<Connection>,
    program: &Program,
    x: &Instance,
    p: u32,
) -> Result<(), AllocError>
    ensures { IfOk result (λ u. ends.new.items ≡ ends.old.items ++ memory_connections program.now x.now p) }
{
    let m = number_at(&x.memories, p);
    let memory = memory_name(alloc, program, m)?;
    add_named(alloc, ends, p, &memory)
}

fn add_scalars(
    alloc: Global,
    ends: &mut Vec<Connection>,
    i: u32,
    x: &Instance,
    leaf: &Leaf,
) -> Result<(), AllocError>
    ensures { IfOk result (λ u. ends.new.items ≡ ends.old.items ++ each (scalar_connections i x.now) (length leaf.now.scalars.items)) }
{
    let count = narrow(leaf.scalars.len())?;
    for p in 0..count {
        add_scalar(alloc, ends, i, x, p)?;
    }
    Ok(())
}

fn add_streams(
    alloc: Global,
    ends: &mut Vec<Connection>,
    program: &Program,
    x: &Instance,
    leaf: &Leaf,
) -> Result<(), AllocError>
    ensures { IfOk result (λ u. ends.new.items ≡ ends.old.items ++ each (stream_connections program.now x.now leaf.now) (length leaf.now.streams.items)) }
{
    let count = narrow(leaf.streams.len())?;
    for p in 0..count {
        add_stream(alloc, ends, program, x, leaf, p)?;
    }
    Ok(())
}

fn add_memories(
    alloc: Global,
    ends: &mut Vec<Connection>,
    program: &Program,
    x: &Instance,
    leaf: &Leaf,
) -> Result<(), AllocError>
    ensures { IfOk result (λ u. ends.new.items ≡ ends.old.items ++ each (memory_connections program.now x.now) (length leaf.now.memories.items)) }
{
    let count = narrow(leaf.memories.len())?;
    for p in 0..count {
        add_memory(alloc, ends, program, x, p)?;
    }
    Ok(())
}

// The connections that every task has.
fn first_connections(alloc: Global, i: u32) -> Result<Vec<Connection>, AllocError>
    ensures { IfOk result (λ c. c.items ≡ clocks_lem (connected_to (name_lem Done) (ended_net_lem i) ∷ [])) }
{
    let mut ends = clocks(alloc)?;
    join_port(alloc, &mut ends, Net::Done, ended_net(alloc, i)?)?;
    Ok(ends)
}

/// The connections of an instance of a task.
pub fn task_connections(
    alloc: Global,
    program: &Program,
    i: u32,
    x: &Instance,
    leaf: &Leaf,
) -> Result<Connections, AllocError>
    ensures { IfOk result (λ c. c ≡ task_ends_lem program.now i x.now leaf.now) }
{
    let mut ends = first_connections(alloc, i)?;
    add_scalars(alloc, &mut ends, i, x, leaf)?;
    add_streams(alloc, &mut ends, program, x, leaf)?;
    add_memories(alloc, &mut ends, program, x, leaf)?;
    Ok(Connections::of(ends))
}
