// The connections of instances.

ghost use Rattle.std.specs.Prelude.{◌≡◌, ◌++◌, ◌∷◌, [], IfOk, codes};
ghost use Rattle.std.specs.Str.{IsAscii};
ghost use Rattle.hw_channel_lines.specs.Texts.{clocks as clocks_lem, fifo_connections as fifo_lem, relay_connections as relay_lem, connected_to};

use hw_build::text;
use std::alloc::{AllocError, Global};
use vlog_tree::{Connection, Connections};

fn join(
    alloc: Global,
    connections: &mut Vec<Connection>,
    port: &[u8],
    net: &[u8],
) -> Result<(), AllocError>
    requires port { IsAscii port.now }
    requires net { IsAscii net.now }
    ensures { IfOk result (λ u. connections.new.items ≡ connections.old.items ++ connected_to port.now net.now ∷ []) }
{
    connections.push(Connection {
        port: text(alloc, port)?,
        net: text(alloc, net)?,
    })?;
    Ok(())
}

// Connections that begin with the clock and reset.
fn clocks(alloc: Global) -> Result<Vec<Connection>, AllocError>
    ensures { IfOk result (λ c. c.items ≡ clocks_lem []) }
{
    let mut connections = Vec::new(alloc);
    join(alloc, &mut connections, b"clk", b"clk")?;
    join(alloc, &mut connections, b"rst", b"rst")?;
    Ok(connections)
}

/// The connections of a relay's instance, the nets of its ports in the order of its inputs and its outputs.
pub fn relay_connections(
    alloc: Global,
    put: &[u8],
    din: &[u8],
    rdy_early: &[u8],
    put_late: &[u8],
    din_late: &[u8],
    rdy: &[u8],
) -> Result<Connections, AllocError>
    requires put { IsAscii put.now }
    requires din { IsAscii din.now }
    requires rdy_early { IsAscii rdy_early.now }
    requires put_late { IsAscii put_late.now }
    requires din_late { IsAscii din_late.now }
    requires rdy { IsAscii rdy.now }
    ensures { IfOk result (λ c. c ≡ relay_lem put.now din.now rdy_early.now put_late.now din_late.now rdy.now) }
{
    let mut connections = clocks(alloc)?;
    join(alloc, &mut connections, b"put", put)?;
    join(alloc, &mut connections, b"din", din)?;
    join(alloc, &mut connections, b"rdy_early", rdy_early)?;
    join(alloc, &mut connections, b"put_late", put_late)?;
    join(alloc, &mut connections, b"din_late", din_late)?;
    join(alloc, &mut connections, b"rdy", rdy)?;
    Ok(Connections::of(connections))
}

/// The connections of a FIFO's instance.
pub fn fifo_connections(
    alloc: Global,
    put: &[u8],
    din: &[u8],
    rdy: &[u8],
) -> Result<Connections, AllocError>
    requires put { IsAscii put.now }
    requires din { IsAscii din.now }
    requires rdy { IsAscii rdy.now }
    ensures { IfOk result (λ c. c ≡ fifo_lem put.now din.now rdy.now) }
{
    let mut connections = clocks(alloc)?;
    join(alloc, &mut connections, b"put", put)?;
    join(alloc, &mut connections, b"din", din)?;
    join(alloc, &mut connections, b"take", b"take")?;
    join(alloc, &mut connections, b"rdy", rdy)?;
    join(alloc, &mut connections, b"has", b"has")?;
    join(alloc, &mut connections, b"dout", b"dout")?;
    Ok(Connections::of(connections))
}
