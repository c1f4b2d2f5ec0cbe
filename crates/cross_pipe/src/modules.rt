// A channel: a FIFO, and with added latency a relay before it.

ghost use Rattle.std.specs.Prelude.{◌≡◌, ◌<◌, ◌≤◌, ◌+◌, ◌*◌, ◌∷◌, [], List, IfOk, codes};
ghost use Rattle.vlog_tree.specs.Form.{ModuleTree};
ghost use Rattle.vlog_tree.specs.Refused.{IsSound};
ghost use Rattle.hw_build.specs.Elements.{with, with_all, Instance};
ghost use Rattle.hw_channel_laws.specs.modules.Ports.{ActsAsChannel};
ghost use Rattle.hw_channel_lines.specs.Names.{fifo_name as fifo_lem, relay_name as relay_lem};
ghost use Rattle.hw_channel_lines.specs.Texts.{relay_connections as relay_ends_lem, relayed_inside, plain_tree, fifo_tree, relayed_tree, channel_ports, AreRelays, AreModules};
ghost use Rattle.hw_channel_laws.specs.modules.Rules.{OfFirst, IsOutermost, HaveNoLoop, HasNoWayThrough, JoinClocks, AreNoTasks};

use crate::ends::{fifo_connections, relay_connections};
use crate::module::{fifo, two};
use crate::names::{channel_name, fifo_name, relay_name};
use crate::relay::add_relays;
use hw_build::{Draft, net_value, text};
use std::alloc::{AllocError, Global};
use vlog_tree::{BinaryOp, Connections, Module};

/// The number of entries of the FIFO of a channel: the depth, and room for the tokens in flight and for those that ready
/// answers in flight still let in.
pub fn fifo_size(depth: u32, latency: u32) -> u32
    requires depth { depth ≤ 4096 }
    requires latency { latency ≤ 1000000 }
    ensures { result ≡ depth + 2 * latency }
{
    depth + 2 * latency
}

fn ports(alloc: Global, draft: &mut Draft, bits: u32) -> Result<(), AllocError>
    ensures { IfOk result (λ u. draft.new ≡ with_all draft.old (channel_ports bits [])) }
{
    draft.input(alloc, bits, b"din")?;
    draft.input(alloc, 1, b"wr")?;
    draft.input(alloc, 1, b"take")?;
    draft.link(alloc, 1, b"ready")?;
    draft.output(alloc, 1, b"rdy", net_value(alloc, b"ready")?)?;
    draft.outlet(alloc, 1, b"has")?;
    draft.outlet(alloc, bits, b"dout")?;
    draft.wire(
        alloc,
        1,
        b"put",
        two(alloc, b"wr", BinaryOp::And, b"ready")?,
    )
}

fn finished_plain(draft: Draft, bits: u32, depth: u32) -> Module
    requires is { draft ≡ plain_tree bits depth }
    requires bits { 2 ≤ bits }
    ensures { result ≡ plain_tree bits depth }
{
    draft.module()
}

// The instance of a FIFO.
fn fifo_part(
    alloc: Global,
    draft: &mut Draft,
    bits: u32,
    depth: u32,
    places: u32,
    ends: Connections,
) -> Result<(), AllocError>
    ensures { IfOk result (λ u. draft.new ≡ with draft.old (Instance (fifo_lem bits depth places) (codes "fifo") ends)) }
{
    draft.instance(
        fifo_name(alloc, bits, depth, places)?,
        text(alloc, b"fifo")?,
        ends,
    )
}

// The instance of a relay.
fn relay_part(
    alloc: Global,
    draft: &mut Draft,
    bits: u32,
    steps: u32,
    ends: Connections,
) -> Result<(), AllocError>
    ensures { IfOk result (λ u. draft.new ≡ with draft.old (Instance (relay_lem bits steps) (codes "relay") ends)) }
{
    draft.instance(
        relay_name(alloc, bits, steps)?,
        text(alloc, b"relay")?,
        ends,
    )
}

// The connections of the relay of a channel.
fn joined_relay(alloc: Global) -> Result<Connections, AllocError>
    ensures { IfOk result (λ c. c ≡ relay_ends_lem (codes "put") (codes "din") (codes "rdy_early") (codes "put_late") (codes "din_late") (codes "ready")) }
{
    relay_connections(
        alloc,
        b"put",
        b"din",
        b"rdy_early",
        b"put_late",
        b"din_late",
        b"ready",
    )
}

// A FIFO that is asked before it is written.
fn plain(alloc: Global, bits: u32, depth: u32) -> Result<Module, AllocError>
    requires { 2 ≤ bits }
    ensures { IfOk result (λ m. m ≡ plain_tree bits depth) }
{
    let mut draft = Draft::new(alloc, channel_name(alloc, bits, depth, 0)?)?;
    ports(alloc, &mut draft, bits)?;
    fifo_part(
        alloc,
        &mut draft,
        bits,
        depth,
        depth,
        fifo_connections(alloc, b"put", b"din", b"ready")?,
    )?;
    Ok(finished_plain(draft, bits, depth))
}

fn instances(
    alloc: Global,
    draft: &mut Draft,
    bits: u32,
    depth: u32,
    latency: u32,
) -> Result<(), AllocError>
    requires depth { depth ≤ 4096 }
    requires latency { latency ≤ 1000000 }
    ensures { IfOk result (λ u. draft.new ≡ with_all draft.old (relayed_inside bits (relay_lem bits latency) (fifo_lem bits depth (depth + 2 * latency)))) }
{
    draft.link(alloc, 1, b"put_late")?;
    draft.link(alloc, bits, b"din_late")?;
    draft.link(alloc, 1, b"rdy_early")?;
    relay_part(alloc, draft, bits, latency, joined_relay(alloc)?)?;
    let places = fifo_size(depth, latency);
    fifo_part(
        alloc,
        draft,
        bits,
        depth,
        places,
        fifo_connections(alloc, b"put_late", b"din_late", b"rdy_early")?,
    )
}

fn finished_relayed(draft: Draft, bits: u32, depth: u32, latency: u32) -> Module
    requires is { draft ≡ relayed_tree bits depth latency }
    requires bits { 2 ≤ bits }
    requires depth { depth ≤ 4096 }
    requires latency { latency ≤ 1000000 }
    ensures { result ≡ relayed_tree bits depth latency }
{
    draft.module()
}

// A relay before a FIFO that takes what comes.
fn relayed(alloc: Global, bits: u32, depth: u32, latency: u32) -> Result<Module, AllocError>
    requires bits { 2 ≤ bits }
    requires depth { depth ≤ 4096 }
    requires latency { latency ≤ 1000000 }
    ensures { IfOk result (λ m. m ≡ relayed_tree bits depth latency) }
{
    let mut draft = Draft::new(alloc, channel_name(alloc, bits, depth, latency)?)?;
    ports(alloc, &mut draft, bits)?;
    instances(alloc, &mut draft, bits, depth, latency)?;
    Ok(finished_relayed(draft, bits, depth, latency))
}

fn plain_modules(alloc: Global, bits: u32, depth: u32) -> Result<Vec<Module>, AllocError>
    requires bits { 2 ≤ bits }
    requires depth { 1 ≤ depth }
    ensures { IfOk result (λ ms. ms.items ≡ plain_tree bits depth ∷ fifo_tree bits depth depth ∷ []) }
{
    let mut modules = Vec::new(alloc);
    modules.push(plain(alloc, bits, depth)?)?;
    modules.push(fifo(alloc, bits, depth, depth)?)?;
    Ok(modules)
}

// The outermost module and the FIFO of a channel with added latency.
fn first_modules(
    alloc: Global,
    bits: u32,
    depth: u32,
    latency: u32,
) -> Result<Vec<Module>, AllocError>
    requires bits { 2 ≤ bits }
    requires some_depth { 1 ≤ depth }
    requires most_depth { depth ≤ 4096 }
    requires latency { latency ≤ 1000000 }
    ensures { IfOk result (λ ms. ms.items ≡ relayed_tree bits depth latency ∷ fifo_tree bits depth (depth + 2 * latency) ∷ []) }
{
    let mut modules = Vec::new(alloc);
    modules.push(relayed(alloc, bits, depth, latency)?)?;
    modules.push(fifo(alloc, bits, depth, fifo_size(depth, latency))?)?;
    Ok(modules)
}

fn relayed_modules(
    alloc: Global,
    bits: u32,
    depth: u32,
    latency: u32,
) -> Result<Vec<Module>, AllocError>
    requires bits { 2 ≤ bits }
    requires some_depth { 1 ≤ depth }
    requires most_depth { depth ≤ 4096 }
    requires some_latency { 0 < latency }
    requires most_latency { latency ≤ 1000000 }
    ensures { IfOk result (λ ms. (relays : List ModuleTree) × (ms.items ≡ relayed_tree bits depth latency ∷ fifo_tree bits depth (depth + 2 * latency) ∷ relays)
        × AreRelays bits latency relays) }
{
    let mut modules = first_modules(alloc, bits, depth, latency)?;
    add_relays(alloc, &mut modules, bits, latency)?;
    Ok(modules)
}

fn modules_of(alloc: Global, bits: u32, depth: u32, latency: u32) -> Result<Vec<Module>, AllocError>
    requires bits { 2 ≤ bits }
    requires some_depth { 1 ≤ depth }
    requires most_depth { depth ≤ 4096 }
    requires latency { latency ≤ 1000000 }
    ensures { IfOk result (λ ms. AreModules bits depth latency ms.items) }
{
    if latency == 0 {
        return plain_modules(alloc, bits, depth);
    }
    relayed_modules(alloc, bits, depth, latency)
}

/// The modules of a channel whose tokens have `bits` bits, its outermost module first: a stream of a depth whose tokens
/// and answers both come `latency` cycles later.
pub fn channel(
    alloc: Global,
    bits: u32,
    depth: u32,
    latency: u32,
) -> Result<Vec<Module>, AllocError>
    requires least_bits { 2 ≤ bits }
    requires most_bits { bits ≤ 65 }
    requires some_depth { 1 ≤ depth }
    requires most_depth { depth ≤ 4096 }
    requires latency { latency ≤ 500000 }
    ensures text { IfOk result (λ ms. AreModules bits depth latency ms.items) }
    ensures outermost { IfOk result (λ ms. OfFirst (IsOutermost bits depth latency) ms.items) }
    ensures acts { IfOk result (λ ms. ActsAsChannel depth latency ms.items) }
    ensures sound { IfOk result (λ ms. IsSound ms.items) }
    ensures loopless { IfOk result (λ ms. HaveNoLoop ms.items) }
    ensures registered { IfOk result (λ ms. OfFirst (HasNoWayThrough ms.items) ms.items) }
    ensures clocks { IfOk result (λ ms. JoinClocks ms.items) }
    ensures names { IfOk result (λ ms. AreNoTasks ms.items) }
{
    modules_of(alloc, bits, depth, latency)
}
