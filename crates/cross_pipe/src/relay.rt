// Relays: registers forward for tokens and back for readiness.

ghost use Rattle.std.specs.Prelude.{◌≡◌, ◌<◌, ◌≤◌, ◌∷◌, [], ◌++◌, IfOk, codes, List};
ghost use Rattle.std.specs.Str.{IsAscii};
ghost use Rattle.vlog_tree.specs.Form.{ModuleTree};
ghost use Rattle.vlog_tree.specs.declared.tree.Atom.TheVariants.{Net, Literal};
ghost use Rattle.hw_build.specs.Elements.{with, with_all, Input, Output, Outlet, InstanceWire, Register, Block, Instance, reset_or};
ghost use Rattle.hw_channel_lines.specs.Names.{relay_name as relay_name_lem};
ghost use Rattle.hw_channel_lines.specs.Texts.{set_where, step_tree, even_tree, odd_tree, row_tree, row_ports as row_ports_lem, of_net, first_part as first_lem};
ghost use Rattle.hw_channel_lines.specs.Texts.{second_of_two as second_of_two_lem, second_of_three as second_of_three_lem, third_part as third_lem, AreRelays};

use crate::ends::relay_connections;
use crate::names::relay_name;
use hw_build::{Draft, net, net_value, number, reset_steps, text};
use std::alloc::{AllocError, Global};
use vlog_tree::{Connections, Module, Step};

fn inputs(alloc: Global, draft: &mut Draft, bits: u32) -> Result<(), AllocError>
    ensures { IfOk result (λ u. draft.new ≡ with_all draft.old (Input 1 (codes "put") ∷ Input bits (codes "din") ∷ Input 1 (codes "rdy_early") ∷ [])) }
{
    draft.input(alloc, 1, b"put")?;
    draft.input(alloc, bits, b"din")?;
    draft.input(alloc, 1, b"rdy_early")
}

fn registers(alloc: Global, draft: &mut Draft, bits: u32) -> Result<(), AllocError>
    ensures { IfOk result (λ u. draft.new ≡ with_all draft.old (Register 1 (codes "full") ∷ Register bits (codes "token") ∷ Register 1 (codes "room") ∷ [])) }
{
    draft.register(alloc, 1, b"full")?;
    draft.register(alloc, bits, b"token")?;
    draft.register(alloc, 1, b"room")
}

fn outputs(alloc: Global, draft: &mut Draft, bits: u32) -> Result<(), AllocError>
    ensures { IfOk result (λ u. draft.new ≡ with_all draft.old
        (Output 1 (codes "put_late") (of_net (codes "full")) ∷ Output bits (codes "din_late") (of_net (codes "token")) ∷ Output 1 (codes "rdy")
        (of_net (codes "room")) ∷ [])) }
{
    draft.output(alloc, 1, b"put_late", net_value(alloc, b"full")?)?;
    draft.output(alloc, bits, b"din_late", net_value(alloc, b"token")?)?;
    draft.output(alloc, 1, b"rdy", net_value(alloc, b"room")?)
}

// A register of one bit that begins with 0 and follows a net.
fn follower(
    alloc: Global,
    draft: &mut Draft,
    register: &[u8],
    next: &[u8],
) -> Result<(), AllocError>
    requires register { IsAscii register.now }
    requires next { IsAscii next.now }
    ensures { IfOk result (λ u. draft.new ≡ with_all draft.old (Block (reset_or register.now (Literal 1 0) (Net next.now)) ∷ [])) }
{
    let next = net(alloc, next)?;
    draft.block(reset_steps(alloc, register, number(1, 0), next)?)
}

// The steps of a register that takes a net's number where `set` is 1, in reset too.
fn set_steps(
    alloc: Global,
    register: &[u8],
    set: &[u8],
    next: &[u8],
) -> Result<Vec<Step>, AllocError>
    requires register { IsAscii register.now }
    requires set { IsAscii set.now }
    requires next { IsAscii next.now }
    ensures { IfOk result (λ steps. steps.items ≡ set_where register.now set.now (Net next.now)) }
{
    let mut steps = Vec::new(alloc);
    steps.push(Step::If(text(alloc, set)?))?;
    steps.push(Step::NonblockingAssign {
        register: text(alloc, register)?,
        value: net(alloc, next)?,
    })?;
    steps.push(Step::End)?;
    Ok(steps)
}

// The register of the token, which is taken where one is put in.
fn token_register(alloc: Global, draft: &mut Draft) -> Result<(), AllocError>
    ensures { IfOk result (λ u. draft.new ≡ with_all draft.old (Block (set_where (codes "token") (codes "put") (Net (codes "din"))) ∷ [])) }
{
    draft.block(set_steps(alloc, b"token", b"put", b"din")?)
}

fn blocks(alloc: Global, draft: &mut Draft) -> Result<(), AllocError>
    ensures { IfOk result (λ u. draft.new ≡ with_all draft.old
        (Block (reset_or (codes "full") (Literal 1 0) (Net (codes "put"))) ∷ Block (set_where (codes "token") (codes "put") (Net (codes "din"))) ∷ Block
        (reset_or (codes "room") (Literal 1 0) (Net (codes "rdy_early"))) ∷ [])) }
{
    follower(alloc, draft, b"full", b"put")?;
    token_register(alloc, draft)?;
    follower(alloc, draft, b"room", b"rdy_early")
}

fn finished_step(draft: Draft, bits: u32) -> Module
    requires is { draft ≡ step_tree bits }
    requires bits { 2 ≤ bits }
    ensures { result ≡ step_tree bits }
{
    draft.module()
}

// One step.
fn step(alloc: Global, bits: u32) -> Result<Module, AllocError>
    requires { 2 ≤ bits }
    ensures { IfOk result (λ m. m ≡ step_tree bits) }
{
    let mut draft = Draft::new(alloc, relay_name(alloc, bits, 1)?)?;
    inputs(alloc, &mut draft, bits)?;
    registers(alloc, &mut draft, bits)?;
    outputs(alloc, &mut draft, bits)?;
    blocks(alloc, &mut draft)?;
    Ok(finished_step(draft, bits))
}

fn links(
    alloc: Global,
    draft: &mut Draft,
    bits: u32,
    put: &[u8],
    din: &[u8],
    rdy: &[u8],
) -> Result<(), AllocError>
    requires put { IsAscii put.now }
    requires din { IsAscii din.now }
    requires rdy { IsAscii rdy.now }
    ensures { IfOk result (λ u. draft.new ≡ with_all draft.old (InstanceWire 1 put.now ∷ InstanceWire bits din.now ∷ InstanceWire 1 rdy.now ∷ [])) }
{
    draft.link(alloc, 1, put)?;
    draft.link(alloc, bits, din)?;
    draft.link(alloc, 1, rdy)
}

// The ports of a relay that is made of others, and the wires after its first part.
fn row_ports(alloc: Global, draft: &mut Draft, bits: u32) -> Result<(), AllocError>
    ensures { IfOk result (λ u. draft.new ≡ with_all draft.old (row_ports_lem bits [])) }
{
    inputs(alloc, draft, bits)?;
    draft.outlet(alloc, 1, b"put_late")?;
    draft.outlet(alloc, bits, b"din_late")?;
    draft.outlet(alloc, 1, b"rdy")?;
    links(alloc, draft, bits, b"put_1", b"din_1", b"rdy_1")
}

// A part of a relay: its instance's name, its number of steps and its connections.
fn part(
    alloc: Global,
    draft: &mut Draft,
    bits: u32,
    steps: u32,
    name: &[u8],
    ends: Connections,
) -> Result<(), AllocError>
    requires { IsAscii name.now }
    ensures { IfOk result (λ u. draft.new ≡ with draft.old (Instance (relay_name_lem bits steps) name.now ends)) }
{
    draft.instance(relay_name(alloc, bits, steps)?, text(alloc, name)?, ends)
}

fn first_part(alloc: Global) -> Result<Connections, AllocError>
    ensures { IfOk result (λ c. c ≡ first_lem) }
{
    relay_connections(alloc, b"put", b"din", b"rdy_1", b"put_1", b"din_1", b"rdy")
}

fn second_of_two(alloc: Global) -> Result<Connections, AllocError>
    ensures { IfOk result (λ c. c ≡ second_of_two_lem) }
{
    relay_connections(
        alloc,
        b"put_1",
        b"din_1",
        b"rdy_early",
        b"put_late",
        b"din_late",
        b"rdy_1",
    )
}

fn second_of_three(alloc: Global) -> Result<Connections, AllocError>
    ensures { IfOk result (λ c. c ≡ second_of_three_lem) }
{
    relay_connections(
        alloc, b"put_1", b"din_1", b"rdy_2", b"put_2", b"din_2", b"rdy_1",
    )
}

fn third_part(alloc: Global) -> Result<Connections, AllocError>
    ensures { IfOk result (λ c. c ≡ third_lem) }
{
    relay_connections(
        alloc,
        b"put_2",
        b"din_2",
        b"rdy_early",
        b"put_late",
        b"din_late",
        b"rdy_2",
    )
}

fn finished_even(draft: Draft, bits: u32, steps: u32, half: u32) -> Module
    requires is { draft ≡ even_tree bits steps half }
    requires bits { 2 ≤ bits }
    ensures { result ≡ even_tree bits steps half }
{
    draft.module()
}

// Two halves in a row.
fn even(alloc: Global, bits: u32, steps: u32, half: u32) -> Result<Module, AllocError>
    requires { 2 ≤ bits }
    ensures { IfOk result (λ m. m ≡ even_tree bits steps half) }
{
    let mut draft = Draft::new(alloc, relay_name(alloc, bits, steps)?)?;
    row_ports(alloc, &mut draft, bits)?;
    part(alloc, &mut draft, bits, half, b"part_0", first_part(alloc)?)?;
    part(
        alloc,
        &mut draft,
        bits,
        half,
        b"part_1",
        second_of_two(alloc)?,
    )?;
    Ok(finished_even(draft, bits, steps, half))
}

fn finished_odd(draft: Draft, bits: u32, steps: u32, half: u32) -> Module
    requires is { draft ≡ odd_tree bits steps half }
    requires bits { 2 ≤ bits }
    ensures { result ≡ odd_tree bits steps half }
{
    draft.module()
}

// Two halves and a step in a row.
fn odd(alloc: Global, bits: u32, steps: u32, half: u32) -> Result<Module, AllocError>
    requires { 2 ≤ bits }
    ensures { IfOk result (λ m. m ≡ odd_tree bits steps half) }
{
    let mut draft = Draft::new(alloc, relay_name(alloc, bits, steps)?)?;
    row_ports(alloc, &mut draft, bits)?;
    links(alloc, &mut draft, bits, b"put_2", b"din_2", b"rdy_2")?;
    part(alloc, &mut draft, bits, half, b"part_0", first_part(alloc)?)?;
    part(
        alloc,
        &mut draft,
        bits,
        half,
        b"part_1",
        second_of_three(alloc)?,
    )?;
    part(alloc, &mut draft, bits, 1, b"part_2", third_part(alloc)?)?;
    Ok(finished_odd(draft, bits, steps, half))
}

fn row(alloc: Global, bits: u32, steps: u32) -> Result<Module, AllocError>
    requires { 2 ≤ bits }
    ensures { IfOk result (λ m. m ≡ row_tree bits steps) }
{
    if steps % 2 == 0 {
        even(alloc, bits, steps, steps / 2)
    } else {
        odd(alloc, bits, steps, steps / 2)
    }
}

/// Adds a relay of `steps` steps, and those that it is made of.
pub fn add_relays(
    alloc: Global,
    modules: &mut Vec<Module>,
    bits: u32,
    steps: u32,
) -> Result<(), AllocError>
    requires bits { 2 ≤ bits }
    requires steps { 0 < steps }
    ensures { IfOk result (λ u. (xs : List ModuleTree) × (modules.new.items ≡ modules.old.items ++ xs) × AreRelays bits steps xs) }
{
    if steps == 1 {
        modules.push(step(alloc, bits)?)?;
        return Ok(());
    }
    modules.push(row(alloc, bits, steps)?)?;
    add_relays(alloc, modules, bits, steps / 2)
}
