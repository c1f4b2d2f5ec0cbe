// The top module and its ports.

ghost use Rattle.std.specs.Prelude.{◌≡◌, ◌∷◌, ◌++◌, ◌&&◌, ◌||◌, ◌==◌, [], ℕ, List, Bool, true, map, bytes_eq, is_some, nat_le, IfOk, OnOk};
ghost use Rattle.std.specs.Option.{option_copied, option_map_or};
ghost use Rattle.std.specs.List.{flat_map};
ghost use Rattle.vlog_tree.specs.declared.tree.PortDecl.{PortDecl as PortTree};
ghost use Rattle.vlog_scope.specs.NameTable.{value_in};
ghost use Rattle.vlog_tree.specs.Table.{first_violation, NameUse, clk, is_clk, port_declared, declared};
ghost use Rattle.vlog_tree.specs.Labels.{rst as rst_lem, done as done_lem, m_rdata, m_wdata};
ghost use Rattle.vlog_tree.specs.V6.{has_port as has_port_lem, has_all_five as has_all_five_lem, bits_before, agrees as agrees_lem, is_in as is_in_lem};
ghost use Rattle.vlog_tree.specs.V6.{is_out as is_out_lem, is_memory_port as is_memory_port_lem, is_expected as is_expected_lem, fixed_fits as fixed_fits_lem};
ghost use Rattle.vlog_tree.specs.V6.{scalar_fits as scalar_fits_lem, ack_fits as ack_fits_lem, rdata_fits as rdata_fits_lem, addr_fits as addr_fits_lem};
ghost use Rattle.vlog_tree.specs.V6.{wdata_fits as wdata_fits_lem, we_fits as we_fits_lem, port_fits as port_fits_lem, top_ports};

use std::alloc::{AllocError, Global};
use tapa_base::Text;
use vlog_rules::{is_clock, is_read, named_if};
use vlog_scope::{NameBits, Scope, bits_of_name, set_bits};
use vlog_tree::{
    PortDecl, ack_name, ack_of, addr_name, addr_of, rdata_name, rdata_of, scalar_of, wdata_name,
    wdata_of, we_name, we_of,
};

#[tactic(auto, unfolding(vlog_tree::specs::Labels::rst))]
fn is_reset(name: &Text) -> bool
    ensures { result ≡ bytes_eq name.now rst_lem }
{
    name.bytes() == b"rst".as_slice()
}

#[tactic(auto, unfolding(vlog_tree::specs::Labels::done))]
fn is_done(name: &Text) -> bool
    ensures { result ≡ bytes_eq name.now done_lem }
{
    name.bytes() == b"done".as_slice()
}

pub(crate) fn has_port(ports: &Scope, name: &[u8]) -> bool
    ensures { result ≡ has_port_lem ports.now name.now }
{
    is_read(ports.net_kind(name))
}

// Whether the five ports of a memory are there.
#[tactic(auto, unfolding(vlog_tree::specs::V6::has_all_five))]
fn has_all_five(alloc: Global, ports: &Scope, label: &[u8]) -> Result<bool, AllocError>
    ensures { IfOk result (λ b. b ≡ has_all_five_lem ports.now label.now) }
{
    let ack = ack_name(alloc, label)?;
    let rdata = rdata_name(alloc, label)?;
    let addr = addr_name(alloc, label)?;
    let wdata = wdata_name(alloc, label)?;
    let we = we_name(alloc, label)?;
    Ok(
        has_port(ports, &ack)
            && has_port(ports, &rdata)
            && has_port(ports, &addr)
            && has_port(ports, &wdata)
            && has_port(ports, &we),
    )
}

// Whether no earlier port of this name has other bits.
fn agrees(before: &NameBits, name: &[u8], bits: u32) -> bool
    ensures { (ports : List PortTree) → ((x : List ℕ) → value_in before.now x ≡ bits_before ports x) → result ≡ agrees_lem ports name.now bits }
{
    match bits_of_name(before, name) {
        Some(b) => b == bits,
        None => true,
    }
}

fn is_in(port: &PortDecl, bits: u32) -> bool
    ensures { result ≡ is_in_lem port.now bits }
{
    port.is_input() && port.width == bits
}

fn is_out(port: &PortDecl, bits: u32) -> bool
    ensures { result ≡ is_out_lem port.now bits }
{
    !port.is_input() && port.width == bits
}

#[tactic(auto, unfolding(vlog_tree::specs::V6::is_memory_port))]
fn is_memory_port(x: &Text) -> bool
    ensures { result ≡ is_memory_port_lem x.now }
{
    ack_of(x).is_some()
        || rdata_of(x).is_some()
        || addr_of(x).is_some()
        || wdata_of(x).is_some()
        || we_of(x).is_some()
}

#[tactic(auto, unfolding(vlog_tree::specs::V6::is_expected))]
fn is_expected(x: &Text) -> bool
    ensures { result ≡ is_expected_lem x.now }
{
    is_clock(x) || is_reset(x) || is_done(x) || scalar_of(x).is_some() || is_memory_port(x)
}

#[tactic(auto, unfolding(vlog_tree::specs::V6::fixed_fits))]
fn fixed_fits(port: &PortDecl) -> bool
    ensures { result ≡ fixed_fits_lem port.now }
{
    if is_clock(&port.name) || is_reset(&port.name) {
        is_in(port, 1) && (!is_done(&port.name) || is_out(port, 1))
    } else {
        !is_done(&port.name) || is_out(port, 1)
    }
}

#[tactic(auto, unfolding(vlog_tree::specs::V6::scalar_fits))]
fn scalar_fits(port: &PortDecl) -> bool
    ensures { result ≡ scalar_fits_lem port.now }
{
    scalar_of(&port.name).is_none() || (port.is_input() && port.width <= 64)
}

#[tactic(auto, unfolding(vlog_tree::specs::V6::ack_fits))]
fn ack_fits(alloc: Global, ports: &Scope, port: &PortDecl) -> Result<bool, AllocError>
    ensures { IfOk result (λ b. b ≡ ack_fits_lem ports.now port.now) }
{
    match ack_of(&port.name) {
        Some(x) => Ok(has_all_five(alloc, ports, x)? && is_in(port, 1)),
        None => Ok(true),
    }
}

#[tactic(auto, unfolding(vlog_tree::specs::V6::addr_fits))]
fn addr_fits(alloc: Global, ports: &Scope, port: &PortDecl) -> Result<bool, AllocError>
    ensures { IfOk result (λ b. b ≡ addr_fits_lem ports.now port.now) }
{
    match addr_of(&port.name) {
        Some(x) => Ok(has_all_five(alloc, ports, x)? && is_out(port, 64)),
        None => Ok(true),
    }
}

#[tactic(auto, unfolding(vlog_tree::specs::V6::we_fits))]
fn we_fits(alloc: Global, ports: &Scope, port: &PortDecl) -> Result<bool, AllocError>
    ensures { IfOk result (λ b. b ≡ we_fits_lem ports.now port.now) }
{
    match we_of(&port.name) {
        Some(x) => Ok(has_all_five(alloc, ports, x)? && is_out(port, 1)),
        None => Ok(true),
    }
}

#[tactic(auto, unfolding(vlog_tree::specs::V6::rdata_fits))]
fn rdata_fits(
    alloc: Global,
    ports: &Scope,
    before: &NameBits,
    port: &PortDecl,
) -> Result<bool, AllocError>
    ensures { (earlier : List PortTree) → ((x : List ℕ) → value_in before.now x ≡ bits_before earlier x) → IfOk result (λ b. b ≡ rdata_fits_lem ports.now earlier port.now) }
{
    match rdata_of(&port.name) {
        Some(x) => {
            let other = wdata_name(alloc, x)?;
            let five = has_all_five(alloc, ports, x)?;
            Ok(port.is_input() && port.width <= 64 && five && agrees(before, &other, port.width))
        }
        None => Ok(true),
    }
}

#[tactic(auto, unfolding(vlog_tree::specs::V6::wdata_fits))]
fn wdata_fits(
    alloc: Global,
    ports: &Scope,
    before: &NameBits,
    port: &PortDecl,
) -> Result<bool, AllocError>
    ensures { (earlier : List PortTree) → ((x : List ℕ) → value_in before.now x ≡ bits_before earlier x) → IfOk result (λ b. b ≡ wdata_fits_lem ports.now earlier port.now) }
{
    match wdata_of(&port.name) {
        Some(x) => {
            let other = rdata_name(alloc, x)?;
            let five = has_all_five(alloc, ports, x)?;
            Ok(!port.is_input() && port.width <= 64 && five && agrees(before, &other, port.width))
        }
        None => Ok(true),
    }
}

#[tactic(auto, unfolding(vlog_tree::specs::V6::port_fits))]
fn port_fits(
    alloc: Global,
    ports: &Scope,
    before: &NameBits,
    port: &PortDecl,
) -> Result<bool, AllocError>
    ensures { (earlier : List PortTree) → ((x : List ℕ) → value_in before.now x ≡ bits_before earlier x) → IfOk result (λ b. b ≡ port_fits_lem ports.now earlier port.now) }
{
    let ack = ack_fits(alloc, ports, port)?;
    let rdata = rdata_fits(alloc, ports, before, port)?;
    let addr = addr_fits(alloc, ports, port)?;
    let wdata = wdata_fits(alloc, ports, before, port)?;
    let we = we_fits(alloc, ports, port)?;
    let fixed = is_expected(&port.name) && fixed_fits(port) && scalar_fits(port);
    Ok(fixed && ack && rdata && addr && wdata && we)
}

/// The first port of a top module that doesn't fit.
pub(crate) fn first_misfit_port<'a>(
    alloc: Global,
    scope: &Scope,
    ports: &'a [PortDecl],
) -> Result<Option<&'a Text>, AllocError>
    ensures { IfOk result (λ o. option_copied o ≡ first_violation (top_ports scope.now [] ports.now)) }
{
    let mut before = NameBits::new(alloc);
    for p in ports {
        if !port_fits(alloc, scope, &before, p)? {
            return Ok(Some(&p.name));
        }
        set_bits(alloc, &mut before, p.name.bytes(), p.width)?;
    }
    Ok(None)
}
