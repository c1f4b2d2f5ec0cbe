// The scalars, memories and streams of a top module.

ghost use Rattle.std.specs.Prelude.{◌≡◌, ◌++◌, ◌∷◌, [], IfOk, OnOk};
ghost use Rattle.std.specs.List.{flat_map};
ghost use Rattle.std.specs.Str.{IsAscii};
ghost use Rattle.vlog_tree.specs.Table.{bits_of, declared};
ghost use Rattle.vlog_tree.specs.Environment.{scalar_label, memory_label, shape_of, is_bit_wire as is_bit_wire_lem, is_stream as is_stream_lem, stream_label, item_stream, streams_of};
ghost use Rattle.vlog_tree.specs.Labels.{scalar_of as scalar_lem, ack_of as ack_lem, din_of as din_lem};

use std::alloc::{AllocError, Global};
use tapa_base::{Port, Shape, Text};
use vlog_scope::Scope;
use vlog_tree::{
    Item, Module, NetKind, PortDecl, ack_of, din_of, rdata_name, rdy_name, scalar_of, wr_name,
};

fn push(alloc: Global, out: &mut Vec<Port>, label: &[u8], bits: u32) -> Result<(), AllocError>
    requires { IsAscii label.now }
    ensures { OnOk result (out.new.items ≡ out.old.items ++ record { name = label.now; bits = bits } ∷ []) }
{
    let name = Text::new(label.to_vec(alloc)?);
    out.push(Port { name, bits })?;
    Ok(())
}

fn push_scalar(alloc: Global, out: &mut Vec<Port>, port: &PortDecl) -> Result<(), AllocError>
    ensures { OnOk result (out.new.items ≡ out.old.items ++ scalar_label port.now (scalar_lem port.now.name)) }
{
    match scalar_of(&port.name) {
        Some(label) => push(alloc, out, label, port.width),
        None => Ok(()),
    }
}

fn push_scalars(alloc: Global, out: &mut Vec<Port>, ports: &[PortDecl]) -> Result<(), AllocError>
    ensures { OnOk result (out.new.items ≡ out.old.items ++ flat_map (λ p. scalar_label p (scalar_lem p.name)) ports.now) }
{
    for port in ports {
        push_scalar(alloc, out, port)?;
    }
    Ok(())
}

fn push_memory(
    alloc: Global,
    out: &mut Vec<Port>,
    scope: &Scope,
    port: &PortDecl,
) -> Result<(), AllocError>
    ensures { OnOk result (out.new.items ≡ out.old.items ++ memory_label scope.now (ack_lem port.now.name)) }
{
    match ack_of(&port.name) {
        Some(label) => {
            let rdata = rdata_name(alloc, label)?;
            push(alloc, out, label, scope.bits(&rdata))
        }
        None => Ok(()),
    }
}

fn push_memories(
    alloc: Global,
    out: &mut Vec<Port>,
    scope: &Scope,
    ports: &[PortDecl],
) -> Result<(), AllocError>
    ensures { OnOk result (out.new.items ≡ out.old.items ++ flat_map (λ p. memory_label scope.now (ack_lem p.name)) ports.now) }
{
    for port in ports {
        push_memory(alloc, out, scope, port)?;
    }
    Ok(())
}

/// The scalars and the memories of a top module, which declares the names of the scope.
pub(crate) fn top_shape(alloc: Global, scope: &Scope, top: &Module) -> Result<Shape, AllocError>
    requires { scope.now ≡ declared top.now }
    ensures scalars { IfOk result (λ s. s.scalars.items ≡ (shape_of top.now).scalars) }
    ensures memories { IfOk result (λ s. s.memories.items ≡ (shape_of top.now).memories) }
{
    let mut scalars = Vec::new(alloc);
    push_scalars(alloc, &mut scalars, top.ports())?;
    let mut memories = Vec::new(alloc);
    push_memories(alloc, &mut memories, scope, top.ports())?;
    Ok(Shape { scalars, memories })
}

fn is_bit_wire(scope: &Scope, name: &[u8]) -> bool
    ensures { result ≡ is_bit_wire_lem scope.now name.now }
{
    matches!(scope.net_kind(name), NetKind::WireNet) && scope.bits(name) == 1
}

#[tactic(auto, unfolding(vlog_tree::specs::Environment::is_stream))]
fn is_stream(scope: &Scope, bits: u32, wr: &[u8], rdy: &[u8]) -> bool
    ensures { result ≡ is_stream_lem scope.now bits wr.now rdy.now }
{
    2 <= bits && bits <= 65 && is_bit_wire(scope, wr) && is_bit_wire(scope, rdy)
}

fn push_stream(
    alloc: Global,
    out: &mut Vec<Port>,
    scope: &Scope,
    bits: u32,
    x: &Text,
) -> Result<(), AllocError>
    ensures { OnOk result (out.new.items ≡ out.old.items ++ stream_label scope.now bits (din_lem x.now)) }
{
    match din_of(x) {
        Some(label) => {
            let wr = wr_name(alloc, label)?;
            let rdy = rdy_name(alloc, label)?;
            if is_stream(scope, bits, &wr, &rdy) {
                push(alloc, out, label, bits)
            } else {
                Ok(())
            }
        }
        None => Ok(()),
    }
}

fn push_item(
    alloc: Global,
    out: &mut Vec<Port>,
    scope: &Scope,
    item: &Item,
) -> Result<(), AllocError>
    ensures { OnOk result (out.new.items ≡ out.old.items ++ item_stream scope.now item.now) }
{
    match item {
        Item::Wire { width, name } => push_stream(alloc, out, scope, *width, name),
        Item::Reg { .. } => Ok(()),
        Item::Memory { .. } => Ok(()),
        Item::Assign { .. } => Ok(()),
        Item::Always(_) => Ok(()),
        Item::Instance { .. } => Ok(()),
    }
}

fn push_items(
    alloc: Global,
    out: &mut Vec<Port>,
    scope: &Scope,
    items: &[Item],
) -> Result<(), AllocError>
    ensures { OnOk result (out.new.items ≡ out.old.items ++ flat_map (item_stream scope.now) items.now) }
{
    for item in items {
        push_item(alloc, out, scope, item)?;
    }
    Ok(())
}

/// The streams of a top module, which declares the names of the scope, with the bits of their din.
pub(crate) fn top_streams(
    alloc: Global,
    scope: &Scope,
    top: &Module,
) -> Result<Vec<Port>, AllocError>
    requires { scope.now ≡ declared top.now }
    ensures { IfOk result (λ v. v.items ≡ streams_of top.now) }
{
    let mut out = Vec::new(alloc);
    push_items(alloc, &mut out, scope, top.items())?;
    Ok(out)
}
