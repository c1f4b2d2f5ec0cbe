// What the scalar parameters of instances are bound to.

ghost use Rattle.std.specs.Prelude.{◌≡◌, ◌∷◌, IfOk, length, slice_get, slice_index, slice_index_or};
ghost use Rattle.tapa_base.specs.declared.kind.Kind.TheVariants.{U64};
ghost use Rattle.tapa_base.specs.Kinds.{bits_of};
ghost use Rattle.vlog_tree.specs.declared.tree.Atom.TheVariants.{Net as NetAtom, Literal};
ghost use Rattle.vlog_tree.specs.declared.tree.Value.TheVariants.{Plain};
ghost use Rattle.vlog_tree.specs.Labels.{scalar as scalar_lem};
ghost use Rattle.hw_build.specs.Elements.{Wire, with, with_all};
ghost use Rattle.hw_build.specs.Scope.{each};
ghost use Rattle.hw_top_lines.specs.Names.{bound_net as bound_net_lem};
ghost use Rattle.hw_top_lines.specs.Bounds.{scalar_kind as scalar_kind_lem, scalar_name as scalar_name_lem, parameter_kind as parameter_kind_lem, converted_net};
ghost use Rattle.hw_top_lines.specs.Bounds.{kind_before as kind_before_lem, conversions as conversions_lem, conversion_step, bound_nets, bound_elements};
ghost use Rattle.hw_top_lines.specs.Bounds.{bound_by as bound_by_lem, parameters};

use crate::names::{bound_net, scalar};
use hw_build::{Draft, net_value};
use hw_expressions::add_wires;
use hw_nets::literal;
use hw_operators::{Numbered, conversion, last};
use std::alloc::{AllocError, Global};
use tapa_base::{Kind, Text, narrow, number_at, plus};
use tapa_syntax::{Bound, Instance, Leaf, Program};
use vlog_tree::{Atom, Value};

fn kind_at(kinds: &[Kind], position: u32) -> Kind
    ensures { result ≡ slice_index_or kinds.now position U64 }
{
    match kinds.get(position as usize) {
        Some(kind) => *kind,
        None => Kind::U64,
    }
}

fn scalar_kind(program: &Program, x: u32) -> Kind
    ensures { result ≡ scalar_kind_lem program.now x }
{
    match program.scalars.get(x as usize) {
        Some(scalar) => scalar.kind,
        None => Kind::U64,
    }
}

fn scalar_name(alloc: Global, program: &Program, x: u32) -> Result<Text, AllocError>
    ensures { IfOk result (λ t. t ≡ scalar_name_lem program.now x) }
{
    match program.scalars.get(x as usize) {
        Some(scalar) => scalar.name.copy(alloc),
        None => Ok(Text::new(Vec::new(alloc))),
    }
}

fn parameter_kind(leaf: &Leaf, p: u32) -> Kind
    ensures { result ≡ parameter_kind_lem leaf.now p }
{
    kind_at(&leaf.vars, number_at(&leaf.scalars, p))
}

// The kind before a conversion of a chain.
fn kind_before(first: Kind, kinds: &[Kind], step: u32) -> Kind
    ensures { result ≡ kind_before_lem first kinds.now step }
{
    if step == 0 {
        first
    } else {
        kind_at(kinds, step - 1)
    }
}

// Adds a net with the value of another one as a value of another kind.
fn add_converted(
    alloc: Global,
    draft: &mut Draft,
    net: &Text,
    source: Kind,
    target: Kind,
    old: &Text,
) -> Result<(), AllocError>
    ensures { IfOk result (λ u. draft.new ≡ with_all draft.old (converted_net net.now source target old.now)) }
{
    let copy = old.copy(alloc)?;
    let atom = Atom::Net(copy);
    let at = Numbered::from_zero(net);
    let drivers = conversion(alloc, &at, source, target, &atom)?;
    let converted = last(alloc, &at, &drivers, &atom)?;
    add_wires(alloc, draft, &at, drivers)?;
    draft.wire(alloc, target.bits(), net.bytes(), Value::Plain(converted))?;
    Ok(())
}

fn add_step(
    alloc: Global,
    draft: &mut Draft,
    i: u32,
    p: u32,
    first: Kind,
    kinds: &[Kind],
    step: u32,
) -> Result<(), AllocError>
    ensures { IfOk result (λ u. draft.new ≡ with_all draft.old (conversion_step i p first kinds.now step)) }
{
    let old = bound_net(alloc, i, p, step)?;
    let next = plus(step, 1)?;
    let net = bound_net(alloc, i, p, next)?;
    let source = kind_before(first, kinds, step);
    let target = kind_at(kinds, step);
    add_converted(alloc, draft, &net, source, target, &old)?;
    Ok(())
}

fn add_steps(
    alloc: Global,
    draft: &mut Draft,
    i: u32,
    p: u32,
    first: Kind,
    kinds: &[Kind],
) -> Result<(), AllocError>
    ensures { IfOk result (λ u. draft.new ≡ with_all draft.old (each (conversion_step i p first kinds.now) (length kinds.now))) }
{
    let count = narrow(kinds.len())?;
    for step in 0..count {
        add_step(alloc, draft, i, p, first, kinds, step)?;
    }
    Ok(())
}

fn add_constant(
    alloc: Global,
    draft: &mut Draft,
    i: u32,
    p: u32,
    kind: Kind,
    n: u64,
) -> Result<(), AllocError>
    ensures { IfOk result (λ u. draft.new ≡ with draft.old (Wire (bits_of kind) (bound_net_lem i p 0) (Plain (Literal (bits_of kind) n)))) }
{
    let net = bound_net(alloc, i, p, 0)?;
    let value = Value::Plain(literal(kind.bits(), u128::from(n)));
    draft.wire(alloc, kind.bits(), net.bytes(), value)
}

fn add_scalar(
    alloc: Global,
    draft: &mut Draft,
    program: &Program,
    i: u32,
    p: u32,
    x: u32,
) -> Result<(), AllocError>
    ensures { IfOk result (λ u. draft.new ≡ with draft.old (Wire (bits_of (scalar_kind_lem program.now x)) (bound_net_lem i p 0) (Plain (NetAtom (scalar_lem (scalar_name_lem program.now x)))))) }
{
    let net = bound_net(alloc, i, p, 0)?;
    let port = scalar(alloc, &scalar_name(alloc, program, x)?)?;
    let value = net_value(alloc, port.bytes())?;
    draft.wire(alloc, scalar_kind(program, x).bits(), net.bytes(), value)
}

// The nets of a parameter that is bound to a scalar of the top task.
fn add_chain(
    alloc: Global,
    draft: &mut Draft,
    program: &Program,
    i: u32,
    p: u32,
    x: u32,
    kinds: &[Kind],
) -> Result<(), AllocError>
    ensures { IfOk result (λ u. draft.new ≡ with_all draft.old
        (Wire (bits_of (scalar_kind_lem program.now x)) (bound_net_lem i p 0) (Plain (NetAtom (scalar_lem (scalar_name_lem program.now x)))) ∷ each
        (conversion_step i p (scalar_kind_lem program.now x) kinds.now) (length kinds.now))) }
{
    add_scalar(alloc, draft, program, i, p, x)?;
    let first = scalar_kind(program, x);
    add_steps(alloc, draft, i, p, first, kinds)?;
    Ok(())
}

fn add_bound(
    alloc: Global,
    draft: &mut Draft,
    program: &Program,
    i: u32,
    p: u32,
    kind: Kind,
    bound: &Bound,
) -> Result<(), AllocError>
    ensures { IfOk result (λ u. draft.new ≡ with_all draft.old (bound_nets program.now i p kind bound.now)) }
{
    match bound {
        Bound::Number(n) => add_constant(alloc, draft, i, p, kind, *n),
        Bound::Top { scalar, kinds } => add_chain(alloc, draft, program, i, p, *scalar, kinds),
    }
}

fn add_parameter(
    alloc: Global,
    draft: &mut Draft,
    program: &Program,
    i: u32,
    x: &Instance,
    leaf: &Leaf,
    p: u32,
) -> Result<(), AllocError>
    ensures { IfOk result (λ u. draft.new ≡ with_all draft.old (bound_elements program.now i p (parameter_kind_lem leaf.now p) (slice_get x.now.scalars.items p))) }
{
    match x.scalars.get(p as usize) {
        Some(bound) => add_bound(alloc, draft, program, i, p, parameter_kind(leaf, p), bound),
        None => Ok(()),
    }
}

/// Adds the nets of the scalar parameters of an instance.
pub fn add_parameters(
    alloc: Global,
    draft: &mut Draft,
    program: &Program,
    i: u32,
    x: &Instance,
    leaf: &Leaf,
) -> Result<(), AllocError>
    ensures { IfOk result (λ u. draft.new ≡ with_all draft.old (parameters program.now i x.now leaf.now)) }
{
    let count = narrow(leaf.scalars.len())?;
    for p in 0..count {
        add_parameter(alloc, draft, program, i, x, leaf, p)?;
    }
    Ok(())
}

// How many conversions a bound has.
fn conversions(bound: &Bound) -> Result<u32, AllocError>
    ensures { IfOk result (λ n. n ≡ conversions_lem bound.now) }
{
    match bound {
        Bound::Number(_) => Ok(0),
        Bound::Top { kinds, .. } => narrow(kinds.len()),
    }
}

/// The net with the value of a scalar parameter.
pub(crate) fn bound_by(alloc: Global, i: u32, p: u32, x: &Instance) -> Result<Text, AllocError>
    ensures { IfOk result (λ t. t ≡ bound_by_lem i p (slice_get x.now.scalars.items p)) }
{
    match x.scalars.get(p as usize) {
        Some(bound) => {
            let steps = conversions(bound)?;
            bound_net(alloc, i, p, steps)
        }
        None => bound_net(alloc, i, p, 0),
    }
}
