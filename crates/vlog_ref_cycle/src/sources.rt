// What gives a net its number in a cycle.

ghost use Rattle.std.specs.Prelude.{◌≡◌, ◌∷◌, [], IfOk};
ghost use Rattle.std.specs.Option.{option_map};
ghost use Rattle.vlog_tree.specs.Table.{declared};
ghost use Rattle.vlog_ref_cycle.specs.Sources.{source_tree, given_number, same_number, driver_source, line_source, assigned as assigned_lem, output_source};
ghost use Rattle.vlog_ref_cycle.specs.Sources.{output_of as output_of_lem, outer_source, source_of as source_of_lem};

use crate::inputs::input_source;
use crate::lines::{are_read, assigned, has_cells, joined_to, output_of, value_reads};
use crate::places::{copy_path, held_at, module_at, path_inside};
use std::alloc::{AllocError, Global};
use tapa_base::Text;
use vlog_tree::{Module, Value};
use vlog_values::{Circuit, Held, MemoryCells, Moment, NetNumber, Scope, find_net, is_read};

/// How a number comes from those of some nets.
#[derive(Drop)]
pub(crate) enum Rule<'a> {
    Number(u128),
    Same,
    Driver(u32, &'a Value, &'a [MemoryCells]),
    Cells(&'a [u128]),
}

/// The nets of one instance that a number comes from, and how.
#[derive(Drop)]
pub(crate) struct Source<'a> {
    pub path: Vec<Text>,
    pub reads: Vec<NetNumber>,
    pub rule: Rule<'a>,
}

/// A number that is known.
pub(crate) fn given<'a>(alloc: Global, number: u128) -> Source<'a>
    ensures { source_tree result ≡ given_number number }
{
    Source {
        path: Vec::new(alloc),
        reads: Vec::new(alloc),
        rule: Rule::Number(number),
    }
}

/// One net to be read, whatever its width.
pub(crate) fn one_read(alloc: Global, x: Text) -> Result<Vec<NetNumber>, AllocError>
    ensures { IfOk result (λ v. v.items ≡ record { name = x; bits = 0; number = 0 } ∷ []) }
{
    let mut reads = Vec::new(alloc);
    reads.push(NetNumber {
        name: x,
        bits: 0,
        number: 0,
    })?;
    Ok(reads)
}

fn same<'a>(alloc: Global, path: Vec<Text>, x: &Text) -> Result<Source<'a>, AllocError>
    ensures { IfOk result (λ s. source_tree s ≡ same_number path.items x.now) }
{
    let x = x.copy(alloc)?;
    let reads = one_read(alloc, x)?;
    Ok(Source {
        path,
        reads,
        rule: Rule::Same,
    })
}

fn driver<'a>(
    alloc: Global,
    m: &Module,
    path: &[Text],
    memories: &'a [MemoryCells],
    x: &Text,
    value: &'a Value,
) -> Result<Option<Source<'a>>, AllocError>
    ensures { IfOk result (λ o. option_map source_tree o ≡ driver_source (declared m.now) path.now memories.now x.now value.now) }
{
    let scope = Scope::of_module(m);
    let net_kind = scope.net_kind(x.bytes());
    let bits = scope.bits(x.bytes());
    let reads = value_reads(alloc, &scope, value)?;
    if is_read(net_kind) && are_read(&scope, &reads) && has_cells(memories, value) {
        let path = copy_path(alloc, path)?;
        Ok(Some(Source {
            path,
            reads,
            rule: Rule::Driver(bits, value, memories),
        }))
    } else {
        Ok(None)
    }
}

fn outer<'a>(
    alloc: Global,
    design: &Circuit,
    now: &'a Moment,
    path: &[Text],
    x: &Text,
) -> Result<Option<Source<'a>>, AllocError>
    ensures { IfOk result (λ o. option_map source_tree o ≡ outer_source design.now.modules.now design.now.top.now now.now path.now x.now) }
{
    if path.is_empty() {
        return input_source(alloc, now, x);
    }
    let Some(m) = module_at(design.modules, design.top, &path[1..]) else {
        return Ok(None);
    };
    match joined_to(m.items(), &path[0], x) {
        Some(z) => {
            let around = copy_path(alloc, &path[1..])?;
            let source = same(alloc, around, z)?;
            Ok(Some(source))
        }
        None => Ok(None),
    }
}

fn output<'a>(
    alloc: Global,
    design: &Circuit,
    now: &'a Moment,
    m: &Module,
    path: &[Text],
    x: &Text,
) -> Result<Option<Source<'a>>, AllocError>
    ensures { IfOk result (λ o. option_map source_tree o ≡ output_source path.now (output_of_lem design.now.modules.now m.now.items x.now)
        (outer_source design.now.modules.now design.now.top.now now.now path.now x.now)) }
{
    match output_of(design.modules, m.items(), x) {
        Some((i, p)) => {
            let inside = path_inside(alloc, i, path)?;
            let source = same(alloc, inside, p)?;
            Ok(Some(source))
        }
        None => outer(alloc, design, now, path, x),
    }
}

fn line<'a>(
    alloc: Global,
    design: &'a Circuit<'a>,
    now: &'a Moment,
    m: &'a Module,
    h: &'a Held,
    path: &[Text],
    x: &Text,
) -> Result<Option<Source<'a>>, AllocError>
    ensures { IfOk result (λ o. option_map source_tree o ≡ line_source (declared m.now) path.now h.now.memories.items x.now (assigned_lem m.now.items x.now)
        (output_source path.now (output_of_lem design.now.modules.now m.now.items x.now) (outer_source design.now.modules.now design.now.top.now now.now path.now x.now))) }
{
    match assigned(m.items(), x) {
        Some(e) => driver(alloc, m, path, &h.memories, x, e),
        None => output(alloc, design, now, m, path, x),
    }
}

/// The source of a net's number: the net is a register, or its number is that of its driver, of an output of an instance, or of its connection to the outside.
pub(crate) fn source_of<'a>(
    alloc: Global,
    design: &'a Circuit<'a>,
    now: &'a Moment,
    path: &[Text],
    x: &Text,
) -> Result<Option<Source<'a>>, AllocError>
    ensures { IfOk result (λ o. option_map source_tree o ≡ source_of_lem design.now.modules.now design.now.top.now now.now path.now x.now) }
{
    let Some(h) = held_at(&now.held, path) else {
        return Ok(None);
    };
    let Some(m) = module_at(design.modules, design.top, path) else {
        return Ok(None);
    };
    match find_net(&h.nets, x) {
        Some(r) => Ok(Some(given(alloc, r.number))),
        None => line(alloc, design, now, m, h, path, x),
    }
}
