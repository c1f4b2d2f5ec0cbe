// What a design's environment gives its top's inputs.

ghost use Rattle.std.specs.Prelude.{◌≡◌, ◌==◌, IfOk, if◌then◌else◌, bytes_eq};
ghost use Rattle.std.specs.Option.{option_map, option_copied};
ghost use Rattle.vlog_tree.specs.Environment.{ready_at as ready_at_lem};
ghost use Rattle.vlog_tree.specs.Labels.{rst, scalar_of as scalar_lem, ack_of as ack_lem, rdata_of as rdata_lem};
ghost use Rattle.vlog_values.specs.declared.numbers.NetNumber.{NetNumber as NetNumberTree};
ghost use Rattle.vlog_values.specs.Numbers.{first_net};
ghost use Rattle.vlog_ref_cycle.specs.Sources.{source_tree, memory_of as memory_of_lem, rdata_source, ack_source, scalar_source, input_source as input_source_lem};

use crate::sources::{Rule, Source, given, one_read};
use std::alloc::{AllocError, Global};
use tapa_base::Text;
use vlog_tree::{ack_of, addr_name, rdata_of, scalar_of};
use vlog_values::{Moment, NetNumber, OutsideMemory};

#[tactic(auto, unfolding(vlog_tree::specs::Labels::rst))]
fn is_reset(name: &Text) -> bool
    ensures { result ≡ bytes_eq name.now rst }
{
    name.bytes() == b"rst".as_slice()
}

fn reset_at(cycle: u64) -> u128
    ensures { result ≡ (if cycle == 0 then 1 else 0) }
{
    if cycle == 0 { 1 } else { 0 }
}

/// An entry of a ready list, counted from 1, and 1 after its end; in cycle 0 it is 0.
fn ready_at(ready: &[bool], cycle: u64) -> u128
    ensures { result ≡ ready_at_lem ready.now cycle }
{
    if cycle == 0 {
        return 0;
    }
    match ready.get((cycle - 1) as usize) {
        Some(b) => u128::from(*b),
        None => 1,
    }
}

fn scalar_at(scalars: &[NetNumber], label: &[u8]) -> Option<u128>
    ensures { result ≡ option_map (λ (v : NetNumberTree). v.number) (first_net scalars.now label.now) }
{
    for v in scalars {
        if v.name.bytes() == label {
            return Some(v.number);
        }
    }
    None
}

/// The memory of a label.
fn memory_of<'a>(memories: &'a [OutsideMemory], label: &[u8]) -> Option<&'a OutsideMemory>
    ensures { option_copied result ≡ memory_of_lem memories.now label.now }
{
    for m in memories {
        if m.name.bytes() == label {
            return Some(m);
        }
    }
    None
}

#[tactic(auto, using(vlog_run_laws::proofs::runs::Ascii::addr_ascii))]
fn rdata<'a>(alloc: Global, now: &'a Moment, x: &Text) -> Result<Option<Source<'a>>, AllocError>
    ensures { IfOk result (λ o. option_map source_tree o ≡ rdata_source now.now.outside.items (rdata_lem x.now)) }
{
    let Some(label) = rdata_of(x) else {
        return Ok(None);
    };
    match memory_of(&now.outside, label) {
        Some(m) => {
            let address = Text::new(addr_name(alloc, label)?);
            let reads = one_read(alloc, address)?;
            Ok(Some(Source {
                path: Vec::new(alloc),
                reads,
                rule: Rule::Cells(&m.cells),
            }))
        }
        None => Ok(None),
    }
}

fn ack<'a>(alloc: Global, now: &'a Moment, x: &Text) -> Result<Option<Source<'a>>, AllocError>
    ensures { IfOk result (λ o. option_map source_tree o ≡ ack_source now.now.cycle now.now.outside.items (ack_lem x.now) (rdata_source now.now.outside.items (rdata_lem x.now))) }
{
    let Some(label) = ack_of(x) else {
        return rdata(alloc, now, x);
    };
    match memory_of(&now.outside, label) {
        Some(m) => Ok(Some(given(alloc, ready_at(&m.ready, now.cycle)))),
        None => Ok(None),
    }
}

fn scalar<'a>(alloc: Global, now: &'a Moment, x: &Text) -> Result<Option<Source<'a>>, AllocError>
    ensures { IfOk result (λ o. option_map source_tree o ≡ scalar_source now.now.scalars.items (scalar_lem x.now)
        (ack_source now.now.cycle now.now.outside.items (ack_lem x.now) (rdata_source now.now.outside.items (rdata_lem x.now)))) }
{
    let Some(label) = scalar_of(x) else {
        return ack(alloc, now, x);
    };
    match scalar_at(&now.scalars, label) {
        Some(v) => Ok(Some(given(alloc, v))),
        None => Ok(None),
    }
}

/// What the environment gives an input of the top.
pub(crate) fn input_source<'a>(
    alloc: Global,
    now: &'a Moment,
    x: &Text,
) -> Result<Option<Source<'a>>, AllocError>
    ensures { IfOk result (λ o. option_map source_tree o ≡ input_source_lem now.now x.now) }
{
    if is_reset(x) {
        Ok(Some(given(alloc, reset_at(now.cycle))))
    } else {
        scalar(alloc, now, x)
    }
}
