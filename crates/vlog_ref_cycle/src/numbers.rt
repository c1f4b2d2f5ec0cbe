// The number of a net.

ghost use Rattle.std.specs.Prelude.{◌≡◌, IfOk, IfSome, unwrap_or, slice_get, Vec};
ghost use Rattle.vlog_ref_cycle.specs.Sources.{rule_tree};
ghost use Rattle.vlog_ref_cycle.specs.Moments.{InEachRun};
ghost use Rattle.vlog_ref_cycle.specs.Numbers.{first_number, by_rule as by_rule_lem, all_numbers as all_numbers_lem, number_at};
ghost use Rattle.std.specs.Option.{option_map};
ghost use Rattle.std.specs.declared.alloc.Global.{Global};
ghost use Rattle.vlog_values.specs.declared.numbers.NetNumber.{NetNumber};

use crate::sources::{Rule, source_of};
use std::alloc::{AllocError, Global};
use tapa_base::Text;
use vlog_values::{Circuit, Moment, NetNumber, value_of};

fn first_of(nets: &[NetNumber]) -> Option<u128>
    ensures { result ≡ first_number nets.now }
{
    if nets.is_empty() {
        None
    } else {
        Some(nets[0].number)
    }
}

/// A cell, 0 past the end.
fn cell(cells: &[u128], at: u128) -> u128
    ensures { result ≡ unwrap_or (slice_get cells.now at) 0 }
{
    if at < cells.len() as u128 {
        cells[at as usize]
    } else {
        0
    }
}

// What a rule makes of the numbers that it reads.
fn by_rule(rule: &Rule, nets: &[NetNumber]) -> Option<u128>
    ensures { result ≡ by_rule_lem (rule_tree rule.now) nets.now }
{
    match rule {
        Rule::Number(n) => Some(*n),
        Rule::Same => first_of(nets),
        Rule::Driver(bits, value, memories) => {
            if *bits <= 128 {
                value_of(nets, memories, *bits, value)
            } else {
                None
            }
        }
        Rule::Cells(cells) => match first_of(nets) {
            Some(at) => Some(cell(cells, at)),
            None => None,
        },
    }
}

/// The nets of an instance with their numbers, where each has one.
#[cycle(net_number)]
pub(crate) fn all_numbers(
    alloc: Global,
    design: &Circuit,
    now: &Moment,
    path: &[Text],
    reads: &[NetNumber],
    depth: u32,
) -> Result<Option<Vec<NetNumber>>, AllocError>
    ensures { IfOk result (λ o. option_map (λ (v : Vec NetNumber Global). v.items) o ≡ all_numbers_lem (number_at design.now now.now depth path.now) reads.now) }
{
    let mut nets = Vec::new(alloc);
    for r in reads {
        let Some(number) = net_number(alloc, &*design, &*now, &*path, &r.name, depth)? else {
            return Ok(None);
        };
        let name = r.name.copy(alloc)?;
        nets.push(NetNumber {
            name,
            bits: r.bits,
            number,
        })?;
    }
    Ok(Some(nets))
}

/// The number of a net in a cycle, by at most some steps from net to net.
///
/// `None` where the net or one that it depends on has no number: the steps are too few; nothing drives it, as the clock; its
/// instance is none of the design, or the snapshot leaves that out, or the scalar or memory that it is read from; its driver
/// reads what is no net; or its driver's value is not below 2^128, or is to have more than 128 bits.
#[tactic(auto, using(crate::proofs::Within::runs_number, crate::proofs::Within::number_found, crate::proofs::Within::number_unread, crate::proofs::Within::number_unknown, crate::proofs::Within::number_zero))]
#[cycle(net_number)]
pub fn net_number(
    alloc: Global,
    design: &Circuit,
    now: &Moment,
    path: &[Text],
    name: &Text,
    depth: u32,
) -> Result<Option<u128>, AllocError>
    ensures within { IfOk result (λ o. o ≡ number_at design.now now.now depth path.now name.now) }
    ensures value { IfOk result (λ o. IfSome o (λ v. InEachRun design.now now.now (λ env nets. (nets now.now.cycle path.now).net name.now ≡ v))) }
{
    if depth == 0 {
        return Ok(None);
    }
    let Some(source) = source_of(alloc, &*design, &*now, &*path, &*name)? else {
        return Ok(None);
    };
    match all_numbers(
        alloc,
        &*design,
        &*now,
        &source.path,
        &source.reads,
        depth - 1,
    )? {
        Some(nets) => Ok(by_rule(&source.rule, &nets)),
        None => Ok(None),
    }
}
