// What a stream carries in a cycle, and whether the design is done.

ghost use Rattle.std.specs.Prelude.{◌≡◌, ◌≤◌, ◌++◌, ◌↔◌, ℕ, suc, [], None, IfOk, IfSome, IsTrue, is_some};
ghost use Rattle.std.specs.Option.{option_to_list};
ghost use Rattle.std.specs.Str.{IsAscii};
ghost use Rattle.vlog_tree.specs.Labels.{s_din, done};
ghost use Rattle.vlog_tree.specs.Environment.{carried, tokens, token_of as token_of_lem, RaisesDone};
ghost use Rattle.vlog_ref_cycle.specs.Moments.{InEachRun, stream_known};
ghost use Rattle.vlog_ref_cycle.specs.Numbers.{number_at};

use crate::numbers::net_number;
use std::alloc::{AllocError, Global};
use tapa_base::{Port, Text, Token};
use vlog_tree::{rdy_name, wr_name};
use vlog_values::{Circuit, Moment};

/// The number of a net of the top.
pub(crate) fn top_number(
    alloc: Global,
    design: &Circuit,
    now: &Moment,
    name: Vec<u8>,
    depth: u32,
) -> Result<Option<u128>, AllocError>
    requires { IsAscii name.items }
    ensures within { IfOk result (λ o. o ≡ number_at design.now now.now depth [] name.items) }
    ensures value { IfOk result (λ o. IfSome o (λ v. InEachRun design.now now.now (λ env nets. (nets now.now.cycle []).net name.items ≡ v))) }
{
    net_number(alloc, design, now, &[], &Text::new(name), depth)
}

#[tactic(auto, unfolding(vlog_tree::specs::Labels::s_din))]
fn din_name(alloc: Global, label: &[u8]) -> Result<Vec<u8>, AllocError>
    ensures { IfOk result (λ v. v.items ≡ s_din label.now) }
{
    let mut name = b"s_".to_vec(alloc)?;
    name.extend_from_slice(label)?;
    name.extend_from_slice(b"_din")?;
    Ok(name)
}

// The number on a stream's `din` in this cycle where `wr` and `rdy` are 1, and nothing in cycle 0.
#[tactic(auto, using(vlog_run_laws::proofs::runs::Ascii::wr_ascii, vlog_run_laws::proofs::runs::Ascii::rdy_ascii, vlog_run_laws::proofs::runs::Ascii::din_ascii))]
fn carries_number(
    alloc: Global,
    design: &Circuit,
    now: &Moment,
    label: &Text,
    depth: u32,
) -> Result<Option<Option<u128>>, AllocError>
    ensures known { IfOk result (λ o. is_some o ≡ stream_known design.now now.now depth label.now) }
    ensures first { IfOk result (λ o. IfSome o (λ t. now.now.cycle ≡ 0 → t ≡ None)) }
    ensures value { IfOk result (λ o. IfSome o (λ t. InEachRun design.now now.now
        (λ env nets. (k : ℕ) → now.now.cycle ≡ suc k → carried (λ n. nets n []) label.now (suc k) ≡ carried (λ n. nets n []) label.now k ++ option_to_list t))) }
{
    let label = label.bytes();
    let Some(wr) = top_number(alloc, design, now, wr_name(alloc, label)?, depth)? else {
        return Ok(None);
    };
    let Some(rdy) = top_number(alloc, design, now, rdy_name(alloc, label)?, depth)? else {
        return Ok(None);
    };
    let Some(din) = top_number(alloc, design, now, din_name(alloc, label)?, depth)? else {
        return Ok(None);
    };
    if now.cycle > 0 && wr == 1 && rdy == 1 {
        Ok(Some(Some(din)))
    } else {
        Ok(Some(None))
    }
}

// What the bits of a stream say: an end where the highest one is set, and else a datum.
#[tactic(auto, using(vlog_tree::proofs::Tokens::low_datum))]
fn token_of(bits: u32, din: u128) -> Token
    requires low { 1 ≤ bits }
    requires high { bits ≤ 65 }
    ensures { result ≡ token_of_lem bits din }
{
    let first_end = 1u128 << (bits - 1);
    if din < first_end {
        Token::Datum(din as u64)
    } else {
        Token::Eot
    }
}

/// The token that a stream carries in this cycle, where `wr` and `rdy` are 1; in cycle 0 it carries none. A stream has from
/// 2 to 65 bits.
#[tactic(auto, using(crate::proofs::Tokens::one_token, crate::proofs::Tokens::no_token))]
pub fn carries(
    alloc: Global,
    design: &Circuit,
    now: &Moment,
    stream: &Port,
    depth: u32,
) -> Result<Option<Option<Token>>, AllocError>
    requires low { 2 ≤ stream.now.bits }
    requires high { stream.now.bits ≤ 65 }
    ensures known { IfOk result (λ o. is_some o ≡ stream_known design.now now.now depth stream.now.name) }
    ensures first { IfOk result (λ o. IfSome o (λ t. now.now.cycle ≡ 0 → t ≡ None)) }
    ensures value { IfOk result (λ o. IfSome o (λ t. InEachRun design.now now.now
        (λ env nets. (k : ℕ) → now.now.cycle ≡ suc k
        → tokens stream.now.bits (λ n. nets n []) stream.now.name (suc k) ≡ tokens stream.now.bits (λ n. nets n []) stream.now.name k ++ option_to_list t))) }
{
    match carries_number(alloc, design, now, &stream.name, depth)? {
        Some(Some(din)) => Ok(Some(Some(token_of(stream.bits, din)))),
        Some(None) => Ok(Some(None)),
        None => Ok(None),
    }
}

#[tactic(auto, unfolding(vlog_tree::specs::Labels::done))]
fn done_name(alloc: Global) -> Result<Vec<u8>, AllocError>
    ensures { IfOk result (λ v. v.items ≡ done) }
{
    b"done".to_vec(alloc)
}

/// Whether the design is done in this cycle.
#[tactic(auto, unfolding(vlog_tree::specs::Labels::done), using(vlog_run_laws::proofs::runs::Ascii::done_ascii))]
pub fn is_done(
    alloc: Global,
    design: &Circuit,
    now: &Moment,
    depth: u32,
) -> Result<Option<bool>, AllocError>
    ensures known { IfOk result (λ o. is_some o ≡ is_some (number_at design.now now.now depth [] done)) }
    ensures value { IfOk result (λ o. IfSome o (λ b. InEachRun design.now now.now (λ env nets. IsTrue b ↔ RaisesDone (λ n. nets n []) now.now.cycle))) }
{
    match top_number(alloc, design, now, done_name(alloc)?, depth)? {
        Some(n) => Ok(Some(now.cycle > 0 && n == 1)),
        None => Ok(None),
    }
}
