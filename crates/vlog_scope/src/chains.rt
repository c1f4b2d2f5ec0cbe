// The indices of names in a list of declarations, by a hash of the name. Names of one hash are on one chain: from its head, the first
// index, each index leads to the next. No name is copied, and names that differ in their last byte have heads next to one another.

ghost use Rattle.std.specs.Prelude.{◌≡◌, ◌<◌, ◌≤◌, ℕ, suc, false, nat_lt, Some, None, length, map, drop, is_some, IfSome, IfOk};
ghost use Rattle.vlog_tree.specs.Table.{declaration_name};
ghost use Rattle.vlog_scope.specs.NameTable.{places_from};
ghost use Rattle.vlog_scope.specs.Chains.{hash_from, chain_of, name_at, IsChained, further, AreShort};

use std::alloc::{AllocError, Global};
use vlog_tree::Declaration;

/// The most indices of a chain that is walked.
const LONGEST: usize = 32;

/// By the number of a chain its head, and by an index the next one; a number past the last index is none.
#[derive(Drop)]
pub struct Chains {
    pub heads: Vec<usize>,
    pub nexts: Vec<usize>,
}

fn hash_of(name: &[u8]) -> u64
    ensures { result ≡ hash_from 0 name.now }
{
    let mut hash: u64 = 0;
    for byte in name {
        hash = (hash * 131 + u64::from(*byte)) % 4_294_967_296;
    }
    hash
}

fn chain_at(name: &[u8], count: usize) -> usize
    requires { 0 < count }
    ensures value { result ≡ chain_of count name.now }
    ensures within { result < count }
{
    hash_of(name) as usize & (count - 1)
}

// A power of two, at least twice the number of names, up to a limit.
fn chain_count(names: usize) -> usize
    ensures { 0 < result }
{
    let enough = names.saturating_mul(2);
    let mut count: usize = 1;
    while count < enough && count < 1_099_511_627_776 {
        count *= 2;
    }
    count
}

fn no_chains(alloc: Global, declarations: &[Declaration]) -> Result<Chains, AllocError>
    ensures { IfOk result (λ c. IsChained (length declarations.now) declarations.now c.heads.items c.nexts.items) }
{
    let none = declarations.len();
    let heads = vec![in alloc; none; chain_count(none)]?;
    let nexts = vec![in alloc; none; none]?;
    Ok(Chains { heads, nexts })
}

// Puts the index before all others on its chain, as its head.
fn link(chains: &mut Chains, declarations: &[Declaration], place: usize)
    requires chained { IsChained (suc place) declarations.now chains.old.heads.items chains.old.nexts.items }
    requires within { place < length declarations.now }
    ensures { IsChained place declarations.now chains.new.heads.items chains.new.nexts.items }
{
    let chain = chain_at(declarations[place].name.bytes(), chains.heads.len());
    chains.nexts[place] = chains.heads[chain];
    chains.heads[chain] = place;
}

/// The indices of all declarations.
pub(crate) fn chains_of(alloc: Global, declarations: &[Declaration]) -> Result<Chains, AllocError>
    ensures { IfOk result (λ c. IsChained 0 declarations.now c.heads.items c.nexts.items) }
{
    let mut chains = no_chains(alloc, declarations)?;
    let mut left = declarations.len();
    while left > 0 {
        left -= 1;
        link(&mut chains, declarations, left);
    }
    Ok(chains)
}

// Whether a chain has more than the given number of indices.
fn is_longer(nexts: &[usize], head: usize, most: usize) -> bool
    ensures { result ≡ nat_lt (further nexts.now most head) (length nexts.now) }
{
    let mut at = head;
    let mut left = most;
    while left > 0 && at < nexts.len() {
        left -= 1;
        at = nexts[at];
    }
    at < nexts.len()
}

fn is_one_long(heads: &[usize], nexts: &[usize]) -> bool
    ensures { result ≡ false → AreShort heads.now nexts.now }
{
    for head in heads {
        if is_longer(nexts, *head, LONGEST) {
            return true;
        }
    }
    false
}

/// Whether a chain has more than `LONGEST` indices; with ordinary names none has.
pub(crate) fn has_long_chain(chains: &Chains) -> bool
    ensures { result ≡ false → AreShort chains.now.heads.items chains.now.nexts.items }
{
    is_one_long(&chains.heads, &chains.nexts)
}

// The first index that has a name, from an index of its chain on.
fn walk(chains: &Chains, declarations: &[Declaration], name: &[u8], from: usize) -> Option<usize>
    requires chained { IsChained 0 declarations.now chains.now.heads.items chains.now.nexts.items }
    requires on { from < length declarations.now → chain_of (length chains.now.heads.items) (name_at declarations.now from) ≡ chain_of (length chains.now.heads.items) name.now }
    ensures within { IfSome result (λ p. p < length declarations.now) }
    ensures named { IfSome result (λ p. name_at declarations.now p ≡ name.now) }
    ensures found { IfSome result (λ p. places_from from (map declaration_name (drop from declarations.now)) name.now ≡ Some
        (p, is_some (places_from (suc p) (map declaration_name (drop (suc p) declarations.now)) name.now))) }
    ensures none { result ≡ None → places_from from (map declaration_name (drop from declarations.now)) name.now ≡ None }
{
    let mut at = from;
    while at < declarations.len() {
        if declarations[at].name.bytes() == name {
            return Some(at);
        }
        at = chains.nexts[at];
    }
    None
}

/// The first index that has a name.
pub(crate) fn first_place(
    chains: &Chains,
    declarations: &[Declaration],
    name: &[u8],
) -> Option<usize>
    requires { IsChained 0 declarations.now chains.now.heads.items chains.now.nexts.items }
    ensures within { IfSome result (λ p. p < length declarations.now) }
    ensures named { IfSome result (λ p. name_at declarations.now p ≡ name.now) }
    ensures found { IfSome result (λ p. places_from 0 (map declaration_name declarations.now) name.now ≡ Some
        (p, is_some (places_from (suc p) (map declaration_name (drop (suc p) declarations.now)) name.now))) }
    ensures none { result ≡ None → places_from 0 (map declaration_name declarations.now) name.now ≡ None }
{
    let chain = chain_at(name, chains.heads.len());
    walk(chains, declarations, name, chains.heads[chain])
}

/// Whether a name is declared once more after an index that has it.
pub(crate) fn is_again(
    chains: &Chains,
    declarations: &[Declaration],
    name: &[u8],
    place: usize,
) -> bool
    requires chained { IsChained 0 declarations.now chains.now.heads.items chains.now.nexts.items }
    requires within { place < length declarations.now }
    requires named { name_at declarations.now place ≡ name.now }
    ensures { result ≡ is_some (places_from (suc place) (map declaration_name (drop (suc place) declarations.now)) name.now) }
{
    match walk(chains, declarations, name, chains.nexts[place]) {
        Some(_) => true,
        None => false,
    }
}
