// Pairs of names, each once.

ghost use Rattle.std.specs.Prelude.{◌≡◌, ◌↔◌, true, IfOk};
ghost use Rattle.tapa_base.specs.Lists.{Has};
ghost use Rattle.vlog_comb_loops.specs.Merges.{IsMerged};

use std::alloc::AllocError;
use tapa_base::Text;

fn is_pair(a: &(Text, Text), b: &(Text, Text)) -> bool
    ensures { (result ≡ true) ↔ (a.now ≡ b.now) }
{
    a.0.bytes() == b.0.bytes() && a.1.bytes() == b.1.bytes()
}

fn is_among(pairs: &[(Text, Text)], pair: &(Text, Text)) -> bool
    ensures { (result ≡ true) ↔ Has pairs.now pair.now }
{
    for p in pairs {
        if is_pair(p, pair) {
            return true;
        }
    }
    false
}

// Whether pairs have a pair, which is looked for at an index first.
fn has_pair(pairs: &[(Text, Text)], at: usize, pair: &(Text, Text)) -> bool
    ensures { (result ≡ true) ↔ Has pairs.now pair.now }
{
    if at < pairs.len() {
        if is_pair(&pairs[at], pair) {
            return true;
        }
    }
    is_among(pairs, pair)
}

// Appends those of other pairs that are missing, and says whether any was missing.
pub(crate) fn merge(
    pairs: &mut Vec<(Text, Text)>,
    mut others: Vec<(Text, Text)>,
) -> Result<bool, AllocError>
    ensures { IfOk result (λ added. IsMerged pairs.old.items others.items pairs.new.items added) }
{
    let mut added = false;
    while let Some(pair) = others.pop() {
        if !has_pair(pairs, others.len(), &pair) {
            pairs.push(pair)?;
            added = true;
        }
    }
    Ok(added)
}
