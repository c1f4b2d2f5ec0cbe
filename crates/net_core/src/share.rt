// What an instance may still make within a budget.
ghost use Rattle.std.specs.Prelude.{◌≡◌, ◌<◌, ◌≤◌, ◌+◌, length, false, true, IfOk, MatchBool};
ghost use Rattle.net_core.specs.State.{network, count, given, IsWithin, HasResumedWithin};
ghost use Rattle.net_core.specs.Bindings.{arity};
ghost use Rattle.net_core.specs.Ties.{AreTies};
ghost use Rattle.kahn_model.specs.Outcome.{IsJoined};
ghost use Rattle.net_core.specs.declared.body.Pause.TheVariants.{Fuel};

use crate::body::{Body, Pause};
use crate::net::Net;
use crate::resume::resume_instance;
use crate::ties::Tie;
use std::alloc::Global;
use tapa_base::OutOfMemory;

// The most ticks of one visit, some fifty microseconds: so an instance that never ends holds up no other one, and an end is seen soon.
const SLICE: u64 = 16_384;

// How many ticks an instance may still make: one that is waited for those of all that are waited for, a detached one its own.
fn left_to<B: Body>(net: &Net<B>, i: usize, budget: u64, left: u64) -> u64
    requires instance { i < length net.now.program.instances.items }
    requires within { count net.now i ≤ budget }
    ensures detached { (network net.now).detached i ≡ true → count net.now i + result ≡ budget }
    ensures joined { IsJoined (network net.now) i → result ≡ left }
{
    if net.is_detached(i) {
        budget - net.counts[i]
    } else {
        left
    }
}

/// Resumes an instance with the ticks that it may still make, but at most those of one visit.
pub fn resume_within<B: Body>(
    alloc: Global,
    net: &mut Net<B>,
    ties: &Vec<Tie>,
    i: usize,
    budget: u64,
    left: &mut u64,
) -> Result<(Pause, u64), OutOfMemory>
    requires instance { i < length net.old.program.instances.items }
    requires as_many { length ties.now.items ≡ arity net.old.program i }
    requires ties { AreTies net.old.program i ties.now.items }
    requires budget { budget ≤ 1000000000000 }
    requires within { IsWithin net.old budget left.old }
    ensures given { given net.new ≡ given net.old }
    ensures resumed { IfOk result (λ r. HasResumedWithin net.old net.new i budget left.old left.new r.0 r.1) }
{
    let detached = net.is_detached(i);
    let fuel = left_to(net, i, budget, *left).min(SLICE);
    let (pause, made) = resume_instance(alloc, net, ties, i, fuel)?;
    if !detached {
        *left -= made;
    }
    Ok((pause, made))
}

/// Returns whether an instance with this answer is waited for and can continue, while no tick is left to those that are waited for.
pub fn goes_past<B: Body>(net: &Net<B>, i: usize, pause: Pause, left: u64) -> bool
    requires { i < length net.now.program.instances.items }
    ensures { MatchBool result ((pause ≡ Fuel) × IsJoined (network net.now) i × (left ≡ 0)) (pause ≡ Fuel → IsJoined (network net.now) i → 0 < left) }
{
    match pause {
        Pause::Fuel => left == 0 && !net.is_detached(i),
        _ => false,
    }
}

/// Returns whether an instance with this answer, which does not exceed the budget, can continue within it.
pub fn goes_again<B: Body>(net: &Net<B>, i: usize, pause: Pause, budget: u64) -> bool
    requires { i < length net.now.program.instances.items }
    ensures { MatchBool result (pause ≡ Fuel) (pause ≡ Fuel → ((network net.now).detached i ≡ true) × (budget ≤ count net.now i)) }
{
    match pause {
        Pause::Fuel => !net.is_detached(i) || net.counts[i] < budget,
        _ => false,
    }
}
