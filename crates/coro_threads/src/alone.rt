// The run of a case or of a net by one thread.
ghost use Rattle.std.specs.Prelude.{◌≡◌, ◌≤◌, IfOk, IfErr};
ghost use Rattle.kahn_model.specs.Counts.{IsReachable};
ghost use Rattle.net_core.specs.State.{network, count, IsNew, IsWithin};
ghost use Rattle.net_core.specs.Settle.{EndsAs, IsSettled};
ghost use Rattle.net_case.specs.State.{AreAllHome};
ghost use Rattle.coro_threads.specs.Out.{IsSameRun, HasEndedAs};

use crate::run::Run;
use net_case::{Case, CaseFault, Claimed};
use net_core::{Body, Net, Outcome, settle, settle_on};
use std::alloc::Global;
use tapa_base::OutOfMemory;

// Runs batch after batch, until no instance may step.
fn drive_alone<B: Body + Drop>(case: &mut Case<B>) -> Result<Outcome, OutOfMemory>
    requires { AreAllHome case.old }
    ensures run { IsSameRun case.old case.new }
    ensures home { AreAllHome case.new }
    ensures ended { IfOk result (HasEndedAs case.new) }
{
    'batches: loop {
        case.valid();
        let mut batch = match case.claim() {
            Claimed::Work(batch) => batch,
            Claimed::Wait => unreachable!(),
            Claimed::Over(outcome) => return Ok(outcome),
        };
        let ran = batch.run();
        match case.commit(batch) {
            Ok(()) => {}
            Err(_stale) => unreachable!(),
        }
        case.valid();
        ran?;
    }
}

/// Drives a case from which no instance is out to its end, whatever was committed before, batch by batch in this thread. The
/// outcome is that of `settle` on its program, its input and its budget.
pub fn finish<B: Body + Drop>(case: Case<B>) -> Run<B>
    requires { AreAllHome case }
    ensures program { result.net.program ≡ case.program }
    ensures input { result.net.input ≡ case.input }
    ensures reachable { IsReachable (network result.net) (count result.net) }
    ensures outcome { IfOk result.end (EndsAs result.net case.budget) }
    ensures pauses { IfOk result.end (IsSettled result.net) }
{
    let mut case = case;
    let end = drive_alone(&mut case);
    case.valid();
    Run {
        net: case.into_net(),
        end,
    }
}

/// Drives a new net to its end as `settle` does.
pub(crate) fn drive_new<B: Body + Drop>(alloc: Global, net: Net<B>, budget: u64) -> Run<B>
    requires new { IsNew net }
    requires budget { budget ≤ 1000000000000 }
    ensures program { result.net.program ≡ net.program }
    ensures input { result.net.input ≡ net.input }
    ensures reachable { IsReachable (network result.net) (count result.net) }
    ensures outcome { IfOk result.end (EndsAs result.net budget) }
    ensures pauses { IfOk result.end (IsSettled result.net) }
{
    let mut net = net;
    let end = settle(alloc, &mut net, budget);
    Run { net, end }
}

// Drives a net from its count to its end.
fn drive_on<B: Body + Drop>(alloc: Global, net: Net<B>, budget: u64, left: u64) -> Run<B>
    requires budget { budget ≤ 1000000000000 }
    requires within { IsWithin net budget left }
    ensures program { result.net.program ≡ net.program }
    ensures input { result.net.input ≡ net.input }
    ensures reachable { IsReachable (network result.net) (count result.net) }
    ensures outcome { IfOk result.end (EndsAs result.net budget) }
    ensures pauses { IfOk result.end (IsSettled result.net) }
{
    let mut net = net;
    let mut left = left;
    let driven = settle_on(alloc, &mut net, budget, &mut left, false);
    net.valid();
    match driven {
        Ok(Some(outcome)) => Run {
            net,
            end: Ok(outcome),
        },
        Ok(None) => unreachable!(),
        Err(short) => Run {
            net,
            end: Err(short),
        },
    }
}

/// Drives a net from its count, to its end, or until its batches have grown and there is memory for a case of it.
pub(crate) fn drive_small<B: Body + Drop>(
    alloc: Global,
    net: Net<B>,
    budget: u64,
    left: u64,
) -> Result<Case<B>, Run<B>>
    requires budget { budget ≤ 1000000000000 }
    requires within { IsWithin net budget left }
    ensures grown { IfOk result (λ case. (case.program ≡ net.program) × (case.input ≡ net.input) × (case.budget ≡ budget) × AreAllHome case) }
    ensures program { IfErr result (λ run. run.net.program ≡ net.program) }
    ensures input { IfErr result (λ run. run.net.input ≡ net.input) }
    ensures reachable { IfErr result (λ run. IsReachable (network run.net) (count run.net)) }
    ensures outcome { IfErr result (λ run. IfOk run.end (EndsAs run.net budget)) }
    ensures pauses { IfErr result (λ run. IfOk run.end (IsSettled run.net)) }
{
    let mut net = net;
    let mut left = left;
    let driven = settle_on(alloc, &mut net, budget, &mut left, true);
    net.valid();
    match driven {
        Ok(None) => match Case::again(alloc, net, budget, left) {
            Ok(case) => Ok(case),
            Err(CaseFault { net }) => Err(drive_on(alloc, net, budget, left)),
        },
        Ok(Some(outcome)) => Err(Run {
            net,
            end: Ok(outcome),
        }),
        Err(short) => Err(Run {
            net,
            end: Err(short),
        }),
    }
}
