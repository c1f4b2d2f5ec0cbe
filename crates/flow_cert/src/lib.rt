//! Checks that a balance of a graph's streams takes the fewest registers, by a dual flow of equal value (AutoBridge; the
//! duality of linear programs of differences).
#![tactic(auto)]

mod parts;
mod verdict;

ghost use Rattle.std.specs.Prelude.{◌≡◌, ◌<◌, ◌+◌, ℕ, slice_index};
ghost use Rattle.flow_cert.specs.Flow.{WeakDuality};
ghost use Rattle.flow_cert.specs.Walks.{EvenIsConsistent, LeastOfConsistent};
ghost use Rattle.flow_cert.specs.Verdicts.{IsVerdict, Proves, AreLists};

pub use parts::{flow_weight, registers, width_weight};
use task_graph::Graph;
pub use verdict::Verdict;

/// Whether one number per group and a flow show each other best: the first verdict that holds. `lat` has the latency of each
/// stream in cycles, `s` the number of each group, and `flow` a flow along the streams.
pub fn check(graph: &Graph, lat: &[u32], s: &[u32], flow: &[u64]) -> Verdict
    requires { AreLists graph.now lat.now s.now flow.now }
    ensures first { IsVerdict graph.now lat.now s.now flow.now result }
    ensures yes { Proves graph.now lat.now s.now flow.now result }
{
    let streams = graph.streams();
    for e in 0..streams {
        if !parts::stream_fits(graph, lat, s, flow, e) {
            return Verdict::BadStream(e as u32);
        }
    }
    for v in 0..graph.groups {
        if !parts::task_keeps(graph, flow, v as usize) {
            return Verdict::BadTask(v);
        }
    }
    let primal = parts::registers(graph, lat, s);
    let by_flow = parts::flow_weight(graph, lat, flow);
    let by_width = parts::width_weight(graph, lat);
    if by_width + primal == by_flow {
        Verdict::Yes
    } else {
        Verdict::BadValue {
            primal,
            dual: by_flow as i64 - by_width as i64,
        }
    }
}

/// No dual flow's value is above the cost of an even balance, so equal values show that both are best.
pub fn law_weak_duality()
    ensures { WeakDuality }
{}

/// With an even balance any two walks between the same tasks take equally long: it gives them the same added latency.
pub fn law_even_is_consistent()
    ensures { EvenIsConsistent }
{}

/// If some task reaches every other task, an even balance of least cost is also of least cost among all balances that give equal added latency to any two walks between the same tasks.
pub fn law_least_of_consistent()
    ensures { LeastOfConsistent }
{}
