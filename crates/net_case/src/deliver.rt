// What an instance takes along: the tokens that its streams got, and the room that they have.
ghost use Rattle.std.specs.Prelude.{ℕ, ◌≡◌, ◌<◌, length, slice_index};
ghost use Rattle.net_core.specs.Ports.{carried, Adjusted};
ghost use Rattle.net_core.specs.Bindings.{IsConnected, arity, stream_at, Reads};
ghost use Rattle.net_case.specs.Deliver.{AreInOrder, IsDelivered};

use crate::queue::Queue;
use net_core::{Ports, depth, stream_at};
use tapa_syntax::Program;

// Gives one port the tokens that it has not, or the limit of its stream.
fn deliver_at(
    program: &Program,
    queues: &Vec<Queue>,
    taken: &Vec<usize>,
    offered: &mut Vec<usize>,
    ports: &mut Ports,
    limits: &mut Vec<usize>,
    i: usize,
    p: usize,
)
    requires connected { IsConnected program.now }
    requires instance { i < length program.now.instances.items }
    requires position { p < arity program.now i }
    requires order { AreInOrder program.now i queues.now.items taken.now.items offered.old.items ports.old limits.old.items }
    ensures order { AreInOrder program.now i queues.now.items taken.now.items offered.new.items ports.new limits.new.items }
    ensures delivered { IsDelivered program.now i p queues.now.items taken.now.items offered.new.items ports.new limits.new.items }
    ensures adjusted { Adjusted ports.old p ports.new }
    ensures limits { (q : ℕ) → (q ≡ p → ⊥) → slice_index limits.new.items q ≡ slice_index limits.old.items q }
    ensures others { (s : ℕ) → (Reads program.now i p → stream_at program.now i p ≡ s → ⊥) → slice_index offered.new.items s ≡ slice_index offered.old.items s }
{
    let s = stream_at(program, i, p);
    let took = taken[s];
    if ports.writes(p) {
        ports.shut(p);
        limits[p] = took + depth(program, s);
        return;
    }
    let queue = &queues[s];
    let given = offered[s] - took;
    let _there = ports.offer_more(p, queue.from_place(given));
    let total = took + queue.len();
    offered[s] = total;
    limits[p] = total;
}

/// Gives an instance the tokens that its ports have not, and sets the limits of its streams. It has no room to write then.
pub fn deliver(
    program: &Program,
    queues: &Vec<Queue>,
    taken: &Vec<usize>,
    offered: &mut Vec<usize>,
    ports: &mut Ports,
    limits: &mut Vec<usize>,
    i: usize,
)
    requires connected { IsConnected program.now }
    requires instance { i < length program.now.instances.items }
    requires order { AreInOrder program.now i queues.now.items taken.now.items offered.old.items ports.old limits.old.items }
    ensures order { AreInOrder program.now i queues.now.items taken.now.items offered.new.items ports.new limits.new.items }
    ensures delivered { (p : ℕ) → p < arity program.now i → IsDelivered program.now i p queues.now.items taken.now.items offered.new.items ports.new limits.new.items }
    ensures carried { (p : ℕ) → carried ports.new p ≡ carried ports.old p }
    ensures others { (s : ℕ) → ((p : ℕ) → Reads program.now i p → stream_at program.now i p ≡ s → ⊥) → slice_index offered.new.items s ≡ slice_index offered.old.items s }
{
    for p in 0..limits.len() {
        deliver_at(program, queues, taken, offered, ports, limits, i, p);
    }
}
