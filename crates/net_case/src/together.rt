// The net is put together again.
ghost use Rattle.std.specs.Prelude.{ℕ, ◌≡◌, ◌<◌, ◌≤◌, [], length, Some, slice_get, vec_capacity};
ghost use Rattle.net_case.specs.declared.batch.Process.{Process};
ghost use Rattle.net_case.specs.Make.{AreParted};
ghost use Rattle.net_case.specs.State.{AreAllHome, net_of};

use crate::batch::Process;
use crate::case::Case;
use net_core::{Body, Net, Ports, Streams};

// The bodies and ports of all instances, in their order.
fn part<B: Body + Drop>(
    homes: &mut Vec<Option<Process<B>>>,
    bodies: &mut Vec<B>,
    ports: &mut Vec<Ports>,
)
    requires home { (i : ℕ) → i < length homes.old.items → (x : Process _) × (slice_get homes.old.items i ≡ Some (Some x)) }
    requires no_body { bodies.old.items ≡ [] }
    requires no_port { ports.old.items ≡ [] }
    requires body_room { length homes.old.items ≤ vec_capacity bodies.old }
    requires port_room { length homes.old.items ≤ vec_capacity ports.old }
    ensures { AreParted (length homes.old.items) homes.old.items bodies.new.items ports.new.items }
{
    for i in 0..homes.len() {
        if let Some(process) = homes[i].take() {
            bodies.push_reserved(process.body);
            ports.push_reserved(process.ports);
        }
    }
}

impl<B: Body + Drop> Case<B> {
    /// The net, where no instance is out. It takes no memory.
    pub fn into_net(self) -> Net<B>
        requires { AreAllHome self }
        ensures { result ≡ net_of self }
    {
        let Case {
            program,
            input,
            budget: _,
            mut homes,
            queues: _,
            taken,
            offered,
            counts,
            pauses,
            listed: _,
            cursor: _,
            joined: _,
            pace: _,
            writers,
            fed_by_self,
            mut bodies,
            mut ports,
        } = self;
        part(&mut homes, &mut bodies, &mut ports);
        Net {
            program,
            input,
            bodies,
            streams: Streams {
                ports,
                writers,
                offered,
                taken,
            },
            fed_by_self,
            counts,
            pauses,
        }
    }
}
