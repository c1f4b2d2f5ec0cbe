// A look at an instance that is at home: whether its next tick is allowed.
ghost use Rattle.std.specs.Prelude.{ℕ, ◌≡◌, ◌<◌, ◌≤◌, ◌⊎◌, List, length, slice_index, MatchBool};
ghost use Rattle.net_core.specs.declared.input.Input.{Input};
ghost use Rattle.net_core.specs.declared.body.Pause.TheVariants.{Fuel, WantsWrite};
ghost use Rattle.net_core.specs.Ports.{carried, port_count};
ghost use Rattle.net_case.specs.Look.{CanLook, HasLooked};

use crate::batch::Process;
use crate::deliver::deliver;
use crate::queue::Queue;
use net_core::{Body, Pause, Ports, resume_body};
use tapa_syntax::Program;

// Whether an instance that answered so without room to write may go on.
fn may_go_on(ports: &Ports, limits: &Vec<usize>, pause: Pause) -> bool
    requires { (p : ℕ) → pause ≡ WantsWrite p → (p < port_count ports.now) × (p < length limits.now.items) }
    ensures { MatchBool result ((pause ≡ Fuel) ⊎ ((p : ℕ) × (pause ≡ WantsWrite p) × (length (carried ports.now p) < slice_index limits.now.items p)))
        ((pause ≡ Fuel → ⊥) × ((p : ℕ) → pause ≡ WantsWrite p → slice_index limits.now.items p ≤ length (carried ports.now p))) }
{
    match pause {
        Pause::Fuel => true,
        Pause::WantsWrite(p) => ports.carried(p as usize).len() < limits[p as usize],
        _ => false,
    }
}

/// Gives an instance the tokens that are there for it, and asks its body what it would do next.
pub fn look<B: Body>(
    program: &Program,
    queues: &Vec<Queue>,
    taken: &Vec<usize>,
    offered: &mut Vec<usize>,
    process: &mut Process<B>,
    i: usize,
) -> (bool, Pause)
    requires { (input : Input) × (budget : ℕ) × (counts : List ℕ)
        × CanLook B.stands program.now input budget queues.now.items taken.now.items offered.old.items counts i process.old.body process.old.ports process.old.limits.items }
    ensures { (input : Input) (budget : ℕ) (counts : List ℕ)
        → CanLook B.stands program.now input budget queues.now.items taken.now.items offered.old.items counts i process.old.body process.old.ports process.old.limits.items
        → HasLooked B.stands program.now input budget queues.now.items taken.now.items offered.old.items offered.new.items counts i
        process.new.body process.new.ports process.new.limits.items result.0 result.1 }
{
    deliver(
        program,
        queues,
        taken,
        offered,
        &mut process.ports,
        &mut process.limits,
        i,
    );
    let (pause, _none) = resume_body(&mut process.body, &mut process.ports, 0);
    let may = may_go_on(&process.ports, &process.limits, pause);
    (may, pause)
}
