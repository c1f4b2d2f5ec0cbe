// A call of one body.
ghost use Rattle.std.specs.Prelude.{◌≡◌, ◌<◌, ◌+◌, ◌^◌, ◌&&◌, List, length, IfOk, OnErr, nat_lt, if◌then◌else◌};
ghost use Rattle.kahn_model.specs.declared.tick.Tick.{Tick};
ghost use Rattle.net_core.specs.declared.body.Pause.TheVariants.{Fuel};
ghost use Rattle.net_core.specs.Job.{Job};
ghost use Rattle.net_core.specs.Resume.{CanResume, Agrees, Resumed};
ghost use Rattle.net_core.specs.Ports.{ends_of};
ghost use Rattle.net_core.specs.State.{count, HasResumed};
ghost use Rattle.net_core.specs.Bindings.{arity};
ghost use Rattle.net_core.specs.Ties.{AreTies};

use crate::body::{Body, Pause};
use crate::net::Net;
use crate::ports::Ports;
use crate::ties::Tie;
use std::alloc::Global;
use tapa_base::OutOfMemory;
use tapa_syntax::Program;

/// Resumes a body, and counts the ticks that it makes.
pub fn resume_body<B: Body>(body: &mut B, ports: &mut Ports, fuel: u64) -> (Pause, u64)
    requires { CanResume (B.stands body.old) ports.old fuel }
    ensures { (job : Job) (ts : List Tick) → B.stands body.old job ts → ends_of ports.old ≡ job.ends → Agrees job.behavior ts ports.old
        → (h : Resumed (B.stands body.new job) job.behavior ts ports.old fuel result.0 ports.new) × (length h.made ≡ result.1) }
{
    let before = body.ticks();
    let pause = body.resume(ports, fuel);
    let made = body.ticks() - before;
    (pause, made)
}

// The part of an answer that is kept. An instance that made ticks and reads a stream of its own is recorded as able to continue, whatever it answered.
fn told(fed_by_self: bool, made: u64, pause: Pause) -> Pause
    ensures { result ≡ (if fed_by_self && nat_lt 0 made then Fuel else pause) }
{
    if fed_by_self && made > 0 {
        Pause::Fuel
    } else {
        pause
    }
}

/// Resumes one instance with its ports, and gives its answer and the ticks that it made.
pub fn resume_instance<B: Body>(
    alloc: Global,
    net: &mut Net<B>,
    ties: &Vec<Tie>,
    i: usize,
    fuel: u64,
) -> Result<(Pause, u64), OutOfMemory>
    requires instance { i < length net.old.program.instances.items }
    requires as_many { length ties.now.items ≡ arity net.old.program i }
    requires ties { AreTies net.old.program i ties.now.items }
    requires fits { count net.old i + fuel < 2 ^ 64 }
    ensures failed { OnErr result (net.new ≡ net.old) }
    ensures resumed { IfOk result (λ r. HasResumed net.old net.new i fuel r.0 r.1) }
{
    let program: &Program = &net.program;
    net.streams.load_ports(alloc, program, ties, i)?;
    let (pause, made) = resume_body(&mut net.bodies[i], &mut net.streams.ports[i], fuel);
    net.streams.count_taken(program, ties, i);
    net.counts[i] += made;
    net.pauses[i] = Some(told(net.fed_by_self[i], made, pause));
    Ok((pause, made))
}
