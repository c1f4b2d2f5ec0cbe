// A case of a new net.
ghost use Rattle.std.specs.Prelude.{ℕ, ◌≡◌, ◌⊎◌, ◌*◌, ◌<◌, ◌≤◌, [], length, replicate, true, Some, None, slice_get, vec_capacity, IfOk, IfErr};
ghost use Rattle.net_core.specs.declared.ports.Ports.{Ports};
ghost use Rattle.net_core.specs.Ports.{space_at, ends_of, ends_in};
ghost use Rattle.net_core.specs.Bindings.{IsConnected, arity, ends_at, stream_at, depth_of, Reads};
ghost use Rattle.kahn_model.specs.Outcome.{IsCapped};
ghost use Rattle.net_core.specs.Load.{queue_at};
ghost use Rattle.net_core.specs.State.{network, count, joined_total, IsNew, IsWithin, AreAnswered};
ghost use Rattle.net_case.specs.Queue.{waits, space};
ghost use Rattle.net_case.specs.State.{AreAllHome};
ghost use Rattle.net_case.specs.Make.{HaveSameTokens, AreEmptyQueues, CanFill, AreFilled, AreLimits, AreReserved, IsSpare, AreBroughtHome};

use crate::batch::Process;
use crate::case::Case;
use crate::pace::Pace;
use crate::queue::Queue;
use net_core::{Body, Net, Ports, Streams, arity, depth, producer, stream_at};
use std::alloc::Global;
use tapa_base::OutOfMemory;
use tapa_syntax::Program;

/// There was no memory for a case. The net is as it was.
#[derive(Drop)]
pub struct CaseFault<B: Body> {
    pub net: Net<B>,
}

// What a case has beside its net.
#[derive(Drop)]
struct Spare<B: Body> {
    homes: Vec<Option<Process<B>>>,
    limits: Vec<Vec<usize>>,
    queues: Vec<Queue>,
    listed: Vec<bool>,
}

// The queues of all streams.
fn all_queues(alloc: Global, program: &Program) -> Result<Vec<Queue>, OutOfMemory>
    requires { IsConnected program.now }
    ensures { IfOk result (λ v. AreEmptyQueues program.now (length program.now.streams.items) v.items) }
{
    let mut queues = Vec::new(alloc);
    for s in 0..program.streams.len() {
        queues.push(Queue::new(alloc, depth(program, s))?)?;
    }
    Ok(queues)
}

fn zeros(alloc: Global, n: usize) -> Result<Vec<usize>, OutOfMemory>
    ensures { IfOk result (λ v. length v.items ≡ n) }
{
    Ok(vec![in alloc; 0usize; n]?)
}

// A limit for each port of each instance.
fn all_limits(alloc: Global, program: &Program) -> Result<Vec<Vec<usize>>, OutOfMemory>
    ensures { IfOk result (λ v. AreLimits program.now (length program.now.instances.items) v.items) }
{
    let mut all = Vec::new(alloc);
    for i in 0..program.instances.len() {
        all.push(zeros(alloc, arity(program, i))?)?;
    }
    Ok(all)
}

// Space for twice a stream's depth at each port of an instance that reads.
fn reserve_at(program: &Program, ports: &mut Ports, i: usize) -> Result<(), OutOfMemory>
    requires connected { IsConnected program.now }
    requires instance { i < length program.now.instances.items }
    requires ends { ends_of ports.old ≡ ends_at program.now i }
    ensures kept { HaveSameTokens ports.old ports.new }
    ensures spaces { IfOk result (λ _. (p : ℕ) → Reads program.now i p → 2 * depth_of program.now (stream_at program.now i p) ≤ space_at ports.new p) }
{
    for p in 0..arity(program, i) {
        if !ports.writes(p) {
            let depth = depth(program, stream_at(program, i, p));
            ports.reserve_queue(p, depth.saturating_mul(2))?;
        }
    }
    Ok(())
}

// Room in memory at the ports of all instances that read.
fn reserve_all(program: &Program, all: &mut Vec<Ports>) -> Result<(), OutOfMemory>
    requires connected { IsConnected program.now }
    requires len { length all.old.items ≡ length program.now.instances.items }
    requires ends { (i : ℕ) → i < length program.now.instances.items → ends_in all.old.items i ≡ ends_at program.now i }
    ensures len { length all.new.items ≡ length all.old.items }
    ensures kept { (i : ℕ) (x y : Ports) → slice_get all.old.items i ≡ Some x → slice_get all.new.items i ≡ Some y → HaveSameTokens x y }
    ensures spaces { IfOk result (λ _. AreReserved program.now all.new.items) }
{
    for i in 0..all.len() {
        reserve_at(program, &mut all[i], i)?;
    }
    Ok(())
}

// A list of n empty homes.
fn empty_homes<B: Body + Drop>(
    alloc: Global,
    n: usize,
) -> Result<Vec<Option<Process<B>>>, OutOfMemory>
    ensures { IfOk result (λ v. length v.items ≡ n) }
{
    let mut homes = Vec::new(alloc);
    for _i in 0..n {
        homes.push(None)?;
    }
    Ok(homes)
}

// Marks for n instances, each of which is listed.
fn all_listed(alloc: Global, n: usize) -> Result<Vec<bool>, OutOfMemory>
    ensures { IfOk result (λ v. v.items ≡ replicate n true) }
{
    Ok(vec![in alloc; true; n]?)
}

// All the memory that a case of a net needs.
fn reserve<B: Body + Drop>(
    alloc: Global,
    program: &Program,
    ports: &mut Vec<Ports>,
) -> Result<Spare<B>, OutOfMemory>
    requires connected { IsConnected program.now }
    requires len { length ports.old.items ≡ length program.now.instances.items }
    requires ends { (i : ℕ) → i < length program.now.instances.items → ends_in ports.old.items i ≡ ends_at program.now i }
    ensures len { length ports.new.items ≡ length ports.old.items }
    ensures kept { (i : ℕ) (x y : Ports) → slice_get ports.old.items i ≡ Some x → slice_get ports.new.items i ≡ Some y → HaveSameTokens x y }
    ensures spaces { IfOk result (λ _. AreReserved program.now ports.new.items) }
    ensures spare { IfOk result (λ x. IsSpare program.now x.homes.items x.limits.items x.queues.items x.listed.items) }
{
    reserve_all(program, ports)?;
    let n = program.instances.len();
    Ok(Spare {
        homes: empty_homes(alloc, n)?,
        limits: all_limits(alloc, program)?,
        queues: all_queues(alloc, program)?,
        listed: all_listed(alloc, n)?,
    })
}

// Each instance comes home with its body, its ports and its limits.
fn bring_home<B: Body + Drop>(
    homes: &mut Vec<Option<Process<B>>>,
    limits: &mut Vec<Vec<usize>>,
    bodies: &mut Vec<B>,
    ports: &mut Vec<Ports>,
)
    requires limits_len { length limits.old.items ≡ length homes.old.items }
    requires bodies_len { length bodies.old.items ≡ length homes.old.items }
    requires ports_len { length ports.old.items ≡ length homes.old.items }
    ensures len { length homes.new.items ≡ length homes.old.items }
    ensures homes { AreBroughtHome 0 limits.old.items bodies.old.items ports.old.items homes.new.items }
    ensures bodies { bodies.new.items ≡ [] }
    ensures ports { ports.new.items ≡ [] }
    ensures body_room { length homes.old.items ≤ vec_capacity bodies.new }
    ensures port_room { length homes.old.items ≤ vec_capacity ports.new }
{
    let n = homes.len();
    for k in 0..n {
        let process = Process {
            body: bodies.take_last(),
            ports: ports.take_last(),
            limits: limits.take_last(),
            last: u64::MAX,
        };
        homes[n - 1 - k] = Some(process);
    }
}

// What was written to a stream and not taken waits in its queue.
fn fill_at(program: &Program, queue: &mut Queue, streams: &Streams, s: usize)
    requires connected { IsConnected program.now }
    requires stream { s < length program.now.streams.items }
    requires can { CanFill program.now streams.now }
    requires empty { waits queue.old ≡ [] }
    requires space { 2 * depth_of program.now s ≤ space queue.old }
    ensures waits { waits queue.new ≡ queue_at program.now streams.now s }
    ensures space { space queue.old ≤ space queue.new }
{
    let written = streams.ports[producer(program, s)].carried(streams.writers[s]);
    queue.join(&written[streams.taken[s]..]);
}

// What was written to each stream and not taken waits in its queue.
fn fill(program: &Program, queues: &mut Vec<Queue>, streams: &Streams)
    requires connected { IsConnected program.now }
    requires empty { AreEmptyQueues program.now (length program.now.streams.items) queues.old.items }
    requires can { CanFill program.now streams.now }
    ensures { AreFilled program.now streams.now queues.new.items }
{
    for s in 0..queues.len() {
        fill_at(program, &mut queues[s], streams, s);
    }
}

impl<B: Body + Drop> Case<B> {
    // A case of a net which is new, or in which each instance was asked whether it may go on; those that are waited for have made `joined` ticks.
    fn of(alloc: Global, net: Net<B>, budget: u64, joined: u64) -> Result<Case<B>, CaseFault<B>>
        requires budget { budget ≤ 1000000000000 }
        requires capped { IsCapped (network net) budget (count net) }
        requires joined { joined ≡ joined_total net }
        requires answered { IsNew net ⊎ AreAnswered net }
        ensures program { IfOk result (λ c. c.program ≡ net.program) }
        ensures input { IfOk result (λ c. c.input ≡ net.input) }
        ensures budget { IfOk result (λ c. c.budget ≡ budget) }
        ensures counts { IfOk result (λ c. c.counts ≡ net.counts) }
        ensures pauses { IfOk result (λ c. c.pauses ≡ net.pauses) }
        ensures home { IfOk result AreAllHome }
        ensures fault { IfErr result (λ f. f.net ≡ net) }
    {
        let mut net = net;
        let mut spare: Spare<B> = match reserve(alloc, &net.program, &mut net.streams.ports) {
            Ok(spare) => spare,
            Err(_) => return Err(CaseFault { net }),
        };
        fill(&net.program, &mut spare.queues, &net.streams);
        bring_home(
            &mut spare.homes,
            &mut spare.limits,
            &mut net.bodies,
            &mut net.streams.ports,
        );
        let Streams {
            ports,
            writers,
            offered,
            taken,
        } = net.streams;
        Ok(Case {
            program: net.program,
            input: net.input,
            budget,
            homes: spare.homes,
            queues: spare.queues,
            taken,
            offered,
            counts: net.counts,
            pauses: net.pauses,
            listed: spare.listed,
            cursor: 0,
            joined,
            pace: Pace::new(),
            writers,
            fed_by_self: net.fed_by_self,
            bodies: net.bodies,
            ports,
        })
    }

    /// A case of a new net, from which no instance is out. It reserves all that `claim` and `commit` need, except in the lists
    /// of the tokens that a stream carried. Without memory the net comes back.
    pub fn new(alloc: Global, net: Net<B>, budget: u64) -> Result<Case<B>, CaseFault<B>>
        requires new { IsNew net }
        requires budget { budget ≤ 1000000000000 }
        ensures program { IfOk result (λ c. c.program ≡ net.program) }
        ensures input { IfOk result (λ c. c.input ≡ net.input) }
        ensures budget { IfOk result (λ c. c.budget ≡ budget) }
        ensures counts { IfOk result (λ c. c.counts ≡ net.counts) }
        ensures pauses { IfOk result (λ c. c.pauses ≡ net.pauses) }
        ensures home { IfOk result AreAllHome }
        ensures fault { IfErr result (λ f. f.net ≡ net) }
    {
        Case::of(alloc, net, budget, 0)
    }

    /// Makes a case of a net that has run for some time and whose instances were all asked whether they can continue. The instances that are waited for can make
    /// `left` more ticks of the budget. The case has the same properties as the case of a new net.
    pub fn again(
        alloc: Global,
        net: Net<B>,
        budget: u64,
        left: u64,
    ) -> Result<Case<B>, CaseFault<B>>
        requires budget { budget ≤ 1000000000000 }
        requires within { IsWithin net budget left }
        requires answered { AreAnswered net }
        ensures program { IfOk result (λ c. c.program ≡ net.program) }
        ensures input { IfOk result (λ c. c.input ≡ net.input) }
        ensures budget { IfOk result (λ c. c.budget ≡ budget) }
        ensures counts { IfOk result (λ c. c.counts ≡ net.counts) }
        ensures pauses { IfOk result (λ c. c.pauses ≡ net.pauses) }
        ensures home { IfOk result AreAllHome }
        ensures fault { IfErr result (λ f. f.net ≡ net) }
    {
        Case::of(alloc, net, budget, budget - left)
    }
}
