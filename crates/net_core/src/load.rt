// The ports of an instance, loaded from the streams before a call and read after it.

ghost use Rattle.std.specs.Prelude.{ℕ, ◌≡◌, ◌<◌, ◌≤◌, ◌-◌, ◌++◌, length, drop, replicate, slice_get, slice_index, Some, false, true, IfOk, is_ok, if◌then◌else◌};
ghost use Rattle.net_core.specs.declared.ports.Ports.{Ports};
ghost use Rattle.net_core.specs.Ports.{IsReloaded, ends_in, carried_of, waiting_of, room_of, port_count, kind_at};
ghost use Rattle.net_core.specs.Bindings.{IsConnected, arity, ends_at, stream_at, Reads, Writes, producer_of, consumer_of, depth_of};
ghost use Rattle.net_core.specs.Load.{IsIn, AreBelow, AreListed, AreKept, AreLoaded, IsLoaded, IsOffered, Reloads, ChangesTaken, AreWoken, AreNeighbours, HasPorts, HasTables, list_at};
ghost use Rattle.net_core.specs.Ties.{IsTie, AreTies};

use crate::bindings::{arity, consumer, producer, stream_at, writes_at};
use crate::ports::Ports;
use crate::streams::Streams;
use crate::ties::{Tie, is_writing};
use std::alloc::Global;
use tapa_base::{OutOfMemory, Token};
use tapa_syntax::Program;

// Appends the tokens of a list from an index on to another list.
fn extended(tokens: &mut Vec<Token>, list: &[Token], from: usize) -> Result<(), OutOfMemory>
    requires { from ≤ length list.now }
    ensures items { tokens.new.items ≡ (if is_ok result then tokens.old.items ++ drop from list.now else tokens.old.items) }
{
    tokens.extend_from_slice(&list[from..])?;
    Ok(())
}

// Offers an instance the tokens that a stream got which it writes itself.
fn offer_own(
    alloc: Global,
    all: &mut Vec<Ports>,
    i: usize,
    p: usize,
    q: usize,
    from: usize,
) -> Result<(), OutOfMemory>
    requires reader { i < length all.old.items }
    requires port { (x : Ports) → slice_get all.old.items i ≡ Some x → p < port_count x }
    requires other_port { (x : Ports) → slice_get all.old.items i ≡ Some x → q < port_count x }
    requires from { from ≤ length (carried_of all.old.items i q) }
    requires kind { (x : Ports) → slice_get all.old.items i ≡ Some x → kind_at x q ≡ kind_at x p }
    ensures reloaded { IsReloaded all.old.items i p all.new.items }
    ensures waits { waiting_of all.new.items i p ≡ (if is_ok result then waiting_of all.old.items i p ++ drop from (carried_of all.old.items i q) else waiting_of all.old.items i p) }
{
    let (mut tokens, head) = all[i].lift(p, Vec::new(alloc));
    let grown = extended(&mut tokens, all[i].carried(q), from);
    all[i].offer(p, tokens, head);
    grown
}

// Offers the tokens that a stream got since its reader's port was last loaded.
fn offer_more(
    alloc: Global,
    all: &mut Vec<Ports>,
    i: usize,
    p: usize,
    j: usize,
    q: usize,
    from: usize,
) -> Result<(), OutOfMemory>
    requires reader { i < length all.old.items }
    requires port { (x : Ports) → slice_get all.old.items i ≡ Some x → p < port_count x }
    requires writer { j < length all.old.items }
    requires other_port { (x : Ports) → slice_get all.old.items j ≡ Some x → q < port_count x }
    requires from { from ≤ length (carried_of all.old.items j q) }
    requires kind { (x y : Ports) → slice_get all.old.items i ≡ Some x → slice_get all.old.items j ≡ Some y → kind_at y q ≡ kind_at x p }
    ensures reloaded { IsReloaded all.old.items i p all.new.items }
    ensures waits { waiting_of all.new.items i p ≡ (if is_ok result then waiting_of all.old.items i p ++ drop from (carried_of all.old.items j q) else waiting_of all.old.items i p) }
{
    if i < j {
        let (low, high) = all.split_at_mut(j);
        return low[i].offer_more(p, &high[0].carried(q)[from..]);
    }
    if j < i {
        let (low, high) = all.split_at_mut(i);
        return high[0].offer_more(p, &low[j].carried(q)[from..]);
    }
    offer_own(alloc, all, i, p, q, from)
}

// Makes room at a port that writes.
fn load_writer(
    program: &Program,
    all: &mut Vec<Ports>,
    taken: &Vec<usize>,
    tie: &Tie,
    i: usize,
    p: usize,
) -> Result<(), OutOfMemory>
    requires connected { IsConnected program.now }
    requires tie { IsTie program.now i p tie.now }
    requires ends { ends_in all.old.items i ≡ ends_at program.now i }
    requires taken_len { length taken.now.items ≡ length program.now.streams.items }
    requires ports_len { length all.old.items ≡ length program.now.instances.items }
    requires instance { i < length program.now.instances.items }
    requires writes { Writes program.now i p }
    ensures reloaded { IsReloaded all.old.items i p all.new.items }
    ensures room { IfOk result (λ _. room_of all.new.items i p ≡ depth_of program.now (stream_at program.now i p) -
        (length (carried_of all.old.items i p) - slice_index taken.now.items (stream_at program.now i p))) }
{
    let len = all[i].carried(p).len();
    let queue = len.saturating_sub(taken[tie.stream]);
    let room = tie.depth.saturating_sub(queue);
    all[i].make_room(p, room)
}

impl Streams {
    // Loads a port that reads.
    fn load_reader(
        &mut self,
        alloc: Global,
        program: &Program,
        tie: &Tie,
        i: usize,
        p: usize,
    ) -> Result<(), OutOfMemory>
        requires connected { IsConnected program.now }
        requires ports { HasPorts program.now self.old }
        requires tie { IsTie program.now i p tie.now }
        requires instance { i < length program.now.instances.items }
        requires reads { Reads program.now i p }
        ensures reloaded { Reloads program.now i p self.old self.new }
        ensures offers { IsOffered program.now i p self.old self.new }
        ensures whole { IfOk result (λ _. slice_index self.new.offered.items (stream_at program.now i p) ≡ length (list_at program.now self.old (stream_at program.now i p))) }
    {
        let total = self.ports[tie.producer].carried(tie.position).len();
        let from = self.offered[tie.stream];
        if from < total {
            offer_more(
                alloc,
                &mut self.ports,
                i,
                p,
                tie.producer,
                tie.position,
                from,
            )?;
            self.offered[tie.stream] = total;
        }
        Ok(())
    }

    // Loads one port.
    fn load_port(
        &mut self,
        alloc: Global,
        program: &Program,
        tie: &Tie,
        i: usize,
        p: usize,
    ) -> Result<(), OutOfMemory>
        requires connected { IsConnected program.now }
        requires ports { HasPorts program.now self.old }
        requires tie { IsTie program.now i p tie.now }
        requires instance { i < length program.now.instances.items }
        requires position { p < arity program.now i }
        ensures reloaded { Reloads program.now i p self.old self.new }
        ensures ports { HasPorts program.now self.new }
        ensures loaded { IfOk result (λ _. IsLoaded program.now i p self.old self.new) }
    {
        if is_writing(program, tie, i, p) {
            load_writer(program, &mut self.ports, &self.taken, tie, i, p)
        } else {
            self.load_reader(alloc, program, tie, i, p)
        }
    }

    /// Loads the ports of an instance.
    pub fn load_ports(
        &mut self,
        alloc: Global,
        program: &Program,
        ties: &Vec<Tie>,
        i: usize,
    ) -> Result<(), OutOfMemory>
        requires connected { IsConnected program.now }
        requires ports { HasPorts program.now self.old }
        requires instance { i < length program.now.instances.items }
        requires as_many { length ties.now.items ≡ arity program.now i }
        requires ties { AreTies program.now i ties.now.items }
        ensures kept { AreKept self.old self.new }
        ensures ports { HasPorts program.now self.new }
        ensures loaded { IfOk result (λ _. AreLoaded program.now (arity program.now i) i self.old self.new) }
    {
        for p in 0..ties.len() {
            self.load_port(alloc, program, &ties[p], i, p)?;
        }
        Ok(())
    }

    // Takes over what an instance took at one port.
    fn count_taken_at(&mut self, program: &Program, tie: &Tie, i: usize, p: usize)
        requires connected { IsConnected program.now }
        requires tables { HasTables program.now self.old }
        requires tie { IsTie program.now i p tie.now }
        requires instance { i < length program.now.instances.items }
        requires position { p < arity program.now i }
        requires enough { Reads program.now i p → length (waiting_of self.old.ports.items i p) ≤ slice_index self.old.offered.items (stream_at program.now i p) }
        ensures same { ChangesTaken self.old self.new }
        ensures took { Reads program.now i p → slice_index self.new.taken.items (stream_at program.now i p)
            ≡ slice_index self.old.offered.items (stream_at program.now i p) - length (waiting_of self.old.ports.items i p) }
        ensures others { (s : ℕ) → (Reads program.now i p → s ≡ stream_at program.now i p → ⊥) → slice_index self.new.taken.items s ≡ slice_index self.old.taken.items s }
    {
        if is_writing(program, tie, i, p) {
            return;
        }
        self.taken[tie.stream] = self.offered[tie.stream] - self.ports[i].left(p);
    }

    /// Takes over what an instance took from its ports.
    pub fn count_taken(&mut self, program: &Program, ties: &Vec<Tie>, i: usize)
        requires connected { IsConnected program.now }
        requires tables { HasTables program.now self.old }
        requires instance { i < length program.now.instances.items }
        requires as_many { length ties.now.items ≡ arity program.now i }
        requires ties { AreTies program.now i ties.now.items }
        requires enough { (p : ℕ) → Reads program.now i p → length (waiting_of self.old.ports.items i p) ≤ slice_index self.old.offered.items (stream_at program.now i p) }
        ensures same { ChangesTaken self.old self.new }
        ensures took { (p : ℕ) → Reads program.now i p → slice_index self.new.taken.items (stream_at program.now i p)
            ≡ slice_index self.old.offered.items (stream_at program.now i p) - length (waiting_of self.old.ports.items i p) }
        ensures others { (s : ℕ) → ((p : ℕ) → Reads program.now i p → stream_at program.now i p ≡ s → ⊥) → slice_index self.new.taken.items s ≡ slice_index self.old.taken.items s }
    {
        for p in 0..ties.len() {
            self.count_taken_at(program, &ties[p], i, p);
        }
    }
}

// The instance at the other end of a port's stream.
fn other_end(program: &Program, i: usize, p: usize) -> usize
    requires connected { IsConnected program.now }
    requires instance { i < length program.now.instances.items }
    requires position { p < arity program.now i }
    ensures inside { result < length program.now.instances.items }
    ensures reader { Writes program.now i p → result ≡ consumer_of program.now (stream_at program.now i p) }
    ensures writer { Reads program.now i p → result ≡ producer_of program.now (stream_at program.now i p) }
{
    let s = stream_at(program, i, p);
    if writes_at(program, i, p) {
        consumer(program, s)
    } else {
        producer(program, s)
    }
}

// Puts an instance on a list, where it is not there.
fn enlist(later: &mut Vec<usize>, listed: &mut Vec<bool>, j: usize) -> Result<(), OutOfMemory>
    requires inside { j < length listed.old.items }
    requires listed { AreListed listed.old.items later.old.items }
    ensures listed { AreListed listed.new.items later.new.items }
    ensures listed_len { length listed.new.items ≡ length listed.old.items }
    ensures kept { (x : ℕ) → IsIn x later.old.items → IsIn x later.new.items }
    ensures below { (m : ℕ) → AreBelow m later.old.items → j < m → AreBelow m later.new.items }
    ensures there { IfOk result (λ _. IsIn j later.new.items) }
{
    if !listed[j] {
        later.push(j)?;
        listed[j] = true;
    }
    Ok(())
}

/// Puts an instance on a list, where it is to be and is not there.
pub fn enlist_if(
    wanted: bool,
    later: &mut Vec<usize>,
    listed: &mut Vec<bool>,
    j: usize,
) -> Result<(), OutOfMemory>
    requires inside { j < length listed.old.items }
    requires listed { AreListed listed.old.items later.old.items }
    ensures listed { AreListed listed.new.items later.new.items }
    ensures listed_len { length listed.new.items ≡ length listed.old.items }
    ensures kept { (x : ℕ) → IsIn x later.old.items → IsIn x later.new.items }
    ensures below { (m : ℕ) → AreBelow m later.old.items → j < m → AreBelow m later.new.items }
    ensures there { IfOk result (λ _. wanted ≡ true → IsIn j later.new.items) }
{
    if wanted {
        enlist(later, listed, j)?;
    }
    Ok(())
}

// Puts the other ends of an instance's streams on a list, each once.
fn list_other_ends(
    program: &Program,
    later: &mut Vec<usize>,
    listed: &mut Vec<bool>,
    i: usize,
) -> Result<(), OutOfMemory>
    requires connected { IsConnected program.now }
    requires instance { i < length program.now.instances.items }
    requires below { AreBelow (length program.now.instances.items) later.old.items }
    requires listed_len { length listed.old.items ≡ length program.now.instances.items }
    requires listed { AreListed listed.old.items later.old.items }
    ensures below { AreBelow (length program.now.instances.items) later.new.items }
    ensures listed_len { length listed.new.items ≡ length listed.old.items }
    ensures listed { AreListed listed.new.items later.new.items }
    ensures kept { (x : ℕ) → IsIn x later.old.items → IsIn x later.new.items }
    ensures woken { IfOk result (λ _. (p : ℕ) → AreWoken program.now i p later.new.items) }
{
    for p in 0..arity(program, i) {
        enlist(later, listed, other_end(program, i, p))?;
    }
    Ok(())
}

// No instance is listed.
fn none_listed(alloc: Global, n: usize) -> Result<Vec<bool>, OutOfMemory>
    ensures { IfOk result (λ v. v.items ≡ replicate n false) }
{
    Ok(vec![in alloc; false; n]?)
}

/// The instances at the other ends of an instance's streams, each once.
pub fn neighbours(alloc: Global, program: &Program, i: usize) -> Result<Vec<usize>, OutOfMemory>
    requires connected { IsConnected program.now }
    requires instance { i < length program.now.instances.items }
    ensures { IfOk result (λ near. AreNeighbours program.now i near.items) }
{
    let mut near = Vec::new(alloc);
    let mut listed = none_listed(alloc, program.instances.len())?;
    list_other_ends(program, &mut near, &mut listed, i)?;
    Ok(near)
}

/// Puts the neighbours of an instance on a list, each once.
pub fn wake(
    near: &Vec<usize>,
    later: &mut Vec<usize>,
    listed: &mut Vec<bool>,
) -> Result<(), OutOfMemory>
    requires inside { AreBelow (length listed.old.items) near.now.items }
    requires listed { AreListed listed.old.items later.old.items }
    ensures below { (m : ℕ) → AreBelow m near.now.items → AreBelow m later.old.items → AreBelow m later.new.items }
    ensures listed_len { length listed.new.items ≡ length listed.old.items }
    ensures listed { AreListed listed.new.items later.new.items }
    ensures kept { (x : ℕ) → IsIn x later.old.items → IsIn x later.new.items }
    ensures woken { IfOk result (λ _. (x : ℕ) → IsIn x near.now.items → IsIn x later.new.items) }
{
    for x in 0..near.len() {
        enlist(later, listed, near[x])?;
    }
    Ok(())
}
