//! Kahn's rounds of a program, computed as they are defined: slow, and of use beside a faster engine.

ghost use Rattle.std.specs.Prelude.{◌≡◌, ℕ, ◌<◌, length, slice_get, flat_map, option_to_list, [], ◌∷◌, ◌++◌, IfOk, IsErrOf};
ghost use Rattle.kahn_model.specs.declared.tick.Tick.TheVariants.{End};
ghost use Rattle.tapa_syntax.specs.declared.program.Stream.{Stream};
ghost use Rattle.tapa_syntax.specs.WellFormed.{IsWellFormed};
ghost use Rattle.kahn_model.specs.Behavior.{ticks};
ghost use Rattle.kahn_model.specs.Fits.{ScalarsFit, FitsInput};
ghost use Rattle.kahn_model.specs.Network.{put_on, stream};
ghost use Rattle.kahn_model.specs.ProgramNetwork.{end_of, instance_job};
ghost use Rattle.kahn_reference.specs.Kept.{TokensFit};
ghost use Rattle.kahn_reference.specs.Slow.{whole};
ghost use Rattle.kahn_model.specs.Rows.{rows_of};
ghost use Rattle.kahn_model.specs.Start.{instance_state, network_of};

use crate::first::{first_variables, scalars_fit};
use crate::slow::{Fault, trace};
use kahn_model::tick::{Action, Tick};
use std::alloc::{AllocError, Global};
use tapa_base::Token;
use tapa_syntax::Program;

// The tick of an instance that has no leaf.
fn end_alone(alloc: Global) -> Result<Vec<Tick>, AllocError>
    ensures { IfOk result (λ v. v.items ≡ End ∷ []) }
{
    let mut ticks = Vec::new(alloc);
    ticks.push(Tick::End)?;
    Ok(ticks)
}

// The ticks of an instance on whole lists, one for each stream of the program.
fn instance_ticks(
    alloc: Global,
    program: &Program,
    scalars: &[u64],
    memories: &[Vec<u64>],
    i: u32,
    n: u64,
    lists: &[Vec<Token>],
) -> Result<Vec<Tick>, Fault>
    requires { ScalarsFit program.now scalars.now }
    ensures ticks { IfOk result (λ v. v.items ≡ ticks (instance_job program.now.bodies.items (slice_get program.now.instances.items i)
        (instance_state program.now scalars.now (rows_of memories.now) (slice_get program.now.instances.items i)) n) (whole lists.now)) }
    ensures fault { IsWellFormed program.now → FitsInput program.now scalars.now (rows_of memories.now) → TokensFit program.now lists.now → IsErrOf result Fault.NotOfItsKind → ⊥ }
{
    match program.instances.get(i as usize) {
        None => Ok(end_alone(alloc)?),
        Some(instance) => match program.bodies.get(instance.body as usize) {
            None => Ok(end_alone(alloc)?),
            Some(leaf) => {
                let state = first_variables(alloc, program, scalars, memories, instance, leaf)?;
                let (ticks, _trace_end) = trace(alloc, leaf, &instance.streams, state, n, lists)?;
                Ok(ticks)
            }
        },
    }
}

// The token that a tick puts on stream s.
fn put_by(tick: Tick, s: usize) -> Option<Token>
    ensures { option_to_list result ≡ put_on s tick }
{
    match tick {
        Tick::Did(Action::Put(r, token)) => { if r as usize == s { Some(token) } else { None } }
        _ => None,
    }
}

fn push_put(tokens: &mut Vec<Token>, tick: Tick, s: usize) -> Result<(), AllocError>
    ensures { IfOk result (λ u. tokens.new.items ≡ tokens.old.items ++ put_on s tick) }
{
    if let Some(token) = put_by(tick, s) {
        tokens.push(token)?;
    }
    Ok(())
}

// The tokens that ticks put on stream s.
fn puts_on(alloc: Global, ticks: &[Tick], s: usize) -> Result<Vec<Token>, AllocError>
    ensures { IfOk result (λ v. v.items ≡ flat_map (put_on s) ticks.now) }
{
    let mut tokens = Vec::new(alloc);
    for tick in ticks {
        push_put(&mut tokens, *tick, s)?;
    }
    Ok(tokens)
}

fn producer_of(program: &Program, s: usize) -> u32
    ensures { result ≡ end_of (λ (r : Stream). r.producer) (slice_get program.now.streams.items s) }
{
    match program.streams.get(s) {
        Some(stream) => stream.producer,
        None => 0,
    }
}

// What a stream has in the round after `lists`, with n tests of each loop.
fn next_stream(
    alloc: Global,
    program: &Program,
    scalars: &[u64],
    memories: &[Vec<u64>],
    s: usize,
    n: u64,
    lists: &[Vec<Token>],
) -> Result<Vec<Token>, Fault>
    requires { ScalarsFit program.now scalars.now }
    ensures tokens { IfOk result (λ v. v.items ≡ flat_map (put_on s)
        (ticks ((network_of program.now scalars.now (rows_of memories.now)).job ((network_of program.now scalars.now (rows_of memories.now)).producer s) n)
        (whole lists.now))) }
    ensures fault { IsWellFormed program.now → FitsInput program.now scalars.now (rows_of memories.now) → TokensFit program.now lists.now → IsErrOf result Fault.NotOfItsKind → ⊥ }
{
    let ticks = instance_ticks(
        alloc,
        program,
        scalars,
        memories,
        producer_of(program, s),
        n,
        lists,
    )?;
    Ok(puts_on(alloc, &ticks, s)?)
}

fn push_list(lists: &mut Vec<Vec<Token>>, list: Vec<Token>) -> Result<(), AllocError>
    ensures { IfOk result (λ u. lists.new.items ≡ lists.old.items ++ list ∷ []) }
{
    lists.push(list)?;
    Ok(())
}

// The streams in the round after `lists`.
fn next_round(
    alloc: Global,
    program: &Program,
    scalars: &[u64],
    memories: &[Vec<u64>],
    n: u64,
    lists: &[Vec<Token>],
) -> Result<Vec<Vec<Token>>, Fault>
    requires { ScalarsFit program.now scalars.now }
    ensures many { IfOk result (λ r. length r.items ≡ length program.now.streams.items) }
    ensures each { IfOk result (λ r. (s : ℕ) → s < length program.now.streams.items
        → whole r.items s ≡ flat_map (put_on s)
        (ticks ((network_of program.now scalars.now (rows_of memories.now)).job ((network_of program.now scalars.now (rows_of memories.now)).producer s) n)
        (whole lists.now))) }
    ensures fault { IsWellFormed program.now → FitsInput program.now scalars.now (rows_of memories.now) → TokensFit program.now lists.now → IsErrOf result Fault.NotOfItsKind → ⊥ }
{
    let mut next = Vec::new(alloc);
    for s in 0..program.streams.len() {
        let tokens = next_stream(alloc, program, scalars, memories, s, n, lists)?;
        push_list(&mut next, tokens)?;
    }
    Ok(next)
}

// No token on any of `count` streams.
fn no_tokens(alloc: Global, count: usize) -> Result<Vec<Vec<Token>>, AllocError>
    ensures { IfOk result (λ r. (s : ℕ) → whole r.items s ≡ []) }
{
    let mut lists = Vec::new(alloc);
    for _stream in 0..count {
        lists.push(Vec::new(alloc))?;
    }
    Ok(lists)
}

/// What every stream of a program has in round n of Kahn's iteration, given the values of the top task's scalars and the
/// first cells of its memories. Each round runs the producer of each stream again from its start, so this is slow. A
/// well-formed program gets its rounds on each input that fits, where memory suffices; `NotOfItsKind` comes to others alone.
pub fn streams(
    alloc: Global,
    program: &Program,
    scalars: &[u64],
    memories: &[Vec<u64>],
    n: u64,
) -> Result<Vec<Vec<Token>>, Fault>
    ensures rounds { IsWellFormed program.now → IfOk result (λ r. (s : ℕ) → whole r.items s ≡ stream (network_of program.now scalars.now (rows_of memories.now)) n s) }
    ensures fault { IsWellFormed program.now → FitsInput program.now scalars.now (rows_of memories.now) → IsErrOf result Fault.NotOfItsKind → ⊥ }
{
    if !scalars_fit(program, scalars) {
        return Err(Fault::NotOfItsKind);
    }
    let mut lists = no_tokens(alloc, program.streams.len())?;
    for round in 0..n {
        lists = next_round(alloc, program, scalars, memories, round + 1, &lists)?;
    }
    Ok(lists)
}
