// What the simulator shows of a design.

use crate::shown::{Carried, add_token, push_end, push_memory, push_streams, streams_of};
use cycle_sim::Sim;
use std::alloc::{AllocError, Global};
use tapa_base::Port;
use vlog_design::{Design, Env};

fn add_tokens(alloc: Global, sim: &Sim, streams: &mut [Carried]) -> Result<(), AllocError> {
    let mut place = 0u32;
    for s in streams.iter_mut() {
        if let Some(token) = sim.token(place) {
            add_token(alloc, &mut s.tokens, token)?;
        }
        place = place.saturating_add(1);
    }
    Ok(())
}

fn push_memories(
    alloc: Global,
    to: &mut String,
    memories: &[Port],
    sim: &Sim,
) -> Result<(), AllocError> {
    let mut place = 0u32;
    for memory in memories {
        let mut cells = Vec::new(alloc);
        for cell in sim.memory(place) {
            cells.push(u128::from(*cell))?;
        }
        push_memory(alloc, to, &memory.name, &cells)?;
        place = place.saturating_add(1);
    }
    Ok(())
}

// Goes on until a design is done, for at most `cycles` cycles.
fn run_on(
    alloc: Global,
    sim: &mut Sim,
    streams: &mut [Carried],
    cycles: u32,
) -> Result<(), AllocError> {
    for _cycle in 0..cycles {
        add_tokens(alloc, sim, streams)?;
        if sim.done() || sim.cycle() == u64::MAX {
            break;
        }
        sim.step();
    }
    Ok(())
}

// What a simulator at the first cycle shows. It owns nothing of the design, so that little is dropped at its exits.
fn shown(
    alloc: Global,
    sim: &mut Sim,
    streams: &mut [Carried],
    memories: &[Port],
    cycles: u32,
) -> Result<String, AllocError> {
    run_on(alloc, sim, streams, cycles)?;
    let mut text = String::new(alloc);
    push_streams(&mut text, streams)?;
    push_memories(alloc, &mut text, memories, sim)?;
    push_end(alloc, &mut text, sim.done(), sim.cycle())?;
    Ok(text)
}

/// What the simulator shows until a design is done, for at most `cycles` cycles.
pub(crate) fn simulated(
    alloc: Global,
    design: Design,
    around: &Env,
    fill: u64,
    cycles: u32,
) -> Result<String, AllocError> {
    let mut streams = streams_of(alloc, &design)?;
    let shape = design.shape(alloc)?;
    let mut sim = Sim::new(alloc, design, around, fill)?;
    shown(alloc, &mut sim, &mut streams, &shape.memories, cycles)
}
