// The instances of a program as coroutines before their first ticks.
ghost use Rattle.std.specs.Prelude.{ℕ, ◌≡◌, ◌<◌, [], length, IfOk};
ghost use Rattle.tapa_syntax.specs.WellFormed.{IsWellFormed};
ghost use Rattle.kahn_model.specs.Fits.{FitsInput};
ghost use Rattle.net_core.specs.Bounded.{instance_job, scalars_of, memories_of};
ghost use Rattle.coro_machine.specs.Coro.{IsCoroOf};
ghost use Rattle.run_program.specs.Started.{AreLowered, AreStarted};

use coro_machine::{Coro, Machine};
use kahn_model::start::{bound_values, first_cells};
use net_core::Input;
use std::alloc::Global;
use std::sync::Arc;
use tapa_base::OutOfMemory;
use tapa_syntax::Program;
use task_fsm::lower;

/// The machine of each leaf task with its flat code, which its instances share. A program with more leaves than 32 bits number is answered as
/// want of memory.
pub(crate) fn machines(alloc: Global, program: &Program) -> Result<Vec<Arc<Machine>>, OutOfMemory>
    ensures as_many { IfOk result (λ all. length all.items ≡ length program.now.bodies.items) }
    ensures lowered { IfOk result (λ all. AreLowered program.now (length program.now.bodies.items) all.items) }
{
    let mut all = Vec::new(alloc);
    for body in 0..program.bodies.len() {
        let Ok(number) = u32::try_from(body) else {
            return Err(OutOfMemory);
        };
        let fsm = lower(alloc, program, number)?;
        let machine = Machine::new(alloc, fsm)?;
        all.push(Arc::new(alloc, machine)?)?;
    }
    Ok(all)
}

// An instance before its first tick.
fn start_one(
    alloc: Global,
    program: &Program,
    input: &Input,
    machines: &[Arc<Machine>],
    i: usize,
) -> Result<Coro, OutOfMemory>
    requires well_formed { IsWellFormed program.now }
    requires fits { FitsInput program.now (scalars_of input.now) (memories_of input.now) }
    requires as_many { length machines.now ≡ length program.now.bodies.items }
    requires lowered { AreLowered program.now (length program.now.bodies.items) machines.now }
    requires instance { i < length program.now.instances.items }
    ensures { IfOk result (λ c. IsCoroOf c (instance_job program.now input.now i) []) }
{
    let instance = &program.instances[i];
    let machine = machines[instance.body as usize].clone()?;
    let scalars = bound_values(alloc, program, &input.scalars, instance)?;
    let memories = first_cells(alloc, &input.memories, &instance.memories)?;
    let coroutine = Coro::new(alloc, machine, &scalars, memories)?;
    Ok(coroutine)
}

/// The instances of a program on an input, each before its first tick.
pub(crate) fn coroutines(
    alloc: Global,
    program: &Program,
    input: &Input,
) -> Result<Vec<Coro>, OutOfMemory>
    requires well_formed { IsWellFormed program.now }
    requires fits { FitsInput program.now (scalars_of input.now) (memories_of input.now) }
    ensures as_many { IfOk result (λ all. length all.items ≡ length program.now.instances.items) }
    ensures first { IfOk result (λ all. AreStarted program.now input.now (length program.now.instances.items) all.items) }
{
    let machines = machines(alloc, program)?;
    let mut all = Vec::new(alloc);
    for i in 0..program.instances.len() {
        all.push(start_one(alloc, program, input, &machines, i)?)?;
    }
    Ok(all)
}
