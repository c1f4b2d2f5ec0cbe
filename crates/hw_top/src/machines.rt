// The machines of a program's leaf tasks.

ghost use Rattle.std.specs.Prelude.{IfOk};
ghost use Rattle.tapa_syntax.specs.WellFormed.{IsWellFormed};
ghost use Rattle.hw_top_lines.specs.Legal.{AreMachinesOf};

use std::alloc::Global;
use tapa_base::{OutOfMemory, narrow};
use tapa_syntax::Program;
use task_fsm::{Fsm, lower};

/// The machine of each leaf task of a program, in order.
pub fn machines_of(alloc: Global, program: &Program) -> Result<Vec<Fsm>, OutOfMemory>
    requires { IsWellFormed program.now }
    ensures { IfOk result (λ machines. AreMachinesOf program.now machines.items) }
{
    let count = narrow(program.bodies.len())?;
    let mut machines = Vec::new(alloc);
    for b in 0..count {
        let machine = lower(alloc, program, b)?;
        machines.push(machine)?;
    }
    Ok(machines)
}
