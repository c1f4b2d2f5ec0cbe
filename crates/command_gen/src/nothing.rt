// What a program runs on where nothing is given, and the environment of its circuit.
ghost use Rattle.std.specs.Prelude.{◌≡◌, [], replicate, length, IfOk};
ghost use Rattle.vlog_design.specs.Environments.{environment_of, lists_of};
ghost use Rattle.net_core.specs.Bounded.{values_of};
ghost use Rattle.command_gen.specs.Nothing.{no_values, no_environment};

use net_core::Input;
use std::alloc::{AllocError, Global};
use tapa_syntax::Program;
use vlog_design::Env;

fn zeros(alloc: Global, count: usize) -> Result<Vec<u64>, AllocError>
    ensures { IfOk result (λ v. v.items ≡ replicate count 0) }
{
    vec![in alloc; 0; count]
}

fn empty_lists<T: Drop>(alloc: Global, count: usize) -> Result<Vec<Vec<T>>, AllocError>
    ensures { IfOk result (λ v. lists_of v.items ≡ replicate count []) }
{
    let mut lists = Vec::new(alloc);
    for i in 0..count {
        let _place = i;
        lists.push(Vec::new(alloc))?;
    }
    Ok(lists)
}

/// An input without a value: each scalar of the program is 0, and each memory has no cells.
pub(crate) fn no_input(alloc: Global, program: &Program) -> Result<Input, AllocError>
    ensures { IfOk result (λ input. values_of input ≡ no_values program.now) }
{
    let scalars = zeros(alloc, program.scalars.len())?;
    let memories = empty_lists(alloc, program.memories.len())?;
    Ok(Input { scalars, memories })
}

/// An environment without a value for the circuit of a program: each scalar is 0, and each memory has no cells and is always ready.
pub(crate) fn no_surroundings(alloc: Global, program: &Program) -> Result<Env, AllocError>
    ensures { IfOk result (λ around. environment_of around ≡ no_environment program.now) }
{
    let scalars = zeros(alloc, program.scalars.len())?;
    let memories = empty_lists(alloc, program.memories.len())?;
    let ready = empty_lists(alloc, program.memories.len())?;
    Ok(Env {
        scalars,
        memories,
        ready,
    })
}
