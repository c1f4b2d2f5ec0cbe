// The cells of a memory after the ticks that its instance has made, and what a report shows of them.
ghost use Rattle.std.specs.Prelude.{ℕ, ◌≡◌, ◌<◌, ◌≤◌, List, [], length, slice_get, slice_index_or, Some, IfOk, MatchOption};
ghost use Rattle.kahn_model.specs.Cells.{cells_at};
ghost use Rattle.net_core.specs.Bounded.{scalars_of, memories_of, values_of};
ghost use Rattle.net_core.specs.State.{count};
ghost use Rattle.net_core.specs.Bindings.{detached_at};
ghost use Rattle.run_program.specs.Run.{hides_stores, cells_shown, IsNotBound};
ghost use Rattle.kahn_model.specs.Cells.{owner_of};

use coro_machine::Coro;
use net_core::{Input, Net, is_detached};
use run_data::Last;
use tapa_base::{OutOfMemory, position_of};
use tapa_syntax::Program;

// The position at which a memory is bound. A number beyond 32 bits is answered as want of memory.
fn bound_position(bound: &[u32], m: usize) -> Result<Option<u32>, OutOfMemory>
    ensures { IfOk result (λ found. MatchOption found (IsNotBound bound.now m) (λ p. slice_get bound.now p ≡ Some m)) }
{
    let Ok(number) = u32::try_from(m) else {
        return Err(OutOfMemory);
    };
    let Some(position) = position_of(bound, number) else {
        return Ok(None);
    };
    match u32::try_from(position) {
        Ok(position) => Ok(Some(position)),
        Err(_) => Err(OutOfMemory),
    }
}

// The first cells of a memory.
fn first_cells(input: &Input, m: usize) -> &[u64]
    ensures { result.now ≡ slice_index_or (memories_of input.now) m [] }
{
    match input.memories.get(m) {
        Some(cells) => cells.as_slice(),
        None => &[],
    }
}

// The cells of memory `m` of a program: the first ones, after the stores of the instance that it is bound to.
fn last_cells<'a>(
    program: &Program,
    input: &'a Input,
    net: &'a Net<Coro>,
    m: usize,
) -> Result<&'a [u64], OutOfMemory>
    requires program { program.now ≡ net.now.program }
    requires input { input.now ≡ net.now.input }
    requires few { length program.now.instances.items ≤ 512 }
    requires memory { m < length program.now.memories.items }
    ensures { IfOk result (λ cells. cells.now ≡ cells_at program.now (scalars_of input.now) (memories_of input.now) (count net.now) m) }
{
    net.valid();
    let owner = program.memories[m].owner;
    let Some(instance) = program.instances.get(owner as usize) else {
        return Ok(first_cells(input, m));
    };
    match bound_position(&instance.memories, m)? {
        None => Ok(first_cells(input, m)),
        Some(position) => Ok(net.body(owner).memory(position)),
    }
}

// Whether the instance that a memory is bound to is detached.
fn is_of_detached(program: &Program, m: usize) -> bool
    requires { m < length program.now.memories.items }
    ensures { result ≡ detached_at program.now (owner_of (slice_get program.now.memories.items m)) }
{
    let owner = program.memories[m].owner;
    let Some(instance) = program.instances.get(owner as usize) else {
        return false;
    };
    instance.detached
}

// Whether a report with this last line shows a memory without the stores of its instance.
fn hides_stores(program: &Program, last: Last, m: usize) -> bool
    requires { m < length program.now.memories.items }
    ensures { result ≡ hides_stores program.now last m }
{
    match last {
        Last::Done(_) => is_of_detached(program, m),
        Last::Stopped(_) => false,
        Last::Running(_) => false,
    }
}

/// What a report with this last line shows of memory `m`.
pub(crate) fn shown_cells<'a>(
    program: &Program,
    input: &'a Input,
    net: &'a Net<Coro>,
    last: Last,
    m: usize,
) -> Result<&'a [u64], OutOfMemory>
    requires program { program.now ≡ net.now.program }
    requires input { input.now ≡ net.now.input }
    requires few { length program.now.instances.items ≤ 512 }
    requires memory { m < length program.now.memories.items }
    ensures { IfOk result (λ cells. cells.now ≡ cells_shown program.now (values_of input.now) (count net.now) last m) }
{
    if hides_stores(program, last, m) {
        return Ok(first_cells(input, m));
    }
    last_cells(program, input, net, m)
}
