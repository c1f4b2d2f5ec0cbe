// A machine that is being written, from the last state to the first.

ghost use Rattle.std.specs.Prelude.{◌≡◌, ◌+◌, ◌-◌, ◌<◌, ◌++◌, ◌∷◌, [], IfOk, length};
ghost use Rattle.task_fsm.specs.Code.{emit, emit_held};
ghost use Rattle.task_fsm.specs.Draft.{emitted};
ghost use Rattle.task_fsm.specs.Machine.{EndAt, TrapAt, form_of, forms_of};

use crate::machine::{Fsm, State};
use std::alloc::{AllocError, Global};
use tapa_base::Kind;

// What is written so far: the states, the last one first, the number of the state that comes first in time, and the
// registers.
#[derive(Drop)]
pub(crate) struct Emission {
    pub(crate) states: Vec<State>,
    pub(crate) entry: u32,
    pub(crate) regs: Vec<Kind>,
}

// The number of the state before the others, of which there are to be `total` in all.
fn number_before(total: u32, others: usize) -> u32
    ensures { result ≡ total - (others + 1) }
{
    if others < total as usize {
        (total as usize - others - 1) as u32
    } else {
        0
    }
}

// One more state, which leads to the first in time.
pub(crate) fn write_state(draft: &mut Emission, total: u32, state: State) -> Result<(), AllocError>
    ensures { IfOk result (λ u. emitted draft.new ≡ emit total (λ next. form_of state) (emitted draft.old)) }
{
    let number = number_before(total, draft.states.len());
    draft.states.push(state)?;
    draft.entry = number;
    Ok(())
}

// Writes a state that keeps its result in a new register.
pub(crate) fn write_held(
    draft: &mut Emission,
    total: u32,
    kind: Kind,
    state: State,
) -> Result<(), AllocError>
    ensures { IfOk result (λ u. emitted draft.new ≡ emit_held total kind (λ t next. form_of state) (emitted draft.old)) }
{
    let number = number_before(total, draft.states.len());
    draft.states.push(state)?;
    draft.regs.push(kind)?;
    draft.entry = number;
    Ok(())
}

// The number of the first of `size` states that will be before those written.
pub(crate) fn number_of_head(total: u32, others: usize, size: u32) -> u32
    requires { others < 9223372036854775808 }
    ensures { result ≡ total - (others + size) }
{
    let after = others + size as usize;
    if after < total as usize {
        (total as usize - after) as u32
    } else {
        0
    }
}
