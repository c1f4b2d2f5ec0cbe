// The wires of all states, and the atoms of their indices and values.

ghost use Rattle.std.specs.Prelude.{◌≡◌, ◌<◌, IfOk};
ghost use Rattle.hw_build.specs.Elements.{with_all};
ghost use Rattle.hw_build.specs.Scope.{each};
ghost use Rattle.hw_lines.specs.Shape.{state_count};
ghost use Rattle.hw_lines.specs.States.{state_wires};
ghost use Rattle.hw_states.specs.Operands.{AreOperands, IsOperands};
ghost use Rattle.hw_nets.specs.Shapes.{form};

use crate::states::add_state;
use hw_build::Draft;
use hw_nets::Shape;
use std::alloc::{AllocError, Global};
use vlog_tree::Atom;

/// The atoms of a state's index and value.
#[derive(Drop)]
pub struct Operands {
    pub index: Atom,
    pub value: Atom,
}

/// Adds the wires of all states, and returns the atoms of their indices and values.
pub fn add_states(
    alloc: Global,
    draft: &mut Draft,
    shape: &Shape,
) -> Result<Vec<Operands>, AllocError>
    ensures draft { IfOk result (λ v. draft.new ≡ with_all draft.old (each (state_wires (form shape.now)) (state_count (form shape.now)))) }
    ensures operands { IfOk result (λ v. AreOperands (form shape.now) v.items (state_count (form shape.now))) }
{
    let mut operands = Vec::new(alloc);
    let count = shape.state_count()?;
    for k in 0..count {
        operands.push(add_state(alloc, draft, shape, k)?)?;
    }
    Ok(operands)
}
