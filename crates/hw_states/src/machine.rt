// A task's machine with the atoms of its states.

ghost use Rattle.std.specs.Prelude.{◌<◌};
ghost use Rattle.hw_lines.specs.Shape.{state_count};
ghost use Rattle.hw_states.specs.Operands.{AreOperands, IsOperands};
ghost use Rattle.hw_nets.specs.Shapes.{form};

use crate::operands::Operands;
use hw_nets::Shape;

/// The shape of a task's machine, and the atoms of its states' indices and values.
#[derive(Clone, Copy)]
pub struct Machine<'a> {
    pub shape: Shape<'a>,
    pub operands: &'a [Operands],
    pub ghost are: { AreOperands (form shape) operands.now (state_count (form shape)) },
}

impl<'a> Machine<'a> {
    /// The atoms of one state.
    pub fn operands_of(&self, k: u32) -> &'a Operands
        requires { k < state_count (form self.now.shape) }
        ensures { IsOperands (form self.now.shape) k result.now }
    {
        &self.operands[k as usize]
    }
}
