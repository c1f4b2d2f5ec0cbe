// What a file of data gives a program.
ghost use Rattle.std.specs.Prelude.{◌≡◌, ◌≤◌, List, All, map, IfOk, IfErr};
ghost use Rattle.tapa_syntax.specs.declared.program.Memory.{Memory};
ghost use Rattle.tapa_syntax.specs.declared.program.Scalar.{Scalar};
ghost use Rattle.kahn_model.specs.Fits.{FitsInput};
ghost use Rattle.net_core.specs.Bounded.{scalars_of, memories_of, values_of};
ghost use Rattle.command_source.specs.Inputs.{GivesValues, IsUnfitBy};
ghost use Rattle.tapa_syntax.specs.Shapes.{port_of, IsShapeOf};

use net_core::Input;
use run_data::{Data, DataFault, read_data};
use std::alloc::Global;
use tapa_base::{Kind, OutOfMemory, Port, Shape, Text};
use tapa_syntax::{Memory, Program, Scalar};

/// The input that a text of data gives a program, or the first fault that it has.
pub fn read_input(alloc: Global, program: &Program, text: &[u8]) -> Result<Input, DataFault>
    ensures gives { IfOk result (λ input. GivesValues program.now text.now (values_of input)) }
    ensures fits { IfOk result (λ input. FitsInput program.now (scalars_of input) (memories_of input)) }
    ensures refused { IfErr result (IsUnfitBy program.now text.now) }
{
    let shape = match program.shape(alloc) {
        Ok(shape) => shape,
        Err(_) => return Err(DataFault::OutOfMemory),
    };
    match read_data(alloc, text, &shape) {
        Ok(
            Data {
                scalars,
                memories,
                ..
            },
        ) => Ok(Input { scalars, memories }),
        Err(fault) => Err(fault),
    }
}
