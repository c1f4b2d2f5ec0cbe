// The program of a generated network.
ghost use Rattle.std.specs.Prelude.{◌≤◌, IfOk, IfErr};
ghost use Rattle.tapa_syntax.specs.WellFormed.{IsWellFormed};
ghost use Rattle.tapa_syntax.specs.OwnNames.{HasOwnNames};
ghost use Rattle.tapa_words.specs.Words.{most_layers};
ghost use Rattle.command_answers.specs.Meaning.{end_at};
ghost use Rattle.command_answers.specs.Steps.{Fails};
ghost use Rattle.command_source.specs.Means.{IsSourceFault};
ghost use Rattle.command_source.specs.Source.{IsProgramOf};
ghost use Rattle.command_gen.specs.Layers.{network_text, network_top};

use crate::layers::generate;
use command_answers::Refusal;
use command_source::read_program;
use std::alloc::Global;
use tapa_syntax::Program;

// The name of the top task.
const TOP: &str = "Gen";

/// The program of the network of `layers` layers, which is read as a source is.
pub(crate) fn network_program(alloc: Global, layers: u32) -> Result<Program, Refusal>
    requires { layers ≤ most_layers }
    ensures means { IfOk result (IsProgramOf (network_text layers) network_top) }
    ensures well_formed { IfOk result (λ program. IsWellFormed program) }
    ensures names { IfOk result (λ program. HasOwnNames program) }
    ensures refused { IfErr result (λ refusal. Fails (IsSourceFault network_top (network_text layers)) (end_at refusal)) }
{
    let text = generate(alloc, layers)?;
    let program = read_program(alloc, &text, TOP)?;
    Ok(program)
}
