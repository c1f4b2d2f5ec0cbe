// Reads the words of `build`: the source, the top task, the device, the mode of the plan, and whether latencies are balanced.
ghost use Rattle.std.specs.Prelude.{map, IfOk};
ghost use Rattle.tapa_words.specs.Words.{command_by, IsInRange};
ghost use Rattle.tapa_words.specs.declared.verb.Verb.TheVariants.{Building};
ghost use Rattle.tapa_words.specs.Meaning.{command, item, WordsAnswer};

use crate::command::{Command, PlanAim, WordsFault};
use crate::item::{Item, positional_words, value};
use crate::plan::mode_by;
use std::alloc::Global;

/// `build SRC TOP [--device DEV] [--plan MODE] [--no-balance]`, by its items.
pub(crate) fn read_build<'a>(alloc: Global, items: &[Item<'a>]) -> Result<Command<'a>, WordsFault>
    ensures asked { WordsAnswer command result (command_by Building (map item items.now)) }
    ensures range { IfOk result (λ asked. IsInRange (command asked)) }
{
    let words = positional_words(alloc, items)?;
    let mode = match mode_by(value("--plan", items)) {
        Some(mode) => mode,
        None => return Err(WordsFault::Usage),
    };
    let (source, top) = match words.as_slice() {
        [source, top] => (*source, *top),
        _ => return Err(WordsFault::Usage),
    };
    let balanced = value("--no-balance", items).is_none();
    match value("--device", items) {
        None => Ok(Command::Build { source, top }),
        Some(device) => Ok(Command::Plan {
            source,
            top,
            device,
            mode,
            aim: PlanAim::Circuit { balanced },
        }),
    }
}
