// Reads the words of `gen`: the number of layers of the generated network, and the number of workers.
ghost use Rattle.std.specs.Prelude.{map, IfOk};
ghost use Rattle.tapa_words.specs.Words.{command_by, IsInRange};
ghost use Rattle.tapa_words.specs.declared.verb.Verb.TheVariants.{Generating};
ghost use Rattle.tapa_words.specs.Meaning.{command, item, WordsAnswer};

use crate::command::{Command, WordsFault};
use crate::item::{Item, positional_words, value};
use crate::number::{number_within, workers_by};
use std::alloc::Global;

/// The most layers of the generated network.
const MOST_LAYERS: u64 = 126;

/// `gen N [--workers W]`, by its items.
pub(crate) fn read_gen<'a>(alloc: Global, items: &[Item<'a>]) -> Result<Command<'a>, WordsFault>
    ensures asked { WordsAnswer command result (command_by Generating (map item items.now)) }
    ensures range { IfOk result (λ asked. IsInRange (command asked)) }
{
    let words = positional_words(alloc, items)?;
    let workers = match workers_by(value("--workers", items)) {
        Some(workers) => workers,
        None => return Err(WordsFault::Usage),
    };
    let word = match words.as_slice() {
        [word] => *word,
        _ => return Err(WordsFault::Usage),
    };
    match number_within(0, MOST_LAYERS, word) {
        Some(layers) => Ok(Command::Gen {
            layers: layers as u32,
            workers,
        }),
        None => Err(WordsFault::Usage),
    }
}
