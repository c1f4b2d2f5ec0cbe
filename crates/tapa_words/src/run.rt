// Reads the words of `run`: the source, the top task, the data, the number of workers and the limit of ticks.
ghost use Rattle.std.specs.Prelude.{◌≡◌, ◌≤◌, Some, map, option_map, IfOk};
ghost use Rattle.std.specs.Option.{IfSome};
ghost use Rattle.tapa_words.specs.Words.{command_by, run_by, most_limit, most_workers, IsInRange};
ghost use Rattle.tapa_words.specs.declared.verb.Verb.TheVariants.{Running};
ghost use Rattle.tapa_words.specs.Meaning.{command, item, WordsAnswer};

use crate::command::{Command, WordsFault};
use crate::item::{Item, positional_words, value};
use crate::number::{value_within, workers_by};
use std::alloc::Global;

const DEFAULT_LIMIT: u64 = 100_000_000;

/// The greatest limit of ticks or cycles that the words may give.
pub(crate) const MOST_LIMIT: u64 = 1_000_000_000_000;

// `SRC TOP [DATA]`, by this number of workers, with a limit.
fn run_of<'a>(words: &[&'a str], workers: u32, limit: u64) -> Option<Command<'a>>
    requires least { 1 ≤ workers }
    requires most { workers ≤ most_workers }
    requires limit { limit ≤ most_limit }
    ensures asked { option_map command result ≡ run_by (map (λ word. word.now) words.now) (Some workers) (Some limit) }
    ensures range { IfSome result (λ asked. IsInRange (command asked)) }
{
    let (source, top, data) = match words {
        [source, top] => (*source, *top, None),
        [source, top, data] => (*source, *top, Some(*data)),
        _ => return None,
    };
    Some(Command::Run {
        source,
        top,
        data,
        workers,
        limit,
    })
}

/// `run SRC TOP [DATA] [--workers W] [--steps N]`, by its items.
pub(crate) fn read_run<'a>(alloc: Global, items: &[Item<'a>]) -> Result<Command<'a>, WordsFault>
    ensures asked { WordsAnswer command result (command_by Running (map item items.now)) }
    ensures range { IfOk result (λ asked. IsInRange (command asked)) }
{
    let words = positional_words(alloc, items)?;
    let workers = match workers_by(value("--workers", items)) {
        Some(workers) => workers,
        None => return Err(WordsFault::Usage),
    };
    let limit = match value_within(DEFAULT_LIMIT, 1, MOST_LIMIT, value("--steps", items)) {
        Some(limit) => limit,
        None => return Err(WordsFault::Usage),
    };
    match run_of(words.as_slice(), workers, limit) {
        Some(asked) => Ok(asked),
        None => Err(WordsFault::Usage),
    }
}
