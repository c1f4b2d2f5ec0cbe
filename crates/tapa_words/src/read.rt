// Reads the words of a command: the name of the command, and then what its items ask for.
ghost use Rattle.std.specs.Prelude.{IfOk, IfErr};
ghost use Rattle.tapa_words.specs.Words.{texts, Asks, IsInRange};
ghost use Rattle.tapa_words.specs.Reading.{command_of};
ghost use Rattle.tapa_words.specs.Meaning.{command, WordsAnswer, IsRefusedBy};

use crate::build::read_build;
use crate::command::{Command, WordsFault};
use crate::cosim::{read_cosim, read_vcd};
use crate::generate::read_gen;
use crate::item::{are_each_once, read_items};
use crate::plan::read_plan;
use crate::run::read_run;
use crate::verb::Verb;
use std::alloc::Global;

// The command that words are read as.
fn read_command<'a>(alloc: Global, words: &'a [String]) -> Result<Command<'a>, WordsFault>
    ensures asked { WordsAnswer command result (command_of (texts words.now)) }
    ensures range { IfOk result (λ asked. IsInRange (command asked)) }
{
    let (verb, rest) = match words {
        [name, rest @ ..] => (Verb::named(name.as_str()), rest),
        [] => return Err(WordsFault::Usage),
    };
    let verb = match verb {
        Some(verb) => verb,
        None => return Err(WordsFault::Usage),
    };
    let items = read_items(alloc, verb, rest)?;
    if !are_each_once(items.as_slice()) {
        return Err(WordsFault::Usage);
    }
    match verb {
        Verb::Running => read_run(alloc, items.as_slice()),
        Verb::Building => read_build(alloc, items.as_slice()),
        Verb::Planning => read_plan(alloc, items.as_slice()),
        Verb::Simulating => read_cosim(alloc, items.as_slice()),
        Verb::Showing => read_vcd(alloc, items.as_slice()),
        Verb::Generating => read_gen(alloc, items.as_slice()),
    }
}

/// Reads the words of a command, without the program's name. `Usage` comes exactly where they are no command; want of memory may
/// come in place of any answer.
pub fn read_words<'a>(alloc: Global, words: &'a [String]) -> Result<Command<'a>, WordsFault>
    ensures asked { IfOk result (λ asked. Asks (texts words.now) (command asked)) }
    ensures range { IfOk result (λ asked. IsInRange (command asked)) }
    ensures refused { IfErr result (IsRefusedBy (texts words.now)) }
{
    read_command(alloc, words)
}
