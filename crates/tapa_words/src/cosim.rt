// Reads the words of `cosim`, for the simulation of a Verilog text, and of `vcd`, for a net of a value change dump.
ghost use Rattle.std.specs.Prelude.{◌≡◌, map, option_map, IfOk};
ghost use Rattle.tapa_words.specs.Words.{command_by, aim_by, IsInRange};
ghost use Rattle.tapa_words.specs.declared.verb.Verb.TheVariants.{Simulating, Showing};
ghost use Rattle.tapa_words.specs.Meaning.{command, item, WordsAnswer};

use crate::command::{Command, CosimAim, WordsFault};
use crate::item::{Item, positional_words, value};
use crate::number::value_within;
use crate::run::MOST_LIMIT;
use std::alloc::Global;

const DEFAULT_CYCLES: u64 = 10_000_000;

// A dump where `--vcd` is given, and else a report.
fn aim(value: Option<&str>) -> CosimAim
    ensures { result ≡ aim_by (option_map (λ text. text.now) value.entry) }
{
    match value {
        Some(_) => CosimAim::Dump,
        None => CosimAim::Report,
    }
}

/// `cosim VTEXT [DATA] [--cycles N] [--vcd]`, by its items.
pub(crate) fn read_cosim<'a>(alloc: Global, items: &[Item<'a>]) -> Result<Command<'a>, WordsFault>
    ensures asked { WordsAnswer command result (command_by Simulating (map item items.now)) }
    ensures range { IfOk result (λ asked. IsInRange (command asked)) }
{
    let words = positional_words(alloc, items)?;
    let limit = match value_within(DEFAULT_CYCLES, 1, MOST_LIMIT, value("--cycles", items)) {
        Some(limit) => limit,
        None => return Err(WordsFault::Usage),
    };
    let aim = aim(value("--vcd", items));
    let (text, data) = match words.as_slice() {
        [text] => (*text, None),
        [text, data] => (*text, Some(*data)),
        _ => return Err(WordsFault::Usage),
    };
    Ok(Command::Cosim {
        text,
        data,
        limit,
        aim,
    })
}

/// `vcd FILE NAME`, by its items.
pub(crate) fn read_vcd<'a>(alloc: Global, items: &[Item<'a>]) -> Result<Command<'a>, WordsFault>
    ensures asked { WordsAnswer command result (command_by Showing (map item items.now)) }
    ensures range { IfOk result (λ asked. IsInRange (command asked)) }
{
    let words = positional_words(alloc, items)?;
    match words.as_slice() {
        [file, net] => Ok(Command::Vcd {
            file: *file,
            net: *net,
        }),
        _ => Err(WordsFault::Usage),
    }
}
