// Reads the words of `plan`: the source, the top task, the device and the mode of the plan, which `build` has too.
ghost use Rattle.std.specs.Prelude.{◌≡◌, map, option_map, IfOk};
ghost use Rattle.tapa_words.specs.Words.{command_by, mode_or, IsInRange};
ghost use Rattle.tapa_words.specs.declared.verb.Verb.TheVariants.{Planning};
ghost use Rattle.tapa_words.specs.Meaning.{command, item, WordsAnswer};

use crate::command::{Command, PlanAim, PlanMode, WordsFault};
use crate::item::{Item, positional_words, value};
use std::alloc::Global;

/// The mode that the value of `--plan` names, or first fit where it is not given.
pub(crate) fn mode_by(value: Option<&str>) -> Option<PlanMode>
    ensures { result ≡ mode_or (option_map (λ text. text.now) value.entry) }
{
    match value {
        None => Some(PlanMode::Fit),
        Some(word) => {
            if word == "exact" {
                Some(PlanMode::Exact)
            } else if word == "fit" {
                Some(PlanMode::Fit)
            } else if word == "split" {
                Some(PlanMode::Split)
            } else {
                None
            }
        }
    }
}

/// `plan SRC TOP DEV [--plan MODE]`, by its items.
pub(crate) fn read_plan<'a>(alloc: Global, items: &[Item<'a>]) -> Result<Command<'a>, WordsFault>
    ensures asked { WordsAnswer command result (command_by Planning (map item items.now)) }
    ensures range { IfOk result (λ asked. IsInRange (command asked)) }
{
    let words = positional_words(alloc, items)?;
    let mode = match mode_by(value("--plan", items)) {
        Some(mode) => mode,
        None => return Err(WordsFault::Usage),
    };
    let (source, top, device) = match words.as_slice() {
        [source, top, device] => (*source, *top, *device),
        _ => return Err(WordsFault::Usage),
    };
    Ok(Command::Plan {
        source,
        top,
        device,
        mode,
        aim: PlanAim::Lines,
    })
}
