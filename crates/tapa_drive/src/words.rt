// What is reported where the words of a command could not be read.
ghost use Rattle.std.specs.Prelude.{[]};
ghost use Rattle.command_answers.specs.Outside.{written};
ghost use Rattle.command_answers.specs.Told.{IsToldAs};
ghost use Rattle.tapa_drive.specs.Answer.{words_end};

use command_answers::{Status, report_no_memory, report_usage};
use tapa_files::Sink;
use tapa_words::WordsFault;

/// Reports why the words of a command could not be read, before there is anything to carry out: they are no text, or memory
/// ran out while they were copied.
pub fn refuse_words<E: Sink>(fault: WordsFault, err: &mut E) -> Status
    ensures { IsToldAs [] (words_end fault) result (written E.Sink err.old) (written E.Sink err.new) }
{
    match fault {
        WordsFault::Usage => report_usage(err),
        WordsFault::OutOfMemory => report_no_memory(err),
    }
}
