// The top call: does what the words of a command ask for with the given files, outputs and threads, and answers the status.
ghost use Rattle.std.specs.Prelude.{◌≡◌, Option, option_map};
ghost use Rattle.tapa_words.specs.Meaning.{command as command_in};
ghost use Rattle.tapa_words.specs.Words.{texts, IsInRange};
ghost use Rattle.command_answers.specs.Ends.{IsCarriedOut};
ghost use Rattle.command_answers.specs.Files.{data_held, name_in};
ghost use Rattle.command_answers.specs.Meaning.{end_of};
ghost use Rattle.command_answers.specs.Outside.{written, outside};
ghost use Rattle.command_answers.specs.Told.{name_for};
ghost use Rattle.tapa_drive.specs.Answer.{IsAnswer, IsDecided};
ghost use Rattle.tapa_drive.specs.Means.{held_of, Means};

use crate::words::refuse_words;
use command_answers::{File, Refusal, Status, tell};
use command_build::build_source;
use command_cosim::cosim_text;
use command_gen::put_network;
use command_plan::plan_source;
use command_run::run_source;
use command_vcd::show_net;
use coro_threads::{Crew, Gate};
use std::alloc::Global;
use std::sync::Wait;
use std::thread::Threads;
use tapa_files::{Shelf, Sink};
use tapa_words::{Command, read_words};

// Carries a command out, up to the first step that refuses.
fn carry_out<R: Threads + Wait + Sync, S: Shelf, O: Sink, G: Gate>(
    rt: &R,
    alloc: Global,
    command: Command<'_>,
    shelf: &mut S,
    out: &mut O,
    gate: &G,
) -> Result<(), Refusal>
    requires { IsInRange (command_in command) }
    ensures { IsCarriedOut (held_of (command_in command.entry)) (Means (command_in command.entry))
        (outside S.Shelf O.Sink shelf.old out.old) (outside S.Shelf O.Sink shelf.new out.new) (end_of result) }
{
    match command {
        Command::Run {
            source,
            top,
            data,
            workers,
            limit,
        } => {
            let crew = Crew { rt, gate, workers };
            run_source(&crew, alloc, source, top, data, limit, shelf, out)
        }
        Command::Build { source, top } => build_source(alloc, source, top, shelf, out),
        Command::Plan {
            source,
            top,
            device,
            mode,
            aim,
        } => plan_source(alloc, source, top, device, mode, aim, shelf, out),
        Command::Cosim {
            text,
            data,
            limit,
            aim,
        } => cosim_text(alloc, text, data, limit, aim, shelf, out),
        Command::Vcd { file, net } => show_net(alloc, file, net, shelf, out),
        Command::Gen { layers, workers } => {
            let crew = Crew { rt, gate, workers };
            put_network(&crew, alloc, layers, out)
        }
    }
}

// The name of data in messages.
fn name_of_data<'a>(named: Option<&'a str>) -> &'a str
    ensures { result.now ≡ name_in (data_held (option_map (λ file. file.now) named.entry)) }
{
    match named {
        Some(name) => name,
        None => "{}",
    }
}

// The name in messages of a file that a command reads, and nothing of one that it does not.
fn name_of<'a>(command: Command<'a>, file: File) -> &'a str
    ensures { result.now ≡ name_in (held_of (command_in command.entry) file) }
{
    match (command, file) {
        (Command::Run { source, .. }, File::Source) => source,
        (Command::Run { data, .. }, File::Data) => name_of_data(data),
        (Command::Build { source, .. }, File::Source) => source,
        (Command::Plan { source, .. }, File::Source) => source,
        (Command::Plan { device, .. }, File::Device) => device,
        (Command::Cosim { text, .. }, File::Text) => text,
        (Command::Cosim { data, .. }, File::Data) => name_of_data(data),
        (Command::Vcd { file, .. }, File::Dump) => file,
        (Command::Gen { .. }, File::Source) => "gen",
        _ => "",
    }
}

// The name in the lines of a refusal.
fn shown<'a>(command: Command<'a>, refused: Option<File>) -> &'a str
    ensures { result.now ≡ name_for (held_of (command_in command.entry)) refused }
{
    match refused {
        Some(file) => name_of(command, file),
        None => "",
    }
}

// The program, with what a command came to and how that is told.
fn answer<R: Threads + Wait + Sync, S: Shelf, O: Sink, E: Sink, G: Gate>(
    rt: &R,
    alloc: Global,
    words: &[String],
    shelf: &mut S,
    out: &mut O,
    err: &mut E,
    gate: &G,
) -> Status
    ensures answer { IsAnswer (texts words.now) (outside S.Shelf O.Sink shelf.old out.old) (outside S.Shelf O.Sink shelf.new out.new) (written E.Sink err.old) (written E.Sink err.new) result }
    ensures ok_err { result ≡ Status.Ok → err.new ≡ err.old }
{
    match read_words(alloc, words) {
        Ok(command) => match carry_out(rt, alloc, command, shelf, out, gate) {
            Ok(()) => Status::Ok,
            Err(refusal) => tell(alloc, shown(command, refusal.file()), &refusal, err),
        },
        Err(fault) => refuse_words(fault, err),
    }
}

/// The program: the words of a command, without the program's name; the files that it reads; and what it writes to. The
/// workers of `run` and `gen` are threads of the runtime, and pass the gate before they make ticks.
pub fn tapa<R: Threads + Wait + Sync, S: Shelf, O: Sink, E: Sink, G: Gate>(
    rt: &R,
    alloc: Global,
    words: &[String],
    shelf: &mut S,
    out: &mut O,
    err: &mut E,
    gate: &G,
) -> Status
    // A command that the words ask for was carried out, and how it ended is told: the text that it came to is on the output, or a part of
    // it where a write or memory failed; or a refusal. No other file was read than those that are asked for in the order of its work.
    ensures answer { IsAnswer (texts words.now) (outside S.Shelf O.Sink shelf.old out.old) (outside S.Shelf O.Sink shelf.new out.new) (written E.Sink err.old) (written E.Sink err.new) result }
    ensures ok_err { result ≡ Status.Ok → err.new ≡ err.old }
    // Where nothing outside fails, what the command comes to by its files is told whole: or memory ran out.
    ensures decided { IsDecided (texts words.now) (outside S.Shelf O.Sink shelf.old out.old) (outside S.Shelf O.Sink shelf.new out.new) (written E.Sink err.old) (written E.Sink err.new) result }
{
    answer(rt, alloc, words, shelf, out, err, gate)
}
