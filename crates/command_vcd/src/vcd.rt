// What the dump of a file shows of one net.
ghost use Rattle.std.specs.Prelude.{◌≡◌, ◌<◌, ◌-◌, ◌^◌, ℕ, List, length, IfOk, IfErr};
ghost use Rattle.vcd_text.specs.NetLines.{IsNetShown};
ghost use Rattle.command_answers.specs.Ends.{IsCarriedOut};
ghost use Rattle.command_answers.specs.Files.{Named, Asks};
ghost use Rattle.command_answers.specs.Meaning.{end_at, end_of};
ghost use Rattle.command_answers.specs.Outside.{store, outside};
ghost use Rattle.command_answers.specs.Steps.{Fails, Took};
ghost use Rattle.command_vcd.specs.Means.{IsDumpFault, MeansVcd, files_of_vcd};

use command_answers::{DumpFault, File, Refusal, read_file};
use std::alloc::Global;
use tapa_files::{Shelf, Sink, put_all};
use vcd_text::{VcdFault, net_text, place_of, read_vcd};

// The lines of a net of a dump.
fn lines_in(alloc: Global, net: &str, text: &[u8]) -> Result<Vec<u8>, Refusal>
    requires { length text.now < 2 ^ 32 - 1 }
    ensures shown { IfOk result (λ told. IsNetShown text.now net.now told.items) }
    ensures refused { IfErr result (λ refusal. Fails (IsDumpFault net.now text.now) (end_at refusal)) }
{
    let dump = match read_vcd(alloc, text) {
        Ok(dump) => dump,
        Err(VcdFault::X1(place)) => return Err(Refusal::Dump(DumpFault::NoDump(place))),
        Err(VcdFault::OutOfMemory) => return Err(Refusal::Memory),
    };
    let place = match place_of(&dump.nets, net.as_bytes()) {
        Some(place) => place,
        None => {
            let name = Vec::from_slice(alloc, net.as_bytes())?;
            return Err(Refusal::Dump(DumpFault::NoNet { name }));
        }
    };
    let told = net_text(alloc, &dump.changes, place)?;
    Ok(told)
}

// The lines of a net of the dump of a file on a shelf.
fn read_lines<S: Shelf>(
    alloc: Global,
    file: &str,
    net: &str,
    shelf: &mut S,
) -> Result<Vec<u8>, Refusal>
    ensures took { Took (store S.Shelf shelf.old) (store S.Shelf shelf.new) File.Dump (Named file.now) (IsDumpFault net.now) (λ text told. IsNetShown text net.now told.items) result }
    ensures asks { Asks (store S.Shelf shelf.old) (store S.Shelf shelf.new) (Named file.now) }
{
    let text = read_file(alloc, File::Dump, file, shelf)?;
    lines_in(alloc, net, &text)
}

/// Writes the values of a net of the dump of a file, up to the first step that refuses.
pub fn show_net<S: Shelf, O: Sink>(
    alloc: Global,
    file: &str,
    net: &str,
    shelf: &mut S,
    out: &mut O,
) -> Result<(), Refusal>
    ensures { IsCarriedOut (files_of_vcd file.now) (MeansVcd net.now) (outside S.Shelf O.Sink shelf.old out.old) (outside S.Shelf O.Sink shelf.new out.new) (end_of result) }
{
    let told = read_lines(alloc, file, net, shelf)?;
    put_all(out, &told)?;
    Ok(())
}
