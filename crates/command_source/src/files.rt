// The files that several commands read: a source, and data.
ghost use Rattle.std.specs.Prelude.{◌≡◌, ◌≤◌, All, IfOk, IfErr, length, map, option_map};
ghost use Rattle.tapa_base.specs.Fits.{Fits};
ghost use Rattle.tapa_syntax.specs.WellFormed.{IsWellFormed};
ghost use Rattle.tapa_syntax.specs.OwnNames.{HasOwnNames};
ghost use Rattle.run_data.specs.Answer.{IsDataOf, bits_of_ports};
ghost use Rattle.command_answers.specs.Files.{Named, Asks, data_held};
ghost use Rattle.command_answers.specs.Meaning.{end_at};
ghost use Rattle.command_answers.specs.Outside.{store};
ghost use Rattle.command_answers.specs.Steps.{Fails, Took};
ghost use Rattle.command_source.specs.Means.{IsSourceFault, IsDataFault};
ghost use Rattle.command_source.specs.Source.{IsProgramOf};

use crate::program::read_program;
use command_answers::{File, Refusal, read_file};
use run_data::{Data, read_data};
use std::alloc::Global;
use tapa_base::Shape;
use tapa_files::Shelf;
use tapa_syntax::Program;

// The data where no file is named.
const NO_DATA: &str = "{}";

/// The program of a source on a shelf.
pub fn read_source<S: Shelf>(
    alloc: Global,
    source: &str,
    top: &str,
    shelf: &mut S,
) -> Result<Program, Refusal>
    ensures took { Took (store S.Shelf shelf.old) (store S.Shelf shelf.new) File.Source (Named source.now) (IsSourceFault top.now) (λ text program. IsProgramOf text top.now program) result }
    ensures well_formed { IfOk result (λ program. IsWellFormed program) }
    ensures names { IfOk result (λ program. HasOwnNames program) }
    ensures asks { Asks (store S.Shelf shelf.old) (store S.Shelf shelf.new) (Named source.now) }
{
    let text = read_file(alloc, File::Source, source, shelf)?;
    let program = read_program(alloc, &text, top)?;
    Ok(program)
}

// The data that a text gives for a shape.
fn given_by(alloc: Global, text: &[u8], shape: &Shape) -> Result<Data, Refusal>
    requires scalars { All (λ port. port.bits ≤ 64) shape.now.scalars.items }
    requires memories { All (λ port. port.bits ≤ 64) shape.now.memories.items }
    ensures gives { IfOk result (λ given. IsDataOf text.now shape.now given) }
    ensures fits { IfOk result (λ given. Fits (bits_of_ports shape.now.scalars.items) (bits_of_ports shape.now.memories.items) given.scalars.items
        (map (λ cells. cells.items) given.memories.items)) }
    ensures waits { IfOk result (λ given. length given.waits.items ≡ length shape.now.memories.items) }
    ensures refused { IfErr result (λ refusal. Fails (IsDataFault (λ s. s ≡ shape.now) text.now) (end_at refusal)) }
{
    let given = read_data(alloc, text, shape)?;
    Ok(given)
}

/// The data that a file on a shelf gives for a shape, and an empty object where no file is named.
pub fn read_given<S: Shelf>(
    alloc: Global,
    named: Option<&str>,
    shape: &Shape,
    shelf: &mut S,
) -> Result<Data, Refusal>
    requires scalars { All (λ port. port.bits ≤ 64) shape.now.scalars.items }
    requires memories { All (λ port. port.bits ≤ 64) shape.now.memories.items }
    ensures took { Took (store S.Shelf shelf.old) (store S.Shelf shelf.new) File.Data (data_held (option_map (λ file. file.now) named.entry)) (IsDataFault (λ s. s ≡ shape.now))
        (λ bytes given. IsDataOf bytes shape.now given) result }
    ensures fits { IfOk result (λ given. Fits (bits_of_ports shape.now.scalars.items) (bits_of_ports shape.now.memories.items) given.scalars.items
        (map (λ cells. cells.items) given.memories.items)) }
    ensures waits { IfOk result (λ given. length given.waits.items ≡ length shape.now.memories.items) }
    ensures asks { Asks (store S.Shelf shelf.old) (store S.Shelf shelf.new) (data_held (option_map (λ file. file.now) named.entry)) }
{
    match named {
        None => given_by(alloc, NO_DATA.as_bytes(), shape),
        Some(file) => {
            let text = read_file(alloc, File::Data, file, shelf)?;
            given_by(alloc, &text, shape)
        }
    }
}
