// What nets are placed by.

ghost use Rattle.std.specs.Prelude.{◌≡◌, get_or};
ghost use Rattle.sim_flat.specs.declared.tables.Source.TheVariants as sources;

use sim_flat::{Flat, Source, Table};
use sim_tape::Pair;
use tapa_base::Port;
use vlog_tree::Module;

/// A flattened design with its modules, the memories inside by numbers of names, and those outside.
#[derive(Drop)]
pub struct Plan<'a> {
    pub flat: &'a Flat,
    pub modules: &'a [Module],
    pub memories: &'a [Option<Pair>],
    pub outside: &'a [Port],
}

/// What the name at an index has its number from.
pub(crate) fn source_at(table: &Table, place: usize) -> Source
    ensures { result ≡ get_or table.now.sources.items place sources.Nothing }
{
    match table.sources.get(place) {
        Some(source) => *source,
        None => Source::Nothing,
    }
}
