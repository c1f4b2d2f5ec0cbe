// A value and the net that says when it is meant.

ghost use Rattle.std.specs.Prelude.{◌≡◌, ◌++◌, IfOk};
ghost use Rattle.hw_lines.specs.Effects.{entry};
ghost use Rattle.hw_nets.specs.Entries.{entries_in, entry_forms};

use crate::names::name;
use hw_lines::Net;
use std::alloc::{AllocError, Global};
use tapa_base::Text;
use vlog_tree::Atom;

/// A value and the net that says when it is meant.
#[derive(Drop)]
pub struct Entry {
    pub condition: Text,
    pub value: Atom,
}

/// The entry of a condition and a value.
pub fn entry_of(alloc: Global, condition: Net, value: Atom) -> Result<Option<Entry>, AllocError>
    ensures { IfOk result (λ o. entries_in o ≡ entry condition value) }
{
    let condition = name(alloc, condition)?;
    Ok(Some(Entry { condition, value }))
}

/// Adds an entry, if there is one.
pub fn add_found(found: &mut Vec<Entry>, entry: Option<Entry>) -> Result<(), AllocError>
    ensures { IfOk result (λ u. entry_forms found.new.items ≡ entry_forms found.old.items ++ entries_in entry) }
{
    match entry {
        None => Ok(()),
        Some(entry) => {
            found.push(entry)?;
            Ok(())
        }
    }
}
