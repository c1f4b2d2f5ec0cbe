// The indices of names in a list of declarations, in a tree that is in order of the names: a look-up takes no longer whatever the names
// are. Each name is copied.

ghost use Rattle.std.specs.Prelude.{◌≡◌, ◌<◌, List, ℕ, suc, Some, None, map, drop, length, is_some, IfOk, IfSome, OnOk};
ghost use Rattle.vlog_tree.specs.Table.{declaration_name};
ghost use Rattle.vlog_scope.specs.NameTable.{places_from, with_name};
ghost use Rattle.vlog_scope.specs.Chains.{name_at};
ghost use Rattle.vlog_scope.specs.NamePlaces.{place_by, AreNamePlaces};

use std::alloc::{AllocError, Global};
use std::collections::BTreeMap;
use vlog_tree::Declaration;

/// From a name to the first index at which a list has it, and whether the list has it once more.
pub type OrderedNames = BTreeMap<Vec<u8>, (usize, bool)>;

// Puts a name before those that are there.
fn put_before(
    alloc: Global,
    names: &mut OrderedNames,
    name: &[u8],
    place: usize,
) -> Result<(), AllocError>
    ensures { OnOk result ((x : List ℕ) → place_by names.new x ≡ with_name name.now place (place_by names.old) x) }
{
    let again = names.contains_key(name);
    let key = name.to_vec(alloc)?;
    names.insert(key, (place, again))?;
    Ok(())
}

/// The indices of all declarations.
pub(crate) fn ordered_of(
    alloc: Global,
    declarations: &[Declaration],
) -> Result<OrderedNames, AllocError>
    ensures { IfOk result (AreNamePlaces declarations.now) }
{
    let mut names = BTreeMap::new(alloc);
    let mut left = declarations.len();
    while left > 0 {
        left -= 1;
        put_before(alloc, &mut names, declarations[left].name.bytes(), left)?;
    }
    Ok(names)
}

/// The first index of a name, and whether the list has it once more.
pub(crate) fn place_of(names: &OrderedNames, name: &[u8]) -> Option<(usize, bool)>
    ensures { result ≡ place_by names.now name.now }
{
    names.get(name).copied()
}
