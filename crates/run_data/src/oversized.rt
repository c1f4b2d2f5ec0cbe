// The first memory in a data file that has more cells than the limits allow, of its own or with those before it.
ghost use Rattle.std.specs.Prelude.{◌≡◌, filter, option_map, nat_lt, IfOk};
ghost use Rattle.std.specs.Option.{option_copied};
ghost use Rattle.serde_json.specs.View.{view};
ghost use Rattle.run_data.specs.Data.{cells_in, most_cells_of_one, passing_from, oversized};
ghost use Rattle.run_data.specs.Seen.{first};

use crate::find::group_in;
use crate::group::Group;
use crate::json::{items, member};
use serde_json::Value;
use std::alloc::{AllocError, Global};
use tapa_base::{Port, Shape};

const MOST_CELLS_OF_ONE: usize = 65_536;

const MOST_CELLS_OF_ALL: usize = 1_048_576;

// How many cells a file gives a memory.
fn cells_in(file: &Value, port: &Port) -> usize
    ensures { result ≡ cells_in (view file.now) port.now }
{
    items(member(group_in(Group::Memories, file), port.name.bytes())).len()
}

// The first memory with too many cells of its own.
fn find_too_long<'s>(file: &Value, ports: &'s [Port]) -> Option<&'s Port>
    ensures { option_copied result
        ≡ first (filter (λ port. nat_lt most_cells_of_one (cells_in (view file.now) port)) ports.now) }
{
    for port in ports {
        if cells_in(file, port) > MOST_CELLS_OF_ONE {
            return Some(port);
        }
    }
    None
}

// The memory at which the cells of all are too many.
fn find_passing<'s>(file: &Value, ports: &'s [Port]) -> Option<&'s Port>
    ensures { option_copied result ≡ first (passing_from 0 (view file.now) ports.now) }
{
    let mut room = MOST_CELLS_OF_ALL;
    for port in ports {
        let cells = cells_in(file, port);
        if cells > room {
            return Some(port);
        }
        room -= cells;
    }
    None
}

// The key of the first memory with too many cells.
pub(crate) fn find_oversized(
    alloc: Global,
    file: &Value,
    shape: &Shape,
) -> Result<Option<Vec<u8>>, AllocError>
    ensures { IfOk result (λ key. option_map (λ k. k.items) key ≡ first (oversized shape.now (view file.now))) }
{
    let ports = shape.memories.as_slice();
    if let Some(port) = find_too_long(file, ports) {
        return Ok(Some(Group::Memories.key_of(alloc, port.name.bytes())?));
    }
    match find_passing(file, ports) {
        Some(port) => Ok(Some(Group::Memories.key_of(alloc, port.name.bytes())?)),
        None => Ok(None),
    }
}
