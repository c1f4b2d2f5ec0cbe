// Numbers of the nets and memories of a module in one cycle, looked up by name.

ghost use Rattle.std.specs.Prelude.{◌≡◌, ◌<◌, ◌^◌, length, get_or, nat_lt, if◌then◌else◌};
ghost use Rattle.std.specs.Option.{option_copied};
ghost use Rattle.vlog_values.specs.Numbers.{first_net, first_memory, net_in, bits_in, cells_in};

use tapa_base::Text;

/// A net: its name, its width in bits and its number.
#[derive(Drop)]
pub struct NetNumber {
    pub name: Text,
    pub bits: u32,
    pub number: u128,
}

/// A memory: its name and the numbers of its cells.
#[derive(Drop)]
pub struct MemoryCells {
    pub name: Text,
    pub cells: Vec<u128>,
}

/// The first net of a name.
pub fn find_net<'a>(nets: &'a [NetNumber], name: &Text) -> Option<&'a NetNumber>
    ensures { option_copied result ≡ first_net nets.now name.now }
{
    for n in nets {
        if n.name.bytes() == name.bytes() {
            return Some(n);
        }
    }
    None
}

/// The first memory of a name.
pub fn find_memory<'a>(memories: &'a [MemoryCells], name: &Text) -> Option<&'a MemoryCells>
    ensures { option_copied result ≡ first_memory memories.now name.now }
{
    for m in memories {
        if m.name.bytes() == name.bytes() {
            return Some(m);
        }
    }
    None
}

/// A cell, 0 past the end.
pub fn cell_at(cells: &[u128], at: u128) -> u128
    ensures { result ≡ (if nat_lt at (length cells.now) then get_or cells.now at 0 else 0) }
{
    if at < cells.len() as u128 {
        cells[at as usize]
    } else {
        0
    }
}

/// The number of the first net of a name, 0 where there is none.
pub fn number_in(nets: &[NetNumber], name: &Text) -> u128
    ensures { result ≡ net_in nets.now name.now }
{
    match find_net(nets, name) {
        Some(n) => n.number,
        None => 0,
    }
}

/// The width of the first net of a name, 0 where there is none.
pub(crate) fn width_in(nets: &[NetNumber], name: &Text) -> u32
    ensures { result ≡ bits_in nets.now name.now }
{
    match find_net(nets, name) {
        Some(n) => n.bits,
        None => 0,
    }
}

/// A cell of a memory, 0 past its end and where there is none.
pub(crate) fn cell_in(memories: &[MemoryCells], memory: &Text, at: u128) -> u128
    ensures { result ≡ (if nat_lt at (length (cells_in memories.now memory.now)) then get_or (cells_in memories.now memory.now) at 0 else 0) }
{
    match find_memory(memories, memory) {
        Some(m) => cell_at(&m.cells, at),
        None => 0,
    }
}
