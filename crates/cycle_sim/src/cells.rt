// Cells of memories, inside a design and around it.

ghost use Rattle.std.specs.Prelude.{◌≡◌, ◌↔◌, ◌≤◌, ◌==◌, ℕ, IsTrue, [], Some, false, length, get_or, slice_get, if◌then◌else◌};
ghost use Rattle.vlog_tree.specs.Environment.{set_cell as set_cell_lem};
ghost use Rattle.sim_tape.specs.Operators.{cells_of};
ghost use Rattle.cycle_sim.specs.declared.cells.Outside.{Outside as OutsideTree};
ghost use Rattle.cycle_sim.specs.Steps.{put_list, stored_list, stored_all, outside_list, is_made as is_made_lem, is_written as is_written_lem};
ghost use Rattle.cycle_sim.specs.Writes.{AreUnmade, AreUnwritten};

use crate::slots::{is_one, number};
use sim_gates::Store;
use sim_tape::Pair;

/// A memory around the design: the pairs and the slot of its ports.
#[derive(Clone, Copy)]
pub struct Outside {
    pub ack: Pair,
    pub we: Pair,
    pub addr: Pair,
    pub wdata: u32,
}

fn set_cell(cells: &mut Vec<u64>, at: usize, n: u64)
    ensures { cells.new.items ≡ set_cell_lem cells.old.items at n }
{
    if at < cells.len() {
        cells[at] = n;
    }
}

fn put_cell(cells: &mut [Vec<u64>], memory: usize, at: usize, n: u64)
    ensures { (m : ℕ) → get_or (cells_of cells.new) m [] ≡ put_list memory at n m (get_or (cells_of cells.old) m []) }
{
    if memory < cells.len() {
        set_cell(&mut cells[memory], at, n);
    }
}

// Checks whether a store is made in a cycle.
fn is_made(numbers: &[u64], store: &Store) -> bool
    ensures { result ≡ is_made_lem numbers.now store.now }
{
    number(numbers, store.on) == 1 && number(numbers, store.at.high) == 0
}

fn store(numbers: &[u64], store: &Store, cells: &mut [Vec<u64>])
    ensures { (m : ℕ) → get_or (cells_of cells.new) m [] ≡ stored_list numbers.now store.now m (get_or (cells_of cells.old) m []) }
{
    if is_made(numbers, store) {
        let at = number(numbers, store.at.low) as usize;
        put_cell(
            cells,
            store.memory.low as usize,
            at,
            number(numbers, store.value.low),
        );
        put_cell(
            cells,
            store.memory.high as usize,
            at,
            number(numbers, store.value.high),
        );
    }
}

// Makes the stores of a cycle, in the order of the text.
fn store_all(numbers: &[u64], stores: &[Store], cells: &mut [Vec<u64>])
    ensures { (m : ℕ) → get_or (cells_of cells.new) m [] ≡ stored_all numbers.now m (get_or (cells_of cells.old) m []) stores.now }
{
    for s in stores {
        store(numbers, s, cells);
    }
}

// Checks whether a memory around the design is written in a cycle.
fn is_written(numbers: &[u64], o: &Outside) -> bool
    ensures { result ≡ is_written_lem numbers.now o.now }
{
    is_one(numbers, o.ack) && is_one(numbers, o.we) && number(numbers, o.addr.high) == 0
}

fn ask(numbers: &[u64], o: &Outside, place: usize, cells: &mut [Vec<u64>])
    ensures { (m : ℕ) → get_or (cells_of cells.new) m [] ≡ (if m == place then outside_list numbers.now o.now (get_or (cells_of cells.old) m []) else get_or (cells_of cells.old) m []) }
{
    if is_written(numbers, o) {
        let at = number(numbers, o.addr.low) as usize;
        put_cell(cells, place, at, number(numbers, o.wdata));
    }
}

// Makes the writes of a cycle to the memories around the design, each at its index.
fn ask_all(numbers: &[u64], outside: &[Outside], cells: &mut [Vec<u64>])
    ensures asked { (i : ℕ) (o : OutsideTree) → slice_get outside.now i ≡ Some o → get_or (cells_of cells.new) i [] ≡ outside_list numbers.now o (get_or (cells_of cells.old) i []) }
    ensures kept { (m : ℕ) → length outside.now ≤ m → get_or (cells_of cells.new) m [] ≡ get_or (cells_of cells.old) m [] }
{
    for i in 0..outside.len() {
        ask(numbers, &outside[i], i, cells);
    }
}

fn no_store_is_made(numbers: &[u64], stores: &[Store]) -> bool
    ensures { IsTrue result ↔ AreUnmade numbers.now stores.now }
{
    for store in stores {
        if is_made(numbers, store) {
            return false;
        }
    }
    true
}

fn no_memory_is_written(numbers: &[u64], outside: &[Outside]) -> bool
    ensures { IsTrue result ↔ AreUnwritten numbers.now outside.now }
{
    for o in outside {
        if is_written(numbers, o) {
            return false;
        }
    }
    true
}

// Checks whether no cell is written in a cycle.
fn no_cell_is_written(numbers: &[u64], stores: &[Store], outside: &[Outside]) -> bool
    ensures stores { IsTrue result → AreUnmade numbers.now stores.now }
    ensures outside { IsTrue result → AreUnwritten numbers.now outside.now }
    ensures all { AreUnmade numbers.now stores.now → AreUnwritten numbers.now outside.now → IsTrue result }
{
    if !no_store_is_made(numbers, stores) {
        return false;
    }
    no_memory_is_written(numbers, outside)
}

/// Makes the stores of a cycle and the writes to the memories around the design, each at its index. Returns whether there is any.
pub fn write_all(
    numbers: &[u64],
    stores: &[Store],
    outside: &[Outside],
    cells: &mut [Vec<u64>],
) -> bool
    ensures asked { (i : ℕ) (o : OutsideTree) → slice_get outside.now i ≡ Some o
        → get_or (cells_of cells.new) i [] ≡ outside_list numbers.now o (stored_all numbers.now i (get_or (cells_of cells.old) i []) stores.now) }
    ensures behind { (m : ℕ) → length outside.now ≤ m → get_or (cells_of cells.new) m [] ≡ stored_all numbers.now m (get_or (cells_of cells.old) m []) stores.now }
    ensures none { result ≡ false → cells.new ≡ cells.old }
    ensures unmade { result ≡ false → AreUnmade numbers.now stores.now }
    ensures unwritten { result ≡ false → AreUnwritten numbers.now outside.now }
{
    if no_cell_is_written(numbers, stores, outside) {
        return false;
    }
    store_all(numbers, stores, cells);
    ask_all(numbers, outside, cells);
    true
}
