// The nets at the other sides of connections.

ghost use Rattle.std.specs.Prelude.{◌≡◌, ◌+◌, ◌<◌, ◌^◌, true, Some, None, ℕ, List, get_or};
ghost use Rattle.vlog_tree.specs.Form.{ModuleTree};
ghost use Rattle.vlog_tree.specs.Flattened.{FlatNet};
ghost use Rattle.vlog_tree.specs.Table.{declared, net_kind_of, net_kind_is_input};
ghost use Rattle.sim_flat.specs.Tables.{IsDrivenByPort};
ghost use Rattle.sim_flat.specs.Edges.{joined_in as joined_lem, base_at as base_lem};
ghost use Rattle.sim_flat.specs.Flat.{IsFlat, IsNetAt, AreJoined, IsLink};

use crate::flat::{Flat, base_at, table_at};

fn sum(a: usize, b: usize) -> Option<usize>
    ensures { a + b < 2 ^ 64 → result ≡ Some (a + b) }
{
    a.checked_add(b)
}

fn first_at(flat: &Flat, instance: usize) -> usize
    ensures { result ≡ get_or flat.now.first_child.items instance 0 }
{
    match flat.first_child.get(instance) {
        Some(first) => *first,
        None => 0,
    }
}

fn joined_at(joined: &[Option<usize>], place: usize) -> Option<usize>
    ensures { result ≡ get_or joined.now place None }
{
    match joined.get(place) {
        Some(net) => *net,
        None => None,
    }
}

// The index of the net that an input is connected to, by the indices of the input and of its instance.
fn joined_in(flat: &Flat, instance: usize, child: usize, port: usize) -> Option<usize>
    ensures { result ≡ joined_lem flat.now instance child port }
{
    match table_at(flat, instance) {
        Some(table) => match table.children.get(child) {
            Some(inside) => joined_at(&inside.joined, port),
            None => None,
        },
        None => None,
    }
}

// The number of the net around an instance that an input of the instance is connected to.
fn number_around(flat: &Flat, around: usize, child: usize, port: usize) -> Option<usize>
    ensures { (q : ℕ) → joined_lem flat.now around child port ≡ Some q → base_lem flat.now around + q < 2 ^ 64 → result ≡ Some (base_lem flat.now around + q) }
{
    match joined_in(flat, around, child, port) {
        Some(net) => sum(base_at(flat, around), net),
        None => None,
    }
}

// The number of a port of the instance with this number plus an offset.
fn number_inside(flat: &Flat, first: usize, child: usize, port: usize) -> Option<usize>
    ensures { first + child < 2 ^ 64 → base_lem flat.now (first + child) + port < 2 ^ 64 → result ≡ Some (base_lem flat.now (first + child) + port) }
{
    match sum(first, child) {
        Some(inside) => sum(base_at(flat, inside), port),
        None => None,
    }
}

/// The number of the net that an input of an instance is connected to.
pub fn net_around(flat: &Flat, instance: usize, place: usize) -> Option<usize>
    ensures { (ms : List ModuleTree) (top : ModuleTree) (n : FlatNet) → IsFlat ms top flat.now → 0 < instance → (h : IsNetAt ms flat.now instance place n)
        → net_kind_is_input (net_kind_of (declared h.tree) n.1) ≡ true → IsLink ms top flat.now n (λ a b. AreJoined ms top a b) result }
{
    let _nets = flat.owners.len();
    match flat.instances.get(instance) {
        Some(row) => number_around(flat, row.around, row.child, place),
        None => None,
    }
}

/// The number of a port of an instance in another, by the indices of both.
pub fn net_inside(flat: &Flat, instance: usize, child: usize, port: usize) -> Option<usize>
    ensures { (ms : List ModuleTree) (top : ModuleTree) (j : ℕ) (n : FlatNet) → IsFlat ms top flat.now → (h : IsNetAt ms flat.now instance j n)
        → IsDrivenByPort ms h.tree j child port → IsLink ms top flat.now n (λ a b. AreJoined ms top b a) result }
{
    let _nets = flat.owners.len();
    let _instances = flat.instances.len();
    number_inside(flat, first_at(flat, instance), child, port)
}
