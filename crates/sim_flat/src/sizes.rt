// How many instances and nets a design has, counted by modules: before anything is laid out, which may be far larger than the text.

ghost use Rattle.std.specs.Prelude.{◌≡◌, ◌+◌, ◌<◌, ◌≤◌, ℕ, List, map, length, get_or, IfOk, OnOk};
ghost use Rattle.number_graph.specs.Graphs.{rows_of};
ghost use Rattle.tapa_base.specs.Lists.{Has};
ghost use Rattle.sim_flat.specs.Sizes.{sum_at as sum_lem, AreCounts, AreSizes, AreBelow, names_in};

use crate::instances::kinds_at;
use crate::kinds::{kinds_of, place_of};
use crate::tables::Table;
use number_graph::{Graph, Order, order_of};
use std::alloc::{AllocError, Global};
use vlog_design::Design;

/// Numbers of instances and of nets. A number that is too large is the largest one.
#[derive(Clone, Copy)]
pub struct Sizes {
    pub instances: usize,
    pub nets: usize,
}

fn count_at(counts: &[usize], kind: usize) -> usize
    ensures { result ≡ get_or counts.now kind 0 }
{
    match counts.get(kind) {
        Some(count) => *count,
        None => 0,
    }
}

// What is counted in some modules, and more.
fn sum_at(counts: &[usize], kinds: &[usize], more: usize) -> usize
    ensures { result ≤ more + sum_lem counts.now kinds.now }
{
    let mut sum = more;
    for kind in kinds {
        sum = sum.saturating_add(count_at(counts, *kind));
    }
    sum
}

// Counts in one module.
fn count_in(kinds: &[Vec<usize>], own: &[usize], kind: usize, counts: &mut Vec<usize>)
    requires { AreCounts (rows_of kinds.now) (λ k. get_or own.now k 0) counts.old.items }
    ensures { AreCounts (rows_of kinds.now) (λ k. get_or own.now k 0) counts.new.items }
{
    let sum = sum_at(counts, kinds_at(kinds, kind), count_at(own, kind));
    if kind < counts.len() && counts[kind] < sum {
        counts[kind] = sum;
    }
}

// Counts in all modules, each after those of its instances.
#[tactic(auto, using(crate::proofs::Sizing::no_counts))]
fn counts_of(
    alloc: Global,
    kinds: &[Vec<usize>],
    own: &[usize],
    order: &[usize],
) -> Result<Vec<usize>, AllocError>
    ensures { IfOk result (λ v. AreCounts (rows_of kinds.now) (λ k. get_or own.now k 0) v.items) }
{
    let mut counts = vec![in alloc; 0; kinds.len()]?;
    for kind in order {
        count_in(kinds, own, *kind, &mut counts);
    }
    Ok(counts)
}

fn add_step(
    edges: &mut Vec<(usize, usize)>,
    count: usize,
    kind: usize,
    other: usize,
) -> Result<(), AllocError>
    requires low { kind < count }
    requires below { AreBelow count edges.old.items }
    ensures { OnOk result (AreBelow count edges.new.items) }
{
    if other >= count {
        return Ok(());
    }
    edges.push((kind, other))?;
    Ok(())
}

fn add_steps(
    edges: &mut Vec<(usize, usize)>,
    count: usize,
    kind: usize,
    inside: &[usize],
) -> Result<(), AllocError>
    requires low { kind < count }
    requires below { AreBelow count edges.old.items }
    ensures { OnOk result (AreBelow count edges.new.items) }
{
    for other in inside {
        add_step(edges, count, kind, *other)?;
    }
    Ok(())
}

// From each module to those of its instances.
fn steps_of(alloc: Global, kinds: &[Vec<usize>]) -> Result<Vec<(usize, usize)>, AllocError>
    ensures { IfOk result (λ v. AreBelow (length kinds.now) v.items) }
{
    let mut edges = Vec::new(alloc);
    for (kind, inside) in kinds.iter().enumerate() {
        add_steps(&mut edges, kinds.len(), kind, inside)?;
    }
    Ok(edges)
}

// The modules of a design, each after those of its instances. Only how well it is counted depends on this order.
fn order_of_kinds(alloc: Global, kinds: &[Vec<usize>]) -> Result<Vec<usize>, AllocError> {
    let edges = steps_of(alloc, kinds)?;
    let graph = Graph::of(alloc, kinds.len(), &edges)?;
    match order_of(alloc, &graph)? {
        Order::PartsFirst(order) => Ok(order),
        Order::Cycle(_) => Ok(Vec::new(alloc)),
    }
}

// How many names each module declares.
fn names_of(alloc: Global, tables: &[Table]) -> Result<Vec<usize>, AllocError>
    ensures { IfOk result (λ v. v.items ≡ map names_in tables.now) }
{
    let mut names = Vec::new(alloc);
    for table in tables {
        names.push(table.sources.len())?;
    }
    Ok(names)
}

fn ones_of(alloc: Global, count: usize) -> Result<Vec<usize>, AllocError>
    ensures { IfOk result (λ v. (k : ℕ) → get_or v.items k 0 ≤ 1) }
{
    let ones = vec![in alloc; 1; count]?;
    Ok(ones)
}

/// The sizes of a design, given the tables of its modules.
pub(crate) fn sizes_of(
    alloc: Global,
    design: &Design,
    tables: &[Table],
) -> Result<Sizes, AllocError>
    ensures { IfOk result (AreSizes design.now tables.now) }
{
    let modules = design.modules();
    let names = design.names();
    let kinds = kinds_of(alloc, names, modules)?;
    let top = place_of(names, design.top().name());
    let order = order_of_kinds(alloc, &kinds)?;
    let ones = ones_of(alloc, modules.len())?;
    let lengths = names_of(alloc, tables)?;
    let instances = counts_of(alloc, &kinds, &ones, &order)?;
    let nets = counts_of(alloc, &kinds, &lengths, &order)?;
    Ok(Sizes {
        instances: count_at(&instances, top),
        nets: count_at(&nets, top),
    })
}
