//! Groups of instances that reach each other.
ghost use Rattle.std.specs.Prelude.{◌≡◌, ◌&&◌, ◌<◌, ◌≤◌, ◌+◌, ℕ, true, IfOk, OnOk, MatchOption, length};
ghost use Rattle.task_graph.specs.Edges.{EndBelow};
ghost use Rattle.task_graph.specs.Reach.{mark, AreFirstGroups, AreTransitive, MarkEachOther};
ghost use Rattle.task_graph.specs.Streams.{AreGroups, AreNumbered, HasRank};

use crate::Edge;
use crate::reach::reach_rows;
use std::alloc::{AllocError, Global};

/// The group of each instance, and how many groups there are.
#[derive(Drop)]
pub(crate) struct Groups {
    pub numbers: Vec<u32>,
    pub count: u32,
}

fn is_marked(rows: &[Vec<bool>], i: usize, j: usize) -> bool
    ensures { result ≡ mark rows.now i j }
{
    match rows.get(i) {
        Some(row) => match row.get(j) {
            Some(marked) => *marked,
            None => false,
        },
        None => false,
    }
}

/// Whether two rows mark each other.
fn mark_both(rows: &[Vec<bool>], i: usize, j: usize) -> bool
    ensures { result ≡ (mark rows.now i j && mark rows.now j i) }
{
    is_marked(rows, i, j) && is_marked(rows, j, i)
}

/// An earlier instance that reaches an instance and is reached from it.
fn companion(rows: &[Vec<bool>], i: usize) -> Option<usize>
    ensures { MatchOption result ((j : ℕ) → j < i → MarkEachOther rows.now j i → ⊥) (λ j. (j < i) × MarkEachOther rows.now j i) }
{
    for j in 0..i {
        if mark_both(rows, j, i) {
            return Some(j);
        }
    }
    None
}

impl Groups {
    /// Gives the next instance its group.
    fn add(&mut self, rows: &[Vec<bool>]) -> Result<(), AllocError>
        requires more { length self.old.numbers.items < length rows.now }
        requires few { length rows.now ≤ 512 }
        requires transitive { AreTransitive rows.now }
        requires groups { AreFirstGroups rows.now self.old }
        requires low { self.old.count ≤ length self.old.numbers.items }
        ensures groups { OnOk result (AreFirstGroups rows.now self.new) }
        ensures low { OnOk result (self.new.count ≤ length self.new.numbers.items) }
        ensures len { OnOk result (length self.new.numbers.items ≡ length self.old.numbers.items + 1) }
    {
        match companion(rows, self.numbers.len()) {
            Some(j) => {
                let number = self.numbers[j];
                self.numbers.push(number)?;
                Ok(())
            }
            None => {
                let number = self.count;
                self.numbers.push(number)?;
                self.count += 1;
                Ok(())
            }
        }
    }
}

/// The groups of instances that mark each other.
fn grouped(alloc: Global, rows: &[Vec<bool>]) -> Result<Groups, AllocError>
    requires few { length rows.now ≤ 512 }
    requires transitive { AreTransitive rows.now }
    ensures len { IfOk result (λ g. length g.numbers.items ≡ length rows.now) }
    ensures groups { IfOk result (λ g. AreFirstGroups rows.now g) }
{
    let mut groups = Groups {
        numbers: Vec::new(alloc),
        count: 0,
    };
    for _ in 0..rows.len() {
        groups.add(rows)?;
    }
    Ok(groups)
}

/// The groups of `count` instances, numbered by their least one.
pub(crate) fn groups_of(alloc: Global, count: usize, edges: &[Edge]) -> Result<Groups, AllocError>
    requires ends { EndBelow count edges.now }
    requires few { count ≤ 512 }
    ensures len { IfOk result (λ g. length g.numbers.items ≡ count) }
    ensures numbered { IfOk result (λ g. AreNumbered g.numbers.items g.count) }
    ensures grouped { IfOk result (λ g. AreGroups g.numbers.items edges.now) }
    ensures ranked { IfOk result (λ g. HasRank g.numbers.items g.count edges.now) }
{
    let rows = reach_rows(alloc, count, edges)?;
    let groups = grouped(alloc, &rows)?;
    Ok(groups)
}
