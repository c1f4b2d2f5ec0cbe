//! The search for the least layout: branch and bound over the items in order, each at each place. A node visits the items that are
//! still to be placed, and no stream.
ghost use Rattle.std.specs.Prelude.{◌≡◌, ◌<◌, ◌≤◌, ◌+◌, ◌*◌, ◌^◌, ◌↔◌, ℕ, IsTrue, OnOk, IfOk, length, MatchOption, false, [], ◌∷◌, ◌++◌};
ghost use Rattle.slot_plan.specs.Tables.{items, AreTables};
ghost use Rattle.slot_plan.specs.Search.{AreRows, IsBelowRest, IsAnswer, IsAt, IsAtPlace, Explored};

use crate::amounts::{difference, is_at_most};
use crate::rows::lower_rows;
use crate::tables::Tables;
use std::alloc::{AllocError, Global};
use task_graph::Use;

/// The best layout so far, and its cost.
#[derive(Drop)]
pub(crate) struct Best {
    pub places: Vec<u32>,
    pub cost: u64,
}

/// The places of the first items, the rooms that are left beside them, the best layout so far, and buffers to write rows
/// into.
#[derive(Drop)]
pub(crate) struct Search {
    pub places: Vec<u32>,
    pub left: Vec<Use>,
    pub best: Option<Best>,
    pub spare: Vec<Vec<u64>>,
}

/// Checks whether the best layout so far costs no more than this.
fn is_no_better(best: &Option<Best>, cost: u64) -> bool
    ensures { MatchOption best.now (result ≡ false) (λ b. IsTrue result ↔ (b.cost ≤ cost)) }
{
    match best {
        None => false,
        Some(b) => b.cost <= cost,
    }
}

/// Returns a copy of a list of slots.
fn copy_of(alloc: Global, places: &[u32]) -> Result<Vec<u32>, AllocError>
    ensures { IfOk result (λ copied. copied.items ≡ places.now) }
{
    places.to_vec(alloc)
}

/// Returns a copy of a list of amounts.
fn rooms_of(alloc: Global, room: &[Use]) -> Result<Vec<Use>, AllocError>
    ensures { IfOk result (λ copied. copied.items ≡ room.now) }
{
    let mut copied = Vec::new(alloc);
    for amount in room {
        copied.push(*amount)?;
    }
    Ok(copied)
}

/// Returns a buffer of a length: a spare one, or a new one.
fn buffer(alloc: Global, spare: &mut Vec<Vec<u64>>, len: usize) -> Result<Vec<u64>, AllocError>
    ensures { IfOk result (λ v. length v.items ≡ len) }
{
    match spare.pop() {
        Some(found) => {
            if found.len() == len {
                return Ok(found);
            }
            vec![in alloc; 0; len]
        }
        None => vec![in alloc; 0; len],
    }
}

impl Search {
    /// Searches all layouts that begin with the places so far. `spent` is the cost of these, `rows` the cost of each further item at
    /// each place beside them, and `low` a lower bound on the cost of the further items.
    #[cycle(exploring)]
    fn explore(
        &mut self,
        alloc: Global,
        tables: &Tables,
        rows: &[u64],
        spent: u64,
        low: u64,
    ) -> Result<(), AllocError>
        requires tables { AreTables tables.now }
        requires rows { AreRows tables.now self.old.places.items rows.now }
        requires low { IsBelowRest tables.now self.old.places.items low }
        requires small { low ≤ 512 * 2731622400 }
        requires at { IsAt tables.now self.old.places.items self.old.left.items spent self.old.best }
        ensures places { OnOk result (self.new.places.items ≡ self.old.places.items) }
        ensures left { OnOk result (self.new.left.items ≡ self.old.left.items) }
        ensures explored { OnOk result (Explored tables.now self.old.places.items self.old.best self.new.best) }
    {
        if is_no_better(&self.best, spent + low) {
            return Ok(());
        }
        if self.places.len() == tables.needs.len() {
            let places = copy_of(alloc, &self.places)?;
            self.best = Some(Best {
                places,
                cost: spent,
            });
            return Ok(());
        }
        let mut next = buffer(alloc, &mut self.spare, rows.len())?;
        for place in 0..tables.room.len() {
            self.explore_place(alloc, tables, rows, spent, place, &mut next)?;
        }
        self.spare.push(next)?;
        Ok(())
    }

    /// Searches all layouts that go on with one place for the next item. `next` is overwritten.
    #[cycle(exploring)]
    fn explore_place(
        &mut self,
        alloc: Global,
        tables: &Tables,
        rows: &[u64],
        spent: u64,
        place: usize,
        next: &mut [u64],
    ) -> Result<(), AllocError>
        requires tables { AreTables tables.now }
        requires rows { AreRows tables.now self.old.places.items rows.now }
        requires next { length next.old ≡ length rows.now }
        requires at { IsAtPlace tables.now self.old.places.items self.old.left.items spent self.old.best place }
        ensures places { OnOk result (self.new.places.items ≡ self.old.places.items) }
        ensures left { OnOk result (self.new.left.items ≡ self.old.left.items) }
        ensures explored { OnOk result (Explored tables.now (self.old.places.items ++ place ∷ []) self.old.best self.new.best) }
    {
        let item = self.places.len();
        if tables.regions[place] != tables.homes[item] {
            return Ok(());
        }
        let need = tables.needs[item];
        let left = self.left[place];
        if !is_at_most(need, left) {
            return Ok(());
        }
        let cost = spent + rows[item * tables.room.len() + place];
        if is_no_better(&self.best, cost) {
            return Ok(());
        }
        let low = lower_rows(tables, rows, &self.places, place, next);
        self.places.push(place as u32)?;
        self.left[place] = difference(left, need);
        self.explore(alloc, tables, next, cost, low)?;
        self.left[place] = left;
        self.places.truncate(item);
        Ok(())
    }
}

/// Finds the least layout of the tables, the first of several. Returns `None` if there is no layout.
pub(crate) fn least_layout(alloc: Global, tables: &Tables) -> Result<Option<Best>, AllocError>
    requires { AreTables tables.now }
    ensures { IfOk result (λ best. IsAnswer tables.now best) }
{
    let places = Vec::new(alloc);
    let left = rooms_of(alloc, &tables.room)?;
    let spare = Vec::new(alloc);
    let mut search = Search {
        places,
        left,
        best: None,
        spare,
    };
    search.explore(alloc, tables, &tables.alone, 0, 0)?;
    Ok(search.best)
}
