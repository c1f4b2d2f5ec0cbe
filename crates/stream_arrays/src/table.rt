//! Names that denote numbers.

ghost use Rattle.std.specs.Prelude.{◌≡◌, [], OnOk, IfErr};
ghost use Rattle.stream_arrays.specs.Numbers.{found, numbered};

use crate::fault::ArrayRefusal;
use indexmap::IndexMap;
use std::alloc::Global;
use std::marker::Model;

/// Names and their numbers, in the order in which the names came.
#[derive(Drop)]
pub(crate) struct Table {
    numbers: IndexMap<Vec<u8>, u64>,
}

impl Model for Table {
    ghost use Rattle.stream_arrays.specs.Numbers.{Numbering, numbering_of};

    ghost Value = { Numbering };

    ghost view = { λ table. numbering_of table.numbers.entries };
}

impl Table {
    /// No names yet.
    pub(crate) fn new(alloc: Global) -> Self
        ensures { result ≡ [] }
    {
        Table {
            numbers: IndexMap::new(alloc),
        }
    }

    /// The number of a name.
    pub(crate) fn get(&self, name: &[u8]) -> Option<u64>
        ensures { result ≡ found self.now name.now }
    {
        self.numbers.get(name).copied()
    }

    /// A name has this number from now on.
    pub(crate) fn set(
        &mut self,
        alloc: Global,
        name: &[u8],
        number: u64,
    ) -> Result<(), ArrayRefusal>
        ensures ok { OnOk result (self.new ≡ numbered self.old name.now number) }
        ensures err { IfErr result (λ e. e ≡ ArrayRefusal.OutOfMemory) }
    {
        let key = name.to_vec(alloc)?;
        self.numbers.insert(key, number)?;
        Ok(())
    }
}
