//! The nets of a dump's head so far.

ghost use Rattle.std.specs.Prelude.{◌≡◌, ◌++◌, ◌∷◌, [], length, IfOk};
ghost use Rattle.std.specs.Bool.{MatchBool};
ghost use Rattle.std.specs.Str.{IsAscii};
ghost use Rattle.vcd_text.specs.Head.{IsFree};

use indexmap::IndexSet;
use std::alloc::{AllocError, Global};
use std::marker::Model;
use tapa_base::{Port, Text};

/// Nets in order, each of which can be looked up by its name.
#[derive(Drop)]
pub(crate) struct NetTable {
    nets: Vec<Port>,
    names: IndexSet<Vec<u8>>,
}

impl Model for NetTable {
    ghost use Rattle.std.specs.Prelude.{List};
    ghost use Rattle.tapa_base.specs.declared.shape.Port.{Port as Net};
    ghost use Rattle.vcd_text.specs.Table.{AreNamed};

    ghost Value = { List Net };

    ghost view = { λ table. table.nets.items };

    ghost invariant = { λ table. AreNamed table.nets.items table.names.keys };
}

impl NetTable {
    /// No nets yet.
    pub(crate) fn new(alloc: Global) -> Self
        ensures { result ≡ [] }
    {
        NetTable {
            nets: Vec::new(alloc),
            names: IndexSet::new(alloc),
        }
    }

    /// How many nets there are.
    pub(crate) fn len(&self) -> usize
        ensures { result ≡ length self.now }
    {
        self.nets.len()
    }

    /// Whether no net has a name.
    pub(crate) fn is_free(&self, name: &[u8]) -> bool
        ensures { MatchBool result (IsFree self.now name.now) (IsFree self.now name.now → ⊥) }
    {
        !self.names.contains(name)
    }

    /// One net more, of a name that no other has.
    pub(crate) fn with(self, alloc: Global, name: &[u8], bits: u32) -> Result<Self, AllocError>
        requires ascii { IsAscii name.now }
        requires free { IsFree self name.now }
        ensures { IfOk result (λ table. table ≡ self ++ record { name = name.now; bits = bits } ∷ []) }
    {
        let NetTable {
            mut nets,
            mut names,
        } = self;
        let key = name.to_vec(alloc)?;
        names.insert(key)?;
        let text = name.to_vec(alloc)?;
        nets.push(Port {
            name: Text::new(text),
            bits,
        })?;
        Ok(NetTable { nets, names })
    }

    /// The nets.
    pub(crate) fn into_nets(self) -> Vec<Port>
        ensures { result.items ≡ self }
    {
        let NetTable { nets, names: _ } = self;
        nets
    }
}
