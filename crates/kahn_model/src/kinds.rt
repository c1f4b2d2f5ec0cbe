//! The kinds that a leaf declares, by number; where it declares none, the kind of 64 bits without sign.

ghost use Rattle.std.specs.Prelude.{◌≡◌};
ghost use Rattle.tapa_syntax.specs.LeafKinds.{kinds_of};

use tapa_base::Kind;
use tapa_syntax::Leaf;

/// The kind of a variable.
pub fn var_kind(leaf: &Leaf, x: u32) -> Kind
    ensures { result ≡ (kinds_of leaf.now).vars x }
{
    match leaf.vars.get(x as usize) {
        Some(kind) => *kind,
        None => Kind::U64,
    }
}

/// The kind of an array's cells.
pub fn array_kind(leaf: &Leaf, a: u32) -> Kind
    ensures { result ≡ (kinds_of leaf.now).arrays a }
{
    match leaf.arrays.get(a as usize) {
        Some(array) => array.kind,
        None => Kind::U64,
    }
}

/// The kind of a memory's cells.
pub fn memory_kind(leaf: &Leaf, m: u32) -> Kind
    ensures { result ≡ (kinds_of leaf.now).memories m }
{
    match leaf.memories.get(m as usize) {
        Some(kind) => *kind,
        None => Kind::U64,
    }
}

/// The kind of a stream parameter's data.
pub fn stream_kind(leaf: &Leaf, p: u32) -> Kind
    ensures { result ≡ (kinds_of leaf.now).streams p }
{
    match leaf.streams.get(p as usize) {
        Some(end) => end.kind,
        None => Kind::U64,
    }
}
