// Which slots of a tape the nets of a module have.

ghost use Rattle.std.specs.Prelude.{◌≡◌, ◌+◌, ◌-◌, get_or};
ghost use Rattle.vlog_tree.specs.Table.{bits_of};
ghost use Rattle.vlog_tree.specs.V3.{atom_bits};
ghost use Rattle.sim_gates.specs.Nets.{pair_in};

use sim_tape::Pair;
use tapa_base::Text;
use vlog_scope::Scope;
use vlog_tree::Atom;

/// The names of an instance's module, in their order the pairs of slots of those nets that have some, and for its memories
/// the numbers of the memories with the low and the high halves of their cells.
#[derive(Drop)]
pub struct Nets<'a> {
    pub scope: &'a Scope,
    pub pairs: &'a [Option<Pair>],
    pub memories: &'a [Option<Pair>],
}

fn pair_of_place(pairs: &[Option<Pair>], place: usize) -> Option<Pair>
    ensures { result ≡ get_or pairs.now place None }
{
    if place < pairs.len() {
        pairs[place]
    } else {
        None
    }
}

fn pair_at(scope: &Scope, pairs: &[Option<Pair>], name: &Text) -> Option<Pair>
    ensures { result ≡ pair_in scope.now pairs.now name.now }
{
    match scope.place(name) {
        Some((place, _)) => pair_of_place(pairs, place),
        None => None,
    }
}

// The bits from a high one to a low one.
fn bits_from(high: u32, low: u32) -> u64
    ensures { result ≡ high + 1 - low }
{
    (u64::from(high) + 1).saturating_sub(u64::from(low))
}

impl Nets<'_> {
    /// The slots of a net.
    pub fn pair(&self, name: &Text) -> Option<Pair>
        ensures { result ≡ pair_in self.now.scope.now self.now.pairs.now name.now }
    {
        pair_at(self.scope, self.pairs, name)
    }

    /// The numbers of the memories with the halves of a memory's cells.
    pub fn memory(&self, name: &Text) -> Option<Pair>
        ensures { result ≡ pair_in self.now.scope.now self.now.memories.now name.now }
    {
        pair_at(self.scope, self.memories, name)
    }

    /// The declared bits of a name.
    pub fn bits(&self, name: &Text) -> u32
        ensures { result ≡ bits_of self.now.scope.now name.now }
    {
        self.scope.bits(name.bytes())
    }

    /// The bits of an atom, and 0 for a part that has none.
    pub fn atom_bits(&self, atom: &Atom) -> u64
        ensures { result ≡ atom_bits self.now.scope.now atom.now }
    {
        match atom {
            Atom::Net(x) => u64::from(self.bits(x)),
            Atom::Part { high, low, .. } => bits_from(*high, *low),
            Atom::Literal { width, .. } => u64::from(*width),
        }
    }
}
