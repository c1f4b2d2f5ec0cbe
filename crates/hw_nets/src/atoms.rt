// Atoms and the drivers of wires.

ghost use Rattle.std.specs.Prelude.{◌≡◌, ◌<◌, ◌≤◌, [], ◌∷◌, IfOk};
ghost use Rattle.vlog_tree.specs.declared.tree.Atom.TheVariants.{Net as NetAtom, Literal};
ghost use Rattle.vlog_tree.specs.declared.tree.Value.TheVariants.{Plain, Invert, Binary, Choose, Concat, Repeat};
ghost use Rattle.hw_lines.specs.Drivers.{low_bits as low_bits_lem, sign_of as sign_of_lem, wire as wire_lem};
ghost use Rattle.hw_lines.specs.States.{net as net_lem};

use crate::names::name;
use crate::numbers::power;
use hw_build::numbered;
use hw_lines::Net;
use std::alloc::{AllocError, Global};
use tapa_base::Text;
use vlog_tree::{Atom, Atoms, BinaryOp, Value};

/// A copy of an atom, in memory of its own.
pub fn copy(alloc: Global, atom: &Atom) -> Result<Atom, AllocError>
    ensures { IfOk result (λ a. a ≡ atom.now) }
{
    match atom {
        Atom::Net(x) => Ok(Atom::Net(x.copy(alloc)?)),
        Atom::Part { net, high, low } => Ok(Atom::Part {
            net: net.copy(alloc)?,
            high: *high,
            low: *low,
        }),
        Atom::Literal { width, value } => Ok(Atom::Literal {
            width: *width,
            value: *value,
        }),
    }
}

/// A number of some bits.
pub fn literal(width: u32, value: u128) -> Atom
    ensures { result ≡ Literal width value }
{
    Atom::Literal { width, value }
}

/// The atom of a net.
pub fn net(alloc: Global, net: Net) -> Result<Atom, AllocError>
    ensures { IfOk result (λ a. a ≡ net_lem net) }
{
    Ok(Atom::Net(name(alloc, net)?))
}

/// The wire of a number.
pub fn wire(alloc: Global, front: &Text, n: u32) -> Result<Atom, AllocError>
    ensures { IfOk result (λ a. a ≡ wire_lem front.now n) }
{
    Ok(Atom::Net(numbered(alloc, front.bytes(), n)?))
}

/// An operator on two atoms.
pub fn binary(left: Atom, op: BinaryOp, right: Atom) -> Value
    ensures { result ≡ Binary left op right }
{
    Value::Binary { left, op, right }
}

/// The one atom where a condition is 1, and else the other.
pub fn choose(condition: Atom, yes: Atom, no: Atom) -> Value
    ensures { result ≡ Choose condition yes no }
{
    Value::Choose { condition, yes, no }
}

/// Two atoms together, the highest bits first.
pub fn concat(alloc: Global, high: Atom, low: Atom) -> Result<Value, AllocError>
    ensures { IfOk result (λ v. v ≡ Concat (high ∷ low ∷ [])) }
{
    let mut atoms = Vec::new(alloc);
    atoms.push(high)?;
    atoms.push(low)?;
    Ok(Value::Concat(Atoms::of(atoms)))
}

/// The lowest bits of an atom that has more.
pub fn low_bits(alloc: Global, width: u32, atom: &Atom) -> Result<Atom, AllocError>
    requires { width < 128 }
    ensures { IfOk result (λ a. a ≡ low_bits_lem width atom.now) }
{
    match atom {
        Atom::Net(x) => Ok(Atom::Part {
            net: x.copy(alloc)?,
            high: width.saturating_sub(1),
            low: 0,
        }),
        Atom::Part { .. } => copy(alloc, atom),
        Atom::Literal { value, .. } => Ok(Atom::Literal {
            width,
            value: *value % power(width),
        }),
    }
}

/// The highest bit of an atom of some bits.
pub fn sign_of(alloc: Global, width: u32, atom: &Atom) -> Result<Atom, AllocError>
    requires { width ≤ 128 }
    ensures { IfOk result (λ a. a ≡ sign_of_lem width atom.now) }
{
    let top = width.saturating_sub(1);
    match atom {
        Atom::Net(x) => Ok(Atom::Part {
            net: x.copy(alloc)?,
            high: top,
            low: top,
        }),
        Atom::Part { net, high, .. } => Ok(Atom::Part {
            net: net.copy(alloc)?,
            high: *high,
            low: *high,
        }),
        Atom::Literal { value, .. } => Ok(Atom::Literal {
            width: 1,
            value: (*value / power(top)) % 2,
        }),
    }
}
