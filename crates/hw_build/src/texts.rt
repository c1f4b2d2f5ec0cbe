// Names and atoms from the bytes of a program.

ghost use Rattle.std.specs.Prelude.{◌≡◌, ◌++◌, ◌∷◌, IfOk, decimal};
ghost use Rattle.std.specs.Str.{IsAscii};
ghost use Rattle.vlog_tree.specs.declared.tree.Atom.TheVariants.{Net as NetTree, Literal as LiteralTree};
ghost use Rattle.vlog_tree.specs.declared.tree.Value.TheVariants.{Plain as PlainTree};
ghost use Rattle.vlog_tree.specs.Table.{clk};
ghost use Rattle.vlog_tree.specs.Labels.{rst};
ghost use Rattle.hw_build.specs.Trees.{numbered as numbered_name};

use itoa::Buffer;
use std::alloc::{AllocError, Global};
use tapa_base::Text;
use vlog_tree::{Atom, Value};

/// A name of these bytes.
pub fn text(alloc: Global, bytes: &[u8]) -> Result<Text, AllocError>
    requires { IsAscii bytes.now }
    ensures { IfOk result (λ t. t ≡ bytes.now) }
{
    Ok(Text::new(bytes.to_vec(alloc)?))
}

/// The name of the clock's port.
#[tactic(auto, unfolding(vlog_tree::specs::Table::clk))]
pub fn clock_name(alloc: Global) -> Result<Text, AllocError>
    ensures { IfOk result (λ t. t ≡ clk) }
{
    text(alloc, b"clk")
}

/// The name of the port for reset.
#[tactic(auto, unfolding(vlog_tree::specs::Labels::rst))]
pub fn reset_name(alloc: Global) -> Result<Text, AllocError>
    ensures { IfOk result (λ t. t ≡ rst) }
{
    text(alloc, b"rst")
}

/// The net of this name.
pub fn net(alloc: Global, name: &[u8]) -> Result<Atom, AllocError>
    requires { IsAscii name.now }
    ensures { IfOk result (λ a. a ≡ NetTree name.now) }
{
    Ok(Atom::Net(text(alloc, name)?))
}

/// The net of this name as a driver.
pub fn net_value(alloc: Global, name: &[u8]) -> Result<Value, AllocError>
    requires { IsAscii name.now }
    ensures { IfOk result (λ v. v ≡ PlainTree (NetTree name.now)) }
{
    Ok(Value::Plain(net(alloc, name)?))
}

/// A number of some bits.
pub fn number(width: u32, value: u32) -> Atom
    ensures { result ≡ LiteralTree width value }
{
    Atom::Literal {
        width,
        value: value as u128,
    }
}

fn add_number(bytes: &mut Vec<u8>, number: u32) -> Result<(), AllocError>
    requires { IsAscii bytes.old.items }
    ensures value { IfOk result (λ u. bytes.new.items ≡ bytes.old.items ++ decimal number) }
    ensures ascii { IfOk result (λ u. IsAscii bytes.new.items) }
{
    let mut buffer = Buffer::new();
    bytes.extend_from_slice(buffer.format(number).as_bytes())?;
    Ok(())
}

fn add_next(bytes: &mut Vec<u8>, number: u32) -> Result<(), AllocError>
    requires { IsAscii bytes.old.items }
    ensures value { IfOk result (λ u. bytes.new.items ≡ bytes.old.items ++ 95 ∷ decimal number) }
    ensures ascii { IfOk result (λ u. IsAscii bytes.new.items) }
{
    bytes.push(b'_')?;
    add_number(bytes, number)
}

/// A prefix with a number after it, as `w_7`.
#[tactic(auto, unfolding(crate::specs::Trees::numbered))]
pub fn numbered(alloc: Global, front: &[u8], number: u32) -> Result<Text, AllocError>
    requires { IsAscii front.now }
    ensures { IfOk result (λ t. t ≡ numbered_name front.now number) }
{
    let mut bytes = front.to_vec(alloc)?;
    add_next(&mut bytes, number)?;
    Ok(Text::new(bytes))
}
