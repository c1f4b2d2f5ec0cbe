// The names of modules.

ghost use Rattle.std.specs.Prelude.{◌≡◌, ◌++◌, ◌∷◌, IfOk, decimal};
ghost use Rattle.std.specs.Str.{IsAscii};
ghost use Rattle.hw_channel_lines.specs.Names.{channel_name as channel_lem, fifo_name as fifo_lem, relay_name as relay_lem};

use itoa::Buffer;
use std::alloc::{AllocError, Global};
use tapa_base::Text;

fn add_number(bytes: &mut Vec<u8>, number: u32) -> Result<(), AllocError>
    requires { IsAscii bytes.old.items }
    ensures value { IfOk result (λ u. bytes.new.items ≡ bytes.old.items ++ decimal number) }
    ensures ascii { IfOk result (λ u. IsAscii bytes.new.items) }
{
    let mut buffer = Buffer::new();
    bytes.extend_from_slice(buffer.format(number).as_bytes())?;
    Ok(())
}

fn add_next(bytes: &mut Vec<u8>, number: u32) -> Result<(), AllocError>
    requires { IsAscii bytes.old.items }
    ensures value { IfOk result (λ u. bytes.new.items ≡ bytes.old.items ++ 95 ∷ decimal number) }
    ensures ascii { IfOk result (λ u. IsAscii bytes.new.items) }
{
    bytes.push(b'_')?;
    add_number(bytes, number)
}

/// The name of the module of a channel.
#[tactic(auto, unfolding(hw_channel_lines::specs::Names::channel_name))]
pub fn channel_name(alloc: Global, bits: u32, depth: u32, latency: u32) -> Result<Text, AllocError>
    ensures { IfOk result (λ t. t ≡ channel_lem bits depth latency) }
{
    let mut bytes = b"channel_".as_slice().to_vec(alloc)?;
    add_number(&mut bytes, bits)?;
    add_next(&mut bytes, depth)?;
    add_next(&mut bytes, latency)?;
    Ok(Text::new(bytes))
}

/// The name of the module of a FIFO.
#[tactic(auto, unfolding(hw_channel_lines::specs::Names::fifo_name))]
pub fn fifo_name(alloc: Global, bits: u32, depth: u32, places: u32) -> Result<Text, AllocError>
    ensures { IfOk result (λ t. t ≡ fifo_lem bits depth places) }
{
    let mut bytes = b"fifo_".as_slice().to_vec(alloc)?;
    add_number(&mut bytes, bits)?;
    add_next(&mut bytes, depth)?;
    add_next(&mut bytes, places)?;
    Ok(Text::new(bytes))
}

/// The name of the module of a relay.
#[tactic(auto, unfolding(hw_channel_lines::specs::Names::relay_name))]
pub fn relay_name(alloc: Global, bits: u32, steps: u32) -> Result<Text, AllocError>
    ensures { IfOk result (λ t. t ≡ relay_lem bits steps) }
{
    let mut bytes = b"relay_".as_slice().to_vec(alloc)?;
    add_number(&mut bytes, bits)?;
    add_next(&mut bytes, steps)?;
    Ok(Text::new(bytes))
}
