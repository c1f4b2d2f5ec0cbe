// The modules of channels, each of one name once.

ghost use Rattle.std.specs.Prelude.{◌≡◌, ◌≤◌, IfOk, OnOk, length, slice_get, slice_index};
ghost use Rattle.tapa_syntax.specs.WellFormed.{IsWellFormed};
ghost use Rattle.hw_top_lines.specs.Channels.{channel_modules as channel_modules_lem, with_new, with_one};
ghost use Rattle.hw_top_lines.specs.Designs.{AreShort, channels_before, stream_modules};
ghost use Rattle.hw_top_lines.specs.Texts.{token_bits as token_bits_lem};
ghost use Rattle.hw_top.specs.Places.{ArePlaces};

use cross_pipe::channel;
use std::alloc::{AllocError, Global};
use std::collections::HashMap;
use tapa_base::{narrow, number_at};
use tapa_syntax::{Program, Stream};
use vlog_scope::{NameTable, add_before, find_name};
use vlog_tree::Module;

// Adds a module if none has its name, which is looked up in the table without a walk over the modules.
fn add_one(
    alloc: Global,
    modules: &mut Vec<Module>,
    places: &mut NameTable,
    one: Module,
) -> Result<(), AllocError>
    requires { ArePlaces places.old modules.old.items }
    ensures modules { IfOk result (λ u. modules.new.items ≡ with_one modules.old.items one) }
    ensures places { OnOk result (ArePlaces places.new modules.new.items) }
{
    let name = one.name().bytes();
    let known = find_name(places, name).is_some();
    if known {
        return Ok(());
    }
    add_before(alloc, places, name, modules.len())?;
    modules.push(one)?;
    Ok(())
}

fn add_new(
    alloc: Global,
    modules: &mut Vec<Module>,
    places: &mut NameTable,
    mut rest: Vec<Module>,
) -> Result<(), AllocError>
    requires { ArePlaces places.old modules.old.items }
    ensures modules { IfOk result (λ u. modules.new.items ≡ with_new modules.old.items rest.items) }
    ensures places { OnOk result (ArePlaces places.new modules.new.items) }
{
    while !rest.is_empty() {
        let one = rest.remove(0);
        add_one(alloc, modules, places, one)?;
    }
    Ok(())
}

fn channel_modules(alloc: Global, stream: &Stream, late: u32) -> Result<Vec<Module>, AllocError>
    requires some { 1 ≤ stream.now.depth }
    requires most { stream.now.depth ≤ 4096 }
    requires late { late ≤ 500000 }
    ensures { IfOk result (λ ms. ms.items ≡ channel_modules_lem (token_bits_lem stream.now.kind) stream.now.depth late) }
{
    channel(alloc, stream.kind.token_bits(), stream.depth, late)
}

fn add_channel(
    alloc: Global,
    modules: &mut Vec<Module>,
    places: &mut NameTable,
    program: &Program,
    added: &[u32],
    s: u32,
) -> Result<(), AllocError>
    requires places { ArePlaces places.old modules.old.items }
    requires program { IsWellFormed program.now }
    requires added { AreShort added.now }
    ensures modules { IfOk result (λ u. modules.new.items ≡ with_new modules.old.items (stream_modules (slice_index added.now s) (slice_get program.now.streams.items s))) }
    ensures places { OnOk result (ArePlaces places.new modules.new.items) }
{
    match program.streams.get(s as usize) {
        Some(stream) => {
            let late = number_at(added, s);
            let new = channel_modules(alloc, stream, late)?;
            add_new(alloc, modules, places, new)
        }
        None => Ok(()),
    }
}

/// The modules of the channels of all streams.
pub fn all_channels(
    alloc: Global,
    program: &Program,
    added: &[u32],
) -> Result<Vec<Module>, AllocError>
    requires program { IsWellFormed program.now }
    requires added { AreShort added.now }
    ensures { IfOk result (λ ms. ms.items ≡ channels_before program.now added.now (length program.now.streams.items)) }
{
    let mut modules = Vec::new(alloc);
    let mut places: NameTable = HashMap::new(alloc);
    let count = narrow(program.streams.len())?;
    for s in 0..count {
        add_channel(alloc, &mut modules, &mut places, program, added, s)?;
    }
    Ok(modules)
}
