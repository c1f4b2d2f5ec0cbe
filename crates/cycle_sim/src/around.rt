// The interface of a design to its environment, by the pairs of its top's names.

ghost use Rattle.std.specs.Prelude.{◌≡◌, List, IfOk};
ghost use Rattle.tapa_base.specs.declared.shape.Port.{Port as PortTree};
ghost use Rattle.vlog_tree.specs.Form.{ModuleTree};
ghost use Rattle.tapa_base.specs.Lists.{Has};
ghost use Rattle.vlog_tree.specs.Environment.{shape_of, streams_of};
ghost use Rattle.vlog_design.specs.Designs.{TopOf};
ghost use Rattle.sim_tape.specs.Tape.{TapeTree};
ghost use Rattle.sim_flat.specs.declared.flat.Flat.{Flat as FlatTree};
ghost use Rattle.sim_flat.specs.Flat.{IsFlat};
ghost use Rattle.sim_design.specs.Given.{ArePlaced, AreGiven};
ghost use Rattle.cycle_sim.specs.Machines.{IsTopPlaced, IsOutside, AreOutside};
ghost use Rattle.cycle_sim.specs.Wholes.{IsStream, AreStreams, IsAround};

use crate::cells::Outside;
use crate::inputs::Input;
use crate::named::{din_name, done_name, pair_named};
use crate::parts::Stream;
use crate::shown::all_shown;
use crate::supplies::all_inputs;
use sim_tape::Pair;
use std::alloc::{AllocError, Global};
use tapa_base::{Port, Text};
use vlog_design::Design;
use vlog_scope::Scope;
use vlog_tree::{ack_name, addr_name, rdy_name, wdata_name, we_name, wr_name};

/// The interface of a design to its environment: the inputs of the top with their supplies, the memories and the streams around the
/// design, the pairs of its top's nets, and the pair of its `done`.
#[derive(Drop)]
pub struct Around {
    pub inputs: Vec<Input>,
    pub outside: Vec<Outside>,
    pub streams: Vec<Stream>,
    pub shown: Vec<Pair>,
    pub done: Pair,
}

#[tactic(auto, using(vlog_run_laws::proofs::runs::Ascii::ack_ascii, vlog_run_laws::proofs::runs::Ascii::we_ascii, vlog_run_laws::proofs::runs::Ascii::addr_ascii, vlog_run_laws::proofs::runs::Ascii::wdata_ascii))]
fn outside_at(
    alloc: Global,
    scope: &Scope,
    pairs: &[Option<Pair>],
    label: &Text,
) -> Result<Outside, AllocError>
    ensures { IfOk result (λ o. (ms : List ModuleTree) (top : ModuleTree) (f : FlatTree) (t : TapeTree) (l : PortTree) → IsTopPlaced ms top f pairs.now t scope.now
        → Has (shape_of top).memories l → label.now ≡ l.name → IsOutside ms f pairs.now l.name o) }
{
    let label = label.bytes();
    let ack = pair_named(scope, pairs, ack_name(alloc, label)?);
    let we = pair_named(scope, pairs, we_name(alloc, label)?);
    let addr = pair_named(scope, pairs, addr_name(alloc, label)?);
    let wdata = pair_named(scope, pairs, wdata_name(alloc, label)?);
    Ok(Outside {
        ack,
        we,
        addr,
        wdata: wdata.low,
    })
}

fn all_outside(
    alloc: Global,
    scope: &Scope,
    pairs: &[Option<Pair>],
    memories: &[Port],
) -> Result<Vec<Outside>, AllocError>
    ensures { IfOk result (λ v. (ms : List ModuleTree) (top : ModuleTree) (f : FlatTree) (t : TapeTree) → IsTopPlaced ms top f pairs.now t scope.now
        → memories.now ≡ (shape_of top).memories → AreOutside ms top f pairs.now v.items) }
{
    let mut outside = Vec::new(alloc);
    for i in 0..memories.len() {
        let one = outside_at(alloc, scope, pairs, &memories[i].name)?;
        outside.push(one)?;
    }
    Ok(outside)
}

#[tactic(auto, using(vlog_run_laws::proofs::runs::Ascii::wr_ascii, vlog_run_laws::proofs::runs::Ascii::rdy_ascii, vlog_run_laws::proofs::runs::Ascii::din_ascii))]
fn stream_at(
    alloc: Global,
    scope: &Scope,
    pairs: &[Option<Pair>],
    port: &Port,
) -> Result<Stream, AllocError>
    ensures { IfOk result (λ s. (ms : List ModuleTree) (top : ModuleTree) (f : FlatTree) (t : TapeTree) → IsTopPlaced ms top f pairs.now t scope.now
        → Has (streams_of top) port.now → IsStream ms f pairs.now port.now s) }
{
    let label = port.name.bytes();
    let wr = pair_named(scope, pairs, wr_name(alloc, label)?);
    let rdy = pair_named(scope, pairs, rdy_name(alloc, label)?);
    let din = pair_named(scope, pairs, din_name(alloc, label)?);
    Ok(Stream {
        wr,
        rdy,
        din,
        bits: port.bits,
    })
}

fn all_streams(
    alloc: Global,
    scope: &Scope,
    pairs: &[Option<Pair>],
    ports: &[Port],
) -> Result<Vec<Stream>, AllocError>
    ensures { IfOk result (λ v. (ms : List ModuleTree) (top : ModuleTree) (f : FlatTree) (t : TapeTree) → IsTopPlaced ms top f pairs.now t scope.now
        → ports.now ≡ streams_of top → AreStreams ms top f pairs.now v.items) }
{
    let mut streams = Vec::new(alloc);
    for i in 0..ports.len() {
        let one = stream_at(alloc, scope, pairs, &ports[i])?;
        streams.push(one)?;
    }
    Ok(streams)
}

/// Finds the interface of a design. The scalars among its inputs have these numbers.
#[tactic(auto, using(vlog_run_laws::proofs::runs::Ascii::done_ascii))]
pub fn around_of(
    alloc: Global,
    design: &Design,
    pairs: &[Option<Pair>],
    scalars: &[u64],
) -> Result<Around, AllocError>
    ensures { IfOk result (λ a. (top : ModuleTree) (f : FlatTree) (t : TapeTree) → TopOf design.now top → IsFlat design.now.modules top f
        → ArePlaced design.now.modules top f pairs.now → AreGiven design.now.modules top f pairs.now t
        → IsAround design.now.modules top f pairs.now scalars.now a) }
{
    let scope = design.scope();
    let shape = design.shape(alloc)?;
    let ports = design.streams(alloc)?;
    let inputs = all_inputs(alloc, scope, pairs, &shape, scalars)?;
    let outside = all_outside(alloc, scope, pairs, &shape.memories)?;
    let streams = all_streams(alloc, scope, pairs, &ports)?;
    let shown = all_shown(alloc, scope, pairs)?;
    let done = pair_named(scope, pairs, done_name(alloc)?);
    Ok(Around {
        inputs,
        outside,
        streams,
        shown,
        done,
    })
}
