// The streams and leaf instances that a hierarchy of upper-level tasks means, within the limits of their number and of its depth.
ghost use Rattle.std.specs.Prelude.{◌≡◌, ◌∷◌, [], length, map, slice_get};
ghost use Rattle.tapa_syntax.specs.Flat.{flat_instance};
ghost use Rattle.check_upper.specs.Views.{invocation_view, task_view};
ghost use Rattle.stream_check.specs.Parts as spec;
ghost use Rattle.stream_check.specs.Views.{AddsParts, body_found, upper_parts};

use crate::instance::invoked;
use crate::label::below;
use check_scope::{CheckFault, number_of, over};
use check_upper::{Body, Channel, Invoked, Task};
use std::alloc::Global;
use tapa_base::{Place, Text};
use tapa_syntax::Instance;

/// The most streams of a program.
const MOST_STREAMS: u32 = 1024;

/// The most leaf instances of a program.
const MOST_INSTANCES: u32 = 512;

/// The most levels of upper-level tasks, the top being the first.
pub(crate) const MOST_LEVELS: u32 = 8;

/// The streams and the leaf instances of a program so far. A stream's name is its label, and an instance's body is the
/// number of its task in the file.
#[derive(Drop)]
pub(crate) struct Parts {
    pub streams: Vec<Channel>,
    pub instances: Vec<Instance>,
}

impl Parts {
    fn stream(&mut self, alloc: Global, label: &Text, channel: &Channel) -> Result<(), CheckFault>
        ensures { AddsParts result self.old self.new (spec.own (spec.labelled label.now channel.now) ∷ []) }
    {
        if self.streams.len() >= MOST_STREAMS as usize {
            return Err(over(MOST_STREAMS, channel.place));
        }
        self.streams.push(Channel {
            name: below(alloc, label, &channel.name)?,
            place: channel.place,
            kind: channel.kind,
            depth: channel.depth,
        })?;
        Ok(())
    }

    fn streams(
        &mut self,
        alloc: Global,
        label: &Text,
        channels: &[Channel],
    ) -> Result<(), CheckFault>
        ensures { AddsParts result self.old self.new (spec.own_parts label.now channels.now) }
    {
        for channel in channels {
            self.stream(alloc, label, channel)?;
        }
        Ok(())
    }

    fn instance(&mut self, place: Place, made: Instance) -> Result<(), CheckFault>
        ensures { AddsParts result self.old self.new (spec.instance place (flat_instance made) ∷ []) }
    {
        if self.instances.len() >= MOST_INSTANCES as usize {
            return Err(over(MOST_INSTANCES, place));
        }
        self.instances.push(made)?;
        Ok(())
    }
}

fn body_at<'t>(tasks: &'t [Task], number: u32) -> Option<&'t Body>
    ensures { body_found result ≡ spec.body_of (slice_get (map task_view tasks.now) number) }
{
    match tasks.get(number as usize) {
        Some(task) => Some(&task.body),
        None => None,
    }
}

/// The parts of an instance whose task is named at a place, where upper-level tasks may nest at most `levels` deep.
#[cycle(hierarchy)]
pub(crate) fn expand(
    alloc: Global,
    tasks: &[Task],
    levels: u32,
    place: Place,
    made: Instance,
    parts: &mut Parts,
) -> Result<(), CheckFault>
    ensures { AddsParts result parts.old parts.new (spec.parts_of levels (map task_view tasks.now) place (flat_instance made) (length parts.old.streams.items)) }
{
    match body_at(tasks, made.body) {
        Some(Body::Leaf(_)) => parts.instance(place, made),
        Some(
            Body::Upper {
                channels,
                invocations,
            },
        ) => upper(
            alloc,
            tasks,
            levels,
            place,
            &made,
            channels,
            invocations,
            parts,
        ),
        None => Ok(()),
    }
}

/// The parts of an upper-level instance: its streams, and then what its task invokes.
#[cycle(hierarchy)]
fn upper(
    alloc: Global,
    tasks: &[Task],
    levels: u32,
    place: Place,
    made: &Instance,
    channels: &[Channel],
    invocations: &[Invoked],
    parts: &mut Parts,
) -> Result<(), CheckFault>
    ensures { AddsParts result parts.old parts.new (upper_parts levels (map task_view tasks.now) place (flat_instance made.now) (length parts.old.streams.items) channels.now
        (map invocation_view invocations.now)) }
{
    if levels == 0 {
        return Err(over(MOST_LEVELS, place));
    }
    let first = number_of(parts.streams.len())?;
    parts.streams(alloc, &made.label, channels)?;
    chain(alloc, tasks, levels - 1, made, first, invocations, parts)
}

/// The parts of what an instance's task invokes.
#[cycle(hierarchy)]
fn chain(
    alloc: Global,
    tasks: &[Task],
    levels: u32,
    outer: &Instance,
    first: u32,
    invocations: &[Invoked],
    parts: &mut Parts,
) -> Result<(), CheckFault>
    ensures { AddsParts result parts.old parts.new (spec.chain_parts (spec.parts_of levels (map task_view tasks.now)) (map task_view tasks.now)
        (flat_instance outer.now) first 0 (length parts.old.streams.items) (map invocation_view invocations.now)) }
{
    for (position, invocation) in invocations.iter().enumerate() {
        let made = invoked(alloc, tasks, outer, first, position, invocation)?;
        expand(alloc, tasks, levels, invocation.place, made, parts)?;
    }
    Ok(())
}
