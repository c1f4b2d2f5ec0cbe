// The instance that an invocation makes: its label, and the streams, memories and scalars that its parameters are bound to.
ghost use Rattle.std.specs.Prelude.{◌≡◌, ◌||◌, ◌+◌, [], map, slice_get};
ghost use Rattle.std.specs.Str.{IsAscii};
ghost use Rattle.tapa_syntax.specs.Flat.{flat_bound, flat_instance};
ghost use Rattle.check_scope.specs.Answers.{ScopeAnswers};
ghost use Rattle.check_upper.specs.Views.{invocation_view, task_view};
ghost use Rattle.stream_check.specs.Parts as parts;

use crate::label::{below, instance_name};
use check_expression::same_kind;
use check_scope::{CheckFault, number_of};
use check_upper::{Binding, Invoked, Task};
use std::alloc::Global;
use tapa_base::{Kind, convert, number_at};
use tapa_syntax::{Bound, Instance};

/// A value that is bound, converted from the first kind to the second.
fn passed(alloc: Global, from: Kind, to: Kind, bound: &Bound) -> Result<Bound, CheckFault>
    ensures { ScopeAnswers flat_bound result [] (parts.passed from to (flat_bound bound.now)) }
{
    match bound {
        Bound::Number(number) => Ok(Bound::Number(convert(from, to, from.low(*number)))),
        Bound::Top { scalar, kinds } => {
            let mut through = kinds.as_slice().to_vec(alloc)?;
            if !same_kind(from, to) {
                through.push(to)?;
            }
            Ok(Bound::Top {
                scalar: *scalar,
                kinds: through,
            })
        }
    }
}

/// What a scalar parameter is bound to.
fn scalar_at(
    alloc: Global,
    from: Kind,
    to: Kind,
    scalars: &[Bound],
    number: u32,
) -> Result<Bound, CheckFault>
    ensures { ScopeAnswers flat_bound result [] (parts.passed from to (parts.bound_or_zero (slice_get (map flat_bound scalars.now) number))) }
{
    match scalars.get(number as usize) {
        Some(bound) => passed(alloc, from, to, bound),
        None => passed(alloc, from, to, &Bound::Number(0)),
    }
}

/// The number of a stream of an instance's own task.
fn own_stream(first: u32, number: u32) -> Result<u32, CheckFault>
    ensures { ScopeAnswers (λ n. n) result [] (first + number) }
{
    if number > u32::MAX - first {
        Err(CheckFault::OutOfMemory)
    } else {
        Ok(first + number)
    }
}

/// One argument more of an instance that the task of another invokes.
fn bind(
    alloc: Global,
    outer: &Instance,
    first: u32,
    binding: Binding,
    made: &mut Instance,
) -> Result<(), CheckFault>
    ensures { ScopeAnswers (λ x. flat_instance made.new) result [] (parts.bind (flat_instance outer.now) first (flat_instance made.old) binding) }
{
    match binding {
        Binding::OwnStream(number) => made.streams.push(own_stream(first, number)?)?,
        Binding::StreamParameter(position) => {
            made.streams.push(number_at(&outer.streams, position))?;
        }
        Binding::MemoryParameter(position) => {
            made.memories.push(number_at(&outer.memories, position))?;
        }
        Binding::ScalarParameter { number, from, to } => {
            made.scalars
                .push(scalar_at(alloc, from, to, &outer.scalars, number)?)?;
        }
        Binding::Constant(value) => made.scalars.push(Bound::Number(value))?,
    }
    Ok(())
}

fn bind_all(
    alloc: Global,
    outer: &Instance,
    first: u32,
    bindings: &[Binding],
    made: &mut Instance,
) -> Result<(), CheckFault>
    ensures { ScopeAnswers (λ x. flat_instance made.new) result [] (parts.bind_all (flat_instance outer.now) first (flat_instance made.old) bindings.now) }
{
    for binding in bindings {
        bind(alloc, outer, first, *binding, made)?;
    }
    Ok(())
}

fn name_at<'t>(tasks: &'t [Task], number: usize) -> &'t [u8]
    ensures value { result.now ≡ parts.name_of (slice_get (map task_view tasks.now) number) }
    ensures ascii { IsAscii result.now }
{
    match tasks.get(number) {
        Some(task) => task.declared.name.text.bytes(),
        None => &[],
    }
}

/// Whether an instance is not waited for, which the task of another invokes.
fn is_detached(outer: &Instance, invocation: &Invoked) -> bool
    ensures { result ≡ (outer.now.detached || invocation.now.detached) }
{
    outer.detached || invocation.detached
}

/// The instance of the invocation at a position of the task of an instance; its body is the number of its task.
pub(crate) fn invoked(
    alloc: Global,
    tasks: &[Task],
    outer: &Instance,
    first: u32,
    position: usize,
    invocation: &Invoked,
) -> Result<Instance, CheckFault>
    ensures { ScopeAnswers flat_instance result [] (parts.invoked (map task_view tasks.now) (flat_instance outer.now) first position (invocation_view invocation.now)) }
{
    let name = instance_name(alloc, name_at(tasks, invocation.task), position)?;
    let mut made = Instance {
        label: below(alloc, &outer.label, &name)?,
        body: number_of(invocation.task)?,
        detached: is_detached(outer, invocation),
        scalars: Vec::new(alloc),
        streams: Vec::new(alloc),
        memories: Vec::new(alloc),
    };
    bind_all(alloc, outer, first, &invocation.bindings, &mut made)?;
    Ok(made)
}
