// The rules of an upper-level task and of its invocations: the task that each names, whether it is detached, and its arguments.
ghost use Rattle.std.specs.Prelude.{◌≡◌, map, slice_get};
ghost use Rattle.tapa_syntax.specs.Trees as tree;
ghost use Rattle.check_scope.specs.Answers.{ScopeAnswers};
ghost use Rattle.check_scope.specs.Faults.{wrong_entity};
ghost use Rattle.check_scope.specs.Scopes.{entity_of};
ghost use Rattle.check_upper.specs.Tasks as spec;
ghost use Rattle.check_upper.specs.Uppers as upper;
ghost use Rattle.check_upper.specs.Views.{body_view, invocation_view, task_view};

use crate::argument::arguments;
use crate::channel::Channels;
use crate::parameter::scope_of;
use crate::task::{Binding, Body, Invoked, Task};
use check_scope::{CheckCode, CheckFault, Entity, Names, Scope, refused};
use std::alloc::Global;
use tapa_syntax::{Invocation, Name, Parameter, StreamDeclaration, TaskDeclaration};

/// Whether an invocation of this mode is detached: the modes are `tapa::join` and `tapa::detach`, and without one it is waited for.
fn is_detached(mode: &Option<Name>) -> Result<bool, CheckFault>
    ensures { ScopeAnswers (λ detached. detached) result (upper.mode_faults mode.now) (upper.is_detached mode.now) }
{
    let Some(mode) = mode else {
        return Ok(false);
    };
    if mode.text.bytes() == b"detach".as_slice() {
        Ok(true)
    } else if mode.text.bytes() == b"join".as_slice() {
        Ok(false)
    } else {
        Err(refused(CheckCode::C3, mode.place))
    }
}

/// The number of the task that a name means.
fn task_number(scope: &Scope, name: &Name) -> Result<u32, CheckFault>
    ensures { ScopeAnswers (λ n. n) result (wrong_entity upper.is_task name.now.place (entity_of name.now.text scope.now)) (upper.invoked_task scope.now name.now.text) }
{
    match scope.entity(&name.text) {
        Some(Entity::Task { number }) => Ok(number),
        Some(_) => Err(refused(CheckCode::C3, name.place)),
        None => Err(refused(CheckCode::C1, name.place)),
    }
}

fn parameters_at<'t>(tasks: &'t [Task], number: usize) -> &'t [Parameter]
    ensures { result.now ≡ spec.parameters_of (slice_get (map task_view tasks.now) number) }
{
    match tasks.get(number) {
        Some(task) => &task.declared.parameters,
        None => &[],
    }
}

/// One argument for each parameter, each fit for its parameter, and not of the task itself.
fn bindings_of(
    alloc: Global,
    scope: &Scope,
    parameters: &[Parameter],
    is_self: bool,
    invocation: &Invocation,
) -> Result<Vec<Binding>, CheckFault>
    ensures { ScopeAnswers (λ bindings. bindings.items) result (upper.callee_faults scope.now parameters.now is_self (tree.invocation_of invocation.now))
        (upper.bindings_of scope.now parameters.now (map tree.argument_of invocation.now.arguments.items)) }
{
    let place = invocation.task.place;
    if parameters.len() != invocation.arguments.len() {
        return Err(refused(CheckCode::C3, place));
    }
    if is_self {
        return Err(refused(CheckCode::C10, place));
    }
    arguments(alloc, scope, parameters, &invocation.arguments)
}

fn invocation(
    alloc: Global,
    scope: &Scope,
    tasks: &[Task],
    own: &TaskDeclaration,
    invocation: &Invocation,
) -> Result<Invoked, CheckFault>
    ensures { ScopeAnswers invocation_view result (upper.invocation_faults scope.now (map task_view tasks.now) (tree.task_of own.now) (tree.invocation_of invocation.now))
        (upper.invocation_of scope.now (map task_view tasks.now) (tree.task_of own.now) (tree.invocation_of invocation.now)) }
{
    let detached = is_detached(&invocation.mode)?;
    let task = task_number(scope, &invocation.task)? as usize;
    let is_self = invocation.task.text.bytes() == own.name.text.bytes();
    let parameters = if is_self {
        own.parameters.as_slice()
    } else {
        parameters_at(tasks, task)
    };
    Ok(Invoked {
        place: invocation.task.place,
        detached,
        task,
        bindings: bindings_of(alloc, scope, parameters, is_self, invocation)?,
    })
}

fn invocations(
    alloc: Global,
    scope: &Scope,
    tasks: &[Task],
    own: &TaskDeclaration,
    invoked: &[Invocation],
) -> Result<Vec<Invoked>, CheckFault>
    ensures { ScopeAnswers (λ made. map invocation_view made.items) result
        (upper.invocations_faults scope.now (map task_view tasks.now) (tree.task_of own.now) (map tree.invocation_of invoked.now))
        (upper.invocations_of scope.now (map task_view tasks.now) (tree.task_of own.now) (map tree.invocation_of invoked.now)) }
{
    let mut made = Vec::new(alloc);
    for one in invoked {
        made.push(invocation(alloc, scope, tasks, own, one)?)?;
    }
    Ok(made)
}

/// An upper-level task, of a file that has declared these names, itself among them, and has these tasks before it.
pub fn check_upper(
    alloc: Global,
    file: &Names,
    tasks: &[Task],
    own: &TaskDeclaration,
    streams: &[StreamDeclaration],
    invoked: &[Invocation],
) -> Result<Body, CheckFault>
    ensures { ScopeAnswers body_view result
        (upper.upper_faults file.now (map task_view tasks.now) (tree.task_of own.now) (map tree.stream_of streams.now) (map tree.invocation_of invoked.now))
        (upper.upper_of file.now (map task_view tasks.now) (tree.task_of own.now) (map tree.stream_of streams.now) (map tree.invocation_of invoked.now)) }
{
    let scope = scope_of(alloc, file, &own.parameters)?;
    let mut channels = Channels {
        scope,
        streams: Vec::new(alloc),
    };
    channels.streams(alloc, streams)?;
    let invocations = invocations(alloc, &channels.scope, tasks, own, invoked)?;
    let Channels { streams, .. } = channels;
    Ok(Body::Upper {
        channels: streams,
        invocations,
    })
}
