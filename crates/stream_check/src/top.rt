// The top task: its position among the tasks of a file, its rules, its instance, and its scalar parameters.
ghost use Rattle.std.specs.Prelude.{◌≡◌, ◌++◌, [], length, map};
ghost use Rattle.std.specs.List.{list_any};
ghost use Rattle.tapa_syntax.specs.Flat.{flat_bound, flat_instance};
ghost use Rattle.check_scope.specs.Answers.{ScopeAnswers};
ghost use Rattle.check_upper.specs.Tasks as table;
ghost use Rattle.check_upper.specs.Views.{body_view, task_view};
ghost use Rattle.stream_check.specs.Programs as program;

use check_scope::{CheckCode, CheckFault, copied, number_of, refused};
use check_upper::{Body, Task};
use std::alloc::Global;
use tapa_base::{Place, Text};
use tapa_syntax::{Bound, Instance, Parameter, Scalar};

/// The place that is reported where there is no top task of that name.
pub(crate) const FIRST_PLACE: Place = Place { line: 1, col: 1 };

/// The number of the task of a name, and of no task where there is none.
pub(crate) fn task_position(tasks: &[Task], name: &str) -> usize
    ensures { result ≡ table.task_position 0 name.now (map task_view tasks.now) }
{
    for (position, task) in tasks.iter().enumerate() {
        if task.declared.name.text.bytes() == name.as_bytes() {
            return position;
        }
    }
    tasks.len()
}

fn is_stream(parameter: &Parameter) -> bool
    ensures { result ≡ program.is_stream_parameter parameter.now }
{
    match parameter {
        Parameter::InputStream(_, _) => true,
        Parameter::OutputStream(_, _) => true,
        Parameter::Memory { .. } => false,
        Parameter::Scalar { .. } => false,
    }
}

fn has_stream(parameters: &[Parameter]) -> bool
    ensures { result ≡ list_any program.is_stream_parameter parameters.now }
{
    for parameter in parameters {
        if is_stream(parameter) {
            return true;
        }
    }
    false
}

fn is_upper(body: &Body) -> bool
    ensures { result ≡ program.is_upper (body_view body.now) }
{
    match body {
        Body::Leaf(_) => false,
        Body::Upper { .. } => true,
    }
}

/// The top task is an upper-level task without stream parameters.
pub(crate) fn check_top(task: &Task) -> Result<(), CheckFault>
    ensures { ScopeAnswers (λ x. x) result (program.top_faults (task_view task.now)) tt }
{
    if is_upper(&task.body) && !has_stream(&task.declared.parameters) {
        Ok(())
    } else {
        Err(refused(CheckCode::C3, task.declared.name.place))
    }
}

fn add_scalar(
    parameter: &Parameter,
    scalars: &mut Vec<Bound>,
    alloc: Global,
) -> Result<(), CheckFault>
    ensures { ScopeAnswers (λ x. map flat_bound scalars.new.items) result [] (map flat_bound scalars.old.items ++ program.top_scalar_at (length scalars.old.items) parameter.now) }
{
    if let Parameter::Scalar { .. } = parameter {
        let scalar = number_of(scalars.len())?;
        scalars.push(Bound::Top {
            scalar,
            kinds: Vec::new(alloc),
        })?;
    }
    Ok(())
}

/// The scalars of the top task, which are bound to themselves.
fn top_scalars(alloc: Global, parameters: &[Parameter]) -> Result<Vec<Bound>, CheckFault>
    ensures { ScopeAnswers (λ scalars. map flat_bound scalars.items) result [] (program.top_scalars 0 parameters.now) }
{
    let mut scalars = Vec::new(alloc);
    for parameter in parameters {
        add_scalar(parameter, &mut scalars, alloc)?;
    }
    Ok(scalars)
}

fn add_memory(parameter: &Parameter, memories: &mut Vec<u32>) -> Result<(), CheckFault>
    ensures { ScopeAnswers (λ x. memories.new.items) result [] (memories.old.items ++ program.top_memory_at (length memories.old.items) parameter.now) }
{
    if let Parameter::Memory { .. } = parameter {
        let memory = number_of(memories.len())?;
        memories.push(memory)?;
    }
    Ok(())
}

/// The memories of the top task, which are bound to themselves.
fn top_memories(alloc: Global, parameters: &[Parameter]) -> Result<Vec<u32>, CheckFault>
    ensures { ScopeAnswers (λ memories. memories.items) result [] (program.top_memories 0 parameters.now) }
{
    let mut memories = Vec::new(alloc);
    for parameter in parameters {
        add_memory(parameter, &mut memories)?;
    }
    Ok(memories)
}

/// The instance of the top task, which has no label.
pub(crate) fn top_instance(
    alloc: Global,
    number: usize,
    parameters: &[Parameter],
) -> Result<Instance, CheckFault>
    ensures { ScopeAnswers flat_instance result [] (program.top_instance number parameters.now) }
{
    Ok(Instance {
        label: Text::new(Vec::new(alloc)),
        body: number_of(number)?,
        detached: false,
        scalars: top_scalars(alloc, parameters)?,
        streams: Vec::new(alloc),
        memories: top_memories(alloc, parameters)?,
    })
}

fn add_scalar_parameter(
    alloc: Global,
    parameter: &Parameter,
    scalars: &mut Vec<Scalar>,
) -> Result<(), CheckFault>
    ensures { ScopeAnswers (λ x. scalars.new.items) result [] (scalars.old.items ++ program.scalar_of parameter.now) }
{
    if let Parameter::Scalar { kind, name, .. } = parameter {
        scalars.push(Scalar {
            name: copied(alloc, &name.text)?,
            kind: *kind,
        })?;
    }
    Ok(())
}

/// The scalar parameters of the top task.
pub(crate) fn scalars(alloc: Global, parameters: &[Parameter]) -> Result<Vec<Scalar>, CheckFault>
    ensures { ScopeAnswers (λ scalars. scalars.items) result [] (program.scalars_of parameters.now) }
{
    let mut scalars = Vec::new(alloc);
    for parameter in parameters {
        add_scalar_parameter(alloc, parameter, &mut scalars)?;
    }
    Ok(scalars)
}
